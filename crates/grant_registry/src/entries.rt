//! What the registry keeps under each name.

use faaslet_meaning::{Bytes, Grants};
use wasm_validate::ValidModule;

#[derive(Drop)]
pub(crate) struct KeyEntry {
    pub size: u32,
    pub init: Bytes,
}

#[derive(Drop)]
pub(crate) struct FunctionEntry {
    pub module: Option<ValidModule>,
    pub quota: u32,
    pub fuel: u64,
    pub room: u32,
    pub grants: Grants,
    pub callees: Vec<u32>,
}

#[derive(Drop)]
pub(crate) struct RequestEntry {
    pub function: u32,
    pub host: u32,
    pub input: Bytes,
}
