//! What a session over events is made of.

use crate::floor::Floor;
use crate::player::Player;
use call_table::CallTable;
use protos::Protos;
use session_meaning::{Event, Why};
use std::alloc::{AllocError, Global};
use thiserror::Error;
use world_objects::Objects;

/// Why an event changed nothing: it may not stand, for this first reason, or there was no memory.
#[derive(Clone, Copy, Debug, Drop, Error)]
pub enum StepFault {
    #[error("the event may not stand")]
    NotEnabled(Why),
    #[error("no memory")]
    Want,
}

/// The snapshots of the functions, the call table, the objects, the calls on the floor, the open calls by rising number, and
/// the events so far.
#[derive(Drop)]
pub(crate) struct Running<'s> {
    pub(crate) alloc: Global,
    pub(crate) protos: &'s Protos<'s>,
    pub(crate) table: CallTable,
    pub(crate) objects: Objects,
    pub(crate) floor: Floor,
    pub(crate) players: Vec<Player<'s>>,
    pub(crate) events: Vec<Event>,
}
