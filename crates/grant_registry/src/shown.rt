//! What is lent of an entry.

/// A function without its module, its grants and what it may call.
#[derive(Clone, Copy)]
pub struct FunctionPlan<'r> {
    pub name: &'r str,
    pub quota: u32,
    pub fuel: u64,
    pub room: u32,
}

/// A key, with the bytes at the front of its global value.
#[derive(Clone, Copy)]
pub struct KeyPlan<'r> {
    pub name: &'r str,
    pub size: u32,
    pub init: &'r [u8],
}

/// A request of a function, by its number, at a host.
#[derive(Clone, Copy)]
pub struct RequestPlan<'r> {
    pub label: &'r str,
    pub function: u32,
    pub host: u32,
    pub input: &'r [u8],
}
