//! A bench, and the objects at which the calls on it ask.

use call_table::CallTable;
use faaslet_meaning::Outcome;
use faaslet_run::Faaslet;
use region_tier::Tier;
use state_service::StatePasses;
use turn_cell::{Pass, Turns};

/// The replicas of the bench's host, the global values, and the call table.
#[derive(Clone, Copy)]
pub struct Tiers<'t> {
    pub local: &'t Tier,
    pub global: &'t Tier,
    pub table: &'t Turns<CallTable>,
}

/// What a bench takes turns by.
#[derive(Drop)]
pub struct Passes {
    pub state: StatePasses,
    pub table: Pass<CallTable>,
}

/// Runs one call after another. It has the number of its passes, and the call with its callable functions that it runs, or
/// ran last.
#[derive(Drop)]
pub struct Bench<'s> {
    pub(crate) number: u32,
    pub(crate) call: u32,
    pub(crate) callees: &'s [u32],
    pub(crate) faaslet: Faaslet<'s>,
    pub(crate) passes: Passes,
}

/// Why a call doesn't go on: it awaits the call with this number, which isn't finished, or it is over.
#[derive(Clone, Copy, Debug, PartialEq, Eq)]
pub enum Halt {
    Awaits(u32),
    Ended(Outcome),
}
