//! What a session opens and closes.

use crate::columns::{BenchPasses, Columns};
use crate::hosts::HostRest;
use call_table::CallTable;
use region_tier::{Tier, TierRoom};
use shared_region::Region;
use turn_cell::{Pass, Seen, Turns};

/// What all threads of a session share: the replicas of each host, the global values, and the call table.
pub struct Objects {
    pub locals: Vec<Tier>,
    pub globals: Tier,
    pub table: Turns<CallTable>,
}

/// All passes, in the order of their numbers: those of the benches, on the call table then those of the workers, and
/// last the session's.
pub struct SessionPasses {
    pub benches: Vec<BenchPasses>,
    pub workers: Vec<Pass<CallTable>>,
    pub session: Pass<CallTable>,
}

/// What the session keeps until it closes: the memory that this takes, and the passes that nobody uses, those of a
/// bench to replicas of other hosts.
pub struct Closing {
    pub(crate) rests: Vec<HostRest>,
    pub(crate) globals: TierRoom,
    pub(crate) columns: Columns,
    pub(crate) ends: Vec<Vec<(Region, Seen<Region>)>>,
}

/// The objects of a session with all their passes.
pub struct Opened {
    pub objects: Objects,
    pub passes: SessionPasses,
    pub closing: Closing,
}

/// The regions and the table at the end, each with its whole list: the replicas by host and key, the global values by
/// key.
#[derive(Drop)]
pub struct Closed {
    pub locals: Vec<Vec<(Region, Seen<Region>)>>,
    pub globals: Vec<(Region, Seen<Region>)>,
    pub table: (CallTable, Seen<CallTable>),
}
