//! Regions by key, and the passes of one maker.
ghost use Rattle.std.specs.Prelude.{◌≡◌, ◌≤◌, [], length};
ghost use Rattle.std.specs.List.{All};
ghost use Rattle.std.specs.Vec.{vec_capacity};
ghost use Rattle.turn_cell.specs.Cell.{numbers_of};
ghost use Rattle.region_tier.specs.Opened.{IsOpened};

use shared_region::Region;
use turn_cell::{Pass, Seen, Turns};

/// Regions, each by the number of its key, which makers take in turns. Threads may share a reference to it.
pub struct Tier {
    pub(crate) cells: Vec<Turns<Region>>,
    pub(crate) numbers: u32,
    ghost opened: { All (λ t. IsOpened t × (numbers_of t ≡ numbers)) cells.items },
    ghost room: { length cells.items ≤ vec_capacity cells },
}

/// The memory that `Tier::close` needs, which one thread keeps.
pub struct TierRoom {
    pub(crate) homes: Vec<Vec<Pass<Region>>>,
    pub(crate) ends: Vec<(Region, Seen<Region>)>,
    ghost homed: { All (λ h. h.items ≡ []) homes.items },
    ghost room: { vec_capacity homes ≡ vec_capacity ends },
    ghost ending: { ends.items ≡ [] },
}

/// The passes of one maker: for each key its pass, or none while it has the turn.
#[derive(Drop)]
pub struct Passes {
    pub(crate) slots: Vec<Option<Pass<Region>>>,
}
