//! A region that is kept in turns.

use crate::region::Region;
use turn_cell::Kept;

impl Kept for Region {
    ghost use Rattle.shared_region.specs.Entries.{MakesShared};

    ghost makes = { MakesShared };
}
