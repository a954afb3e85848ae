//! The cell of a key, and the pass of a key.
ghost use Rattle.std.specs.Prelude.{◌≡◌, ◌<◌, Some, None, length, slice_set};
ghost use Rattle.turn_cell.specs.Cell.{pass_number};
ghost use mathlib.Core.Option.{some};
ghost use lib.ListN.{get_elem?};
ghost use Rattle.region_tier.specs.Opened.{IsOpened};
ghost use Rattle.region_tier.specs.Tiers.{IsIn, RegionPass, cells_of, slots_of};

use crate::cells::{Passes, Tier};
use shared_region::Region;
use turn_cell::{Pass, Turns};

impl Tier {
    pub(crate) fn cell(&self, key: u32) -> &Turns<Region>
        requires { key < length (cells_of self.now) }
        ensures at { get_elem? (cells_of self.now) key ≡ some result.now }
        ensures opened { IsOpened result.now }
    {
        &self.cells[key as usize]
    }
}

impl Passes {
    /// The number of this maker, read at a key whose pass is there.
    pub fn number(&self, key: u32) -> u32
        requires { IsIn (slots_of self.now) key }
        ensures { (p : RegionPass) × (get_elem? (slots_of self.now) key ≡ some (Some p)) × (result ≡ pass_number p) }
    {
        let Some(pass) = &self.slots[key as usize] else {
            unreachable!()
        };
        pass.number()
    }

    pub(crate) fn take_out(&mut self, key: u32) -> Pass<Region>
        requires { IsIn (slots_of self.old) key }
        ensures at { get_elem? (slots_of self.old) key ≡ some (Some result) }
        ensures out { slots_of self.new ≡ slice_set (slots_of self.old) key None }
    {
        self.slots[key as usize].take().unwrap()
    }

    pub(crate) fn put_back(&mut self, key: u32, pass: Pass<Region>)
        requires { key < length (slots_of self.old) }
        ensures { slots_of self.new ≡ slice_set (slots_of self.old) key (Some pass) }
    {
        self.slots[key as usize] = Some(pass);
    }
}
