//! A number to which entries add.
use turn_cell::Kept;

/// The sum, modulo 2^64.
#[derive(Drop)]
pub struct Tally {
    pub count: u64,
}

impl Kept for Tally {
    ghost use Rattle.turn_counter.specs.Tallies.{Adds};

    ghost makes = { Adds };
}
