//! The numbers of a seed, by which a trace picks its events.

ghost use Rattle.std.specs.Prelude.{◌≡◌, ◌<◌, ◌^◌};
ghost use Rattle.session_meaning.specs.Schedule.{next_of, number_of, pick};

use std::marker::Model;

const FACTOR: u64 = 6_364_136_223_846_793_005;

const SUMMAND: u64 = 1_442_695_040_888_963_407;

/// A generator of numbers below 2^31. Contracts see the number that it stands at.
#[derive(Drop)]
pub struct Generator {
    at: u64,
}

impl Model for Generator {
    ghost use Rattle.std.specs.Prelude.{ℕ};

    ghost Value = { ℕ };

    ghost view = { λ g. g.at };
}

impl Generator {
    pub fn new(seed: u64) -> Generator
        ensures { result ≡ seed }
    {
        Generator { at: seed }
    }

    /// Goes on, and answers the next number.
    pub fn next_number(&mut self) -> u32
        ensures goes_on { self.new ≡ next_of self.old }
        ensures number { result ≡ number_of (next_of self.old) }
    {
        self.at = self.at.wrapping_mul(FACTOR).wrapping_add(SUMMAND);
        (self.at >> 33) as u32
    }

    /// Goes on, and answers a place among so many.
    pub fn pick(&mut self, count: u32) -> u32
        requires { 0 < count }
        ensures goes_on { self.new ≡ next_of self.old }
        ensures place { result ≡ pick (next_of self.old) count }
        ensures within { result < count }
    {
        self.next_number() % count
    }
}
