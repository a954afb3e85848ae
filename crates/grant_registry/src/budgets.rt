//! What a session may need of pages.

ghost use Rattle.std.specs.Prelude.{◌≡◌};
ghost use Rattle.session_meaning.specs.WellFormed as session;

use crate::registry::Registry;

impl Registry {
    /// The pages of all global values and replicas.
    pub(crate) fn state_pages(&self) -> u64
        ensures { result ≡ session.state_pages self.now }
    {
        let mut sum: u64 = 0;
        for k in 0..self.keys() {
            sum += (self.size_of(k) as u64 + 65_535) / 65_536;
        }
        (self.hosts() as u64 + 1) * sum
    }

    /// The pages that calls may have of their own.
    pub(crate) fn own_pages(&self) -> u64
        ensures { result ≡ session.own_pages self.now }
    {
        let mut largest: u64 = 0;
        let mut sum: u64 = 0;
        for f in 0..self.functions() {
            let quota = self.quota_of(f) as u64;
            largest = largest.max(quota);
            sum += quota;
        }
        self.hosts() as u64 * (8 * self.workers() as u64 * largest + sum)
    }
}
