//! What is to be done once the files that the words name are read.

ghost use Rattle.std.specs.Prelude.{◌≡◌};
ghost use Rattle.protos.specs.Keeps.{HasModules};
ghost use Rattle.session_meaning.specs.WellFormed.{WellFormedDraft};

use crate::report::Report;
use grant_registry::Registry;
use std::marker::Model;

/// A session within its limits, of which each function has its module.
#[derive(Drop)]
pub struct WholeSession {
    registry: Registry,
}

impl Model for WholeSession {
    ghost use Rattle.session_meaning.specs.Draft.{Draft};
    ghost use Rattle.faasm_top.specs.Whole.{IsWhole};

    ghost Value = { Draft };

    ghost view = { λ s. s.registry };

    ghost invariant = { λ s. IsWhole s.registry };
}

impl WholeSession {
    /// The session of a registry.
    pub fn of(registry: Registry) -> WholeSession
        requires formed { WellFormedDraft registry }
        requires modules { HasModules registry }
        ensures { result ≡ registry }
    {
        WholeSession { registry }
    }

    /// Its registry.
    pub fn registry(&self) -> &Registry
        ensures draft { result.now ≡ self.now }
        ensures formed { WellFormedDraft self.now }
        ensures modules { HasModules self.now }
    {
        &self.registry
    }
}

/// What the words come to.
#[derive(Drop)]
pub enum Due {
    /// A line that is to be written.
    Line(Report),
    /// A session that is to run under the schedule of a seed.
    Trace(WholeSession, u64),
}
