//! An event of each kind.

ghost use Rattle.world_core.specs.Living.{Lives, Stepped};

use crate::running::{Running, StepFault};
use session_meaning::Event;

impl<'s> Running<'s> {
    /// An event comes, before the open calls are told how they stand.
    pub(crate) fn step(&mut self, event: Event) -> Result<(), StepFault>
        requires { Lives self.old }
        ensures { Stepped event result self.old self.new }
    {
        match event {
            Event::Take { call, host } => self.take(call, host),
            Event::Ask { call } => self.ask(call),
            Event::End { call } => self.end(call),
        }
    }
}
