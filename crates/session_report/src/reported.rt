//! What a report is of.

ghost use Rattle.std.specs.Prelude.{◌≡◌, ◌<◌, Some, length, slice_get};
ghost use Rattle.session_meaning.specs.SessionReport.{key_name, label_of};

use faaslet_meaning::{CallRecord, Channel};

/// What keeps an open call from its next question.
#[derive(Clone, Copy, Debug, PartialEq, Eq)]
pub enum Obstacle {
    /// A lock of another call on a replica or on a global value.
    Held { channel: Channel, holder: u32 },
    /// A child that is not finished.
    Unfinished { child: u32 },
}

/// An open call, with what keeps it from its next question.
#[derive(Clone, Copy, Debug, PartialEq, Eq)]
pub struct Blocked {
    pub call: u32,
    pub by: Obstacle,
}

/// A session as its report sees it. Requests and keys are numbered from 0 in the order of the plan, calls in that of
/// the records, where the call of each request has the request's number.
pub trait Reported {
    ghost use Rattle.std.specs.Prelude.{ℕ, List};
    ghost use Rattle.faaslet_meaning.specs.declared.call.CallRecord.{CallRecord};
    ghost use Rattle.session_meaning.specs.Plan.{Plan};
    ghost use Rattle.session_meaning.specs.SessionReport.{key_name, label_of};

    ghost plan: { Self → Plan };

    ghost records: { Self → List CallRecord };

    /// The whole global value of each key.
    ghost values: { Self → List (List ℕ) };

    /// How many requests there are.
    fn requests(&self) -> u32
        ensures { result ≡ length (plan self.now).requests };

    fn label(&self, request: u32) -> &str
        requires { request < length (plan self.now).requests }
        ensures { result.now ≡ label_of (plan self.now) request };

    /// How many keys there are.
    fn keys(&self) -> u32
        ensures { result ≡ length (plan self.now).keys };

    fn key_name(&self, key: u32) -> &str
        requires { key < length (plan self.now).keys }
        ensures { result.now ≡ key_name (plan self.now) key };

    /// The whole global value of a key.
    fn value(&self, key: u32) -> &[u8]
        requires { key < length (plan self.now).keys }
        ensures { slice_get (values self.now) key ≡ Some result.now };

    /// How many calls there are.
    fn calls(&self) -> u32
        ensures { result ≡ length (records self.now) };

    fn record(&self, call: u32) -> &CallRecord
        requires { call < length (records self.now) }
        ensures { slice_get (records self.now) call ≡ Some result.now };
}
