//! Where a call may be held up before it asks.

use faaslet_meaning::Channel;

/// Is passed before each question, with the number of the bench and the channel of the question, of a transfer that of the
/// replica. It promises nothing.
pub trait Gate {
    fn pass(&self, bench: u32, channel: Channel);
}

/// The gate that lets all pass.
#[derive(Clone, Copy)]
pub struct Open;

impl Gate for Open {
    fn pass(&self, _bench: u32, _channel: Channel) {}
}
