//! What the calls of the table hand out and answer.

ghost use Rattle.std.specs.Prelude.{◌≡◌, ◌<◌, ◌≤◌, ◌++◌, ◌^◌, drop, length};
ghost use Rattle.call_table.specs.Held.{piece_limit};

use faaslet_meaning::CallRecord;

/// A call that was taken: its number, its function, the length of its input, its fuel, and the room for its output.
#[derive(Clone, Copy, Drop)]
pub struct Job {
    pub call: u32,
    pub function: u32,
    pub len: u32,
    pub fuel: u64,
    pub room: u32,
}

/// The next call, or how many calls are unfinished where none is queued.
#[derive(Clone, Copy, Drop)]
pub enum Next {
    Call(Job),
    None { unfinished: u32 },
}

/// Why no child was added. `ChainFull` tells how many calls the parent's request has, the bytes of their inputs and
/// rooms, and the depth of the parent.
#[derive(Clone, Copy, Debug, Drop, PartialEq, Eq)]
pub enum SubmitFault {
    ChainFull { calls: u32, bytes: u64, depth: u32 },
    Want,
}

/// The call is not finished.
#[derive(Clone, Copy, Debug, Drop, PartialEq, Eq)]
pub struct Unfinished;

/// The bytes at the front of a buffer.
pub(crate) fn copied(bytes: &[u8], buffer: &mut [u8])
    requires { length bytes.now ≤ length buffer.old }
    ensures { buffer.new ≡ bytes.now ++ drop (length bytes.now) buffer.old }
{
    buffer[..bytes.len()].copy_from_slice(bytes);
}

/// The job of a call, whose input goes to the front of the buffer.
pub(crate) fn handed(call: u32, known: &CallRecord, buffer: &mut [u8]) -> Job
    requires small { length known.now.input ≤ piece_limit }
    requires buffer { piece_limit ≤ length buffer.old }
    ensures call { result.call ≡ call }
    ensures function { result.function ≡ known.now.function }
    ensures len { result.len ≡ length known.now.input }
    ensures fuel { result.fuel ≡ known.now.fuel }
    ensures room { result.room ≡ known.now.room }
    ensures input { buffer.new ≡ known.now.input ++ drop (length known.now.input) buffer.old }
{
    let input = known.input.as_slice();
    copied(input, buffer);
    Job {
        call,
        function: known.function,
        len: input.len() as u32,
        fuel: known.fuel,
        room: known.room,
    }
}
