//! Lines and statuses.

ghost use Rattle.std.specs.Prelude.{◌≡◌, IfOk};
ghost use Rattle.std.specs.String.{string_bytes};
ghost use Rattle.faaslet_meaning.specs.Report as report;
ghost use Rattle.faasm_top.specs.Answers.{code_of};

use std::alloc::{AllocError, Global};

/// How the program ends.
#[derive(Clone, Copy, Debug, PartialEq, Eq)]
pub enum Status {
    /// The module is valid, or the call came to its end, or that of each request.
    Done = 0,
    /// A call trapped, spent its fuel or could not begin, or a session is stuck.
    NotDone = 1,
    /// The words are no command.
    Usage = 2,
    /// A file was refused, or the command isn't built yet.
    Refused = 3,
    /// A file can't be read.
    ShelfFailed = 4,
    /// The output can't be written.
    SinkFailed = 5,
    /// There is no memory.
    Want = 6,
}

impl Status {
    /// The number that the process ends with.
    pub fn code(self) -> u8
        ensures { result ≡ code_of self }
    {
        self as u8
    }
}

/// A line that is to be written, and the status that goes with it.
#[derive(Debug, Drop)]
pub struct Report {
    pub status: Status,
    pub line: String,
}

/// A line that stands fixed.
pub fn told(alloc: Global, status: Status, line: &str) -> Result<Report, AllocError>
    ensures status { IfOk result (λ r. r.status ≡ status) }
    ensures line { IfOk result (λ r. string_bytes r.line ≡ line.now) }
{
    Ok(Report {
        status,
        line: String::from_str(alloc, line)?,
    })
}

/// Words that are no command.
pub fn usage(alloc: Global) -> Result<Report, AllocError>
    ensures status { IfOk result (λ r. code_of r.status ≡ 2) }
    ensures line { IfOk result (λ r. string_bytes r.line ≡ report.usage) }
{
    told(
        alloc,
        Status::Usage,
        "usage: faasm check FILE | call FILE INPUTHEX FUEL | trace SESSION SEED | run SESSION | load N\n",
    )
}

/// What isn't built yet.
pub fn not_built(alloc: Global) -> Result<Report, AllocError>
    ensures status { IfOk result (λ r. code_of r.status ≡ 3) }
    ensures line { IfOk result (λ r. string_bytes r.line ≡ report.not_built) }
{
    told(alloc, Status::Refused, "not built\n")
}

/// A file that holds a valid module.
pub fn valid(alloc: Global) -> Result<Report, AllocError>
    ensures status { IfOk result (λ r. code_of r.status ≡ 0) }
    ensures line { IfOk result (λ r. string_bytes r.line ≡ report.valid) }
{
    told(alloc, Status::Done, "valid\n")
}

/// A file that can't be read.
pub fn read_fault(alloc: Global) -> Result<Report, AllocError>
    ensures status { IfOk result (λ r. code_of r.status ≡ 4) }
    ensures line { IfOk result (λ r. string_bytes r.line ≡ report.read_fault) }
{
    told(alloc, Status::ShelfFailed, "read fault\n")
}
