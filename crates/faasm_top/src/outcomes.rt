//! The lines of calls.

ghost use Rattle.std.specs.Prelude.{◌≡◌, IfOk};
ghost use Rattle.std.specs.String.{string_bytes};
ghost use Rattle.faaslet_meaning.specs.Report as report;
ghost use Rattle.faasm_top.specs.Answers.{code_of, status_of};

use crate::report::{Report, Status};
use faaslet_meaning::Outcome;
use session_report::call_line;
use std::alloc::{AllocError, Global};

fn outcome_status(outcome: Outcome) -> Status
    ensures { code_of result ≡ status_of outcome }
{
    match outcome {
        Outcome::Done(_) => Status::Done,
        _ => Status::NotDone,
    }
}

/// What a call came to, with its output and the fuel that it used.
pub fn ended(
    alloc: Global,
    outcome: Outcome,
    output: &[u8],
    used: u64,
) -> Result<Report, AllocError>
    ensures status { IfOk result (λ r. code_of r.status ≡ status_of outcome) }
    ensures line { IfOk result (λ r. string_bytes r.line ≡ report.call_line outcome output.now used) }
{
    Ok(Report {
        status: outcome_status(outcome),
        line: call_line(alloc, outcome, used, output)?,
    })
}
