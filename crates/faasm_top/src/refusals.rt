//! The lines of modules that are refused.

ghost use Rattle.std.specs.Prelude.{◌≡◌, Some, IfOk};
ghost use Rattle.std.specs.String.{string_bytes};
ghost use Rattle.faaslet_meaning.specs.Report as report;
ghost use Rattle.wasm_decode.specs.Decoded.{limit_of};
ghost use Rattle.faasm_top.specs.Answers.{code_of};
ghost use Rattle.function_rules.specs.Reasons.{reason_of};
ghost use Rattle.faasm_top.specs.Refusals.{undecoded_line, invalid_line, unfit_line};

use crate::report::{Report, Status, told};
use function_rules::Unfit;
use std::alloc::{AllocError, Global};
use wasm_decode::{DecodeFault, Which};
use wasm_validate::Invalid;

fn limit_text(which: Which) -> &'static str
    ensures { result.now ≡ report.limit (limit_of which) }
{
    match which {
        Which::Params => "limit params\n",
        Which::Locals => "limit locals\n",
        Which::Table => "limit table\n",
        Which::Globals => "limit globals\n",
    }
}

fn undecoded_text(fault: DecodeFault) -> Result<&'static str, AllocError>
    ensures { IfOk result (λ t. undecoded_line fault ≡ Some t.now) }
{
    match fault {
        DecodeFault::TooLong => Ok("too long\n"),
        DecodeFault::Malformed => Ok("malformed\n"),
        DecodeFault::Float => Ok("float\n"),
        DecodeFault::Limit(which) => Ok(limit_text(which)),
        DecodeFault::Want => Err(AllocError),
    }
}

/// A file that holds no module, or one that is not taken.
pub fn undecoded(alloc: Global, fault: DecodeFault) -> Result<Report, AllocError>
    ensures status { IfOk result (λ r. code_of r.status ≡ 3) }
    ensures line { IfOk result (λ r. undecoded_line fault ≡ Some (string_bytes r.line)) }
{
    let text = undecoded_text(fault)?;
    told(alloc, Status::Refused, text)
}

fn function_line(alloc: Global, k: u32) -> Result<String, AllocError>
    ensures { IfOk result (λ l. string_bytes l ≡ report.invalid_function k) }
{
    format!(in alloc; "invalid function {k}\n")
}

/// A module that does not keep the rules.
pub fn invalid(alloc: Global, fault: Invalid) -> Result<Report, AllocError>
    ensures status { IfOk result (λ r. code_of r.status ≡ 3) }
    ensures line { IfOk result (λ r. invalid_line fault ≡ Some (string_bytes r.line)) }
{
    match fault {
        Invalid::Module => told(alloc, Status::Refused, "invalid module\n"),
        Invalid::Function(k) => Ok(Report {
            status: Status::Refused,
            line: function_line(alloc, k)?,
        }),
        Invalid::Want => Err(AllocError),
    }
}

fn import_line(alloc: Global, k: u32) -> Result<String, AllocError>
    ensures { IfOk result (λ l. string_bytes l ≡ report.bad_import k) }
{
    format!(in alloc; "bad import {k}\n")
}

/// A valid module that a function may not have.
pub fn unfit(alloc: Global, why: Unfit) -> Result<Report, AllocError>
    ensures status { IfOk result (λ r. code_of r.status ≡ 3) }
    ensures line { IfOk result (λ r. string_bytes r.line ≡ unfit_line (reason_of why)) }
{
    match why {
        Unfit::BadImport(k) => Ok(Report {
            status: Status::Refused,
            line: import_line(alloc, k)?,
        }),
        Unfit::NoMain => told(alloc, Status::Refused, "no main\n"),
        Unfit::BadInit => told(alloc, Status::Refused, "bad init\n"),
    }
}
