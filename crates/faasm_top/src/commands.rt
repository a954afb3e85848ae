//! What the program does.

ghost use Rattle.std.specs.Prelude.{◌≡◌, ℕ, ◌<◌, ◌≤◌, ◌≢◌, ◌⊎◌, List, [], Some, None, IsSome, IsTrue, IfOk, IfErr, false, length};
ghost use Rattle.std.specs.String.{string_bytes};
ghost use Rattle.fa_outside.specs.Faults.{Rose};
ghost use Rattle.fa_outside.specs.Files.{Files};
ghost use Rattle.faaslet_meaning.specs.Decoding.{first_passed};
ghost use Rattle.faaslet_meaning.specs.Words.{CommandOf};
ghost use Rattle.faasm_top.specs.Answers.{code_of, file_of, first_file_of, ReadsFile, IsDue, IsTraced, DueToModule, DueToCalls, WritesWhole, WritesPart, WritesPartOfTrace};
ghost use Rattle.faasm_top.specs.Commands.{HasShortInput, texts, command_of};
ghost use Rattle.faasm_top.specs.Dues.{status_now, DueSo};
ghost use Rattle.faasm_top.specs.Traced.{HasParts};

use crate::delivery::write_due;
use crate::due::Due;
use crate::module_files::{MODULE_LIMIT, read_valid};
use crate::outcomes::ended;
use crate::refusals::{undecoded, unfit};
use crate::report::{Report, Status, not_built, read_fault, usage, valid};
use crate::run::run;
use crate::trace::trace;
use crate::words::{Command, WordsFault, read_words};
use fa_outside::{ReadFault, Shelf, Sink, read_file};
use function_rules::fits;
use std::alloc::{AllocError, Global};
use wasm_decode::DecodeFault;
use wasm_validate::ValidModule;

/// Answers a call of a valid module.
fn call_module(
    alloc: Global,
    module: &ValidModule,
    input: &[u8],
    fuel: u64,
) -> Result<Report, AllocError>
    requires limits { first_passed «module».now ≡ None }
    requires few { length input.now ≤ 65536 }
    ensures due { IfOk result (λ r. DueToCalls «module».now input.now fuel
        (code_of r.status) (string_bytes r.line)) }
    ensures no_fault { IfOk result (λ r. code_of r.status ≢ 4) }
{
    if let Err(why) = fits(module) {
        return unfit(alloc, why);
    }
    let ran = run(alloc, module, input, fuel)?;
    ended(alloc, ran.outcome, &ran.output, ran.used)
}

/// Answers a command that reads a file with these bytes.
fn answer_module(alloc: Global, bytes: &[u8], command: &Command<'_>) -> Result<Report, AllocError>
    requires reads { file_of (command_of command.now) ≢ None }
    requires short { HasShortInput (command_of command.now) }
    ensures due { IfOk result (λ r. DueToModule (command_of command.now) bytes.now
        (code_of r.status) (string_bytes r.line)) }
    ensures no_fault { IfOk result (λ r. code_of r.status ≢ 4) }
{
    let module = match read_valid(alloc, bytes)? {
        Ok(module) => module,
        Err(report) => return Ok(report),
    };
    match command {
        Command::Call { input, fuel, .. } => {
            call_module(alloc, &module, input.as_slice(), *fuel)
        }
        _ => valid(alloc),
    }
}

/// Answers a command that reads no session.
fn answer_other<F: Shelf>(
    alloc: Global,
    shelf: &mut F,
    command: &Command<'_>,
) -> Result<Report, AllocError>
    requires no_session { first_file_of (command_of command.now) ≡ file_of (command_of command.now) }
    requires short { HasShortInput (command_of command.now) }
    ensures due { IfOk result (λ r. (words : List (List ℕ))
        → CommandOf (command_of command.now) words
        → IsDue words (F.told shelf.old) (F.faults shelf.old) (F.faults shelf.new)
        (code_of r.status) (string_bytes r.line)) }
    ensures untouched { first_file_of (command_of command.now) ≡ None → shelf.new ≡ shelf.old }
    ensures closed { IfOk result (λ r. code_of r.status ≡ 4 → F.is_open shelf.new ≡ false) }
    ensures ended { IfOk result (λ r. code_of r.status ≤ 1
        → IsSome (F.told shelf.old) → F.rest shelf.new ≡ []) }
    ensures left_open { IfOk result (λ r. first_file_of (command_of command.now) ≢ None
        → code_of r.status ≢ 4 → IsTrue (F.is_open shelf.new)) }
    ensures told { F.told shelf.new ≡ F.told shelf.old }
    ensures counted { F.faults shelf.old ≤ F.faults shelf.new }
{
    let Some(file) = command.file() else {
        return not_built(alloc);
    };
    let bytes = match read_file(alloc, shelf, file, MODULE_LIMIT) {
        Ok(bytes) => bytes,
        Err(ReadFault::Failed) => return read_fault(alloc),
        Err(ReadFault::TooLong) => return undecoded(alloc, DecodeFault::TooLong),
        Err(ReadFault::Want) => return Err(AllocError),
    };
    answer_module(alloc, &bytes, command)
}

/// What is due to a command.
fn answer_command<F: Shelf>(
    alloc: Global,
    shelf: &mut F,
    command: &Command<'_>,
) -> Result<Due, AllocError>
    requires { HasShortInput (command_of command.now) }
    ensures due { IfOk result (λ d. (words : List (List ℕ))
        → CommandOf (command_of command.now) words
        → DueSo words (F.told shelf.old) (F.faults shelf.old) (F.faults shelf.new) d) }
    ensures untouched { first_file_of (command_of command.now) ≡ None → shelf.new ≡ shelf.old }
    ensures closed { IfOk result (λ d. status_now d ≡ 4 → F.is_open shelf.new ≡ false) }
    ensures ended { IfOk result (λ d. status_now d ≤ 1
        → IsSome (F.told shelf.old) → F.rest shelf.new ≡ []) }
    ensures left_open { IfOk result (λ d. first_file_of (command_of command.now) ≢ None
        → status_now d ≢ 4 → IsTrue (F.is_open shelf.new)) }
    ensures told { F.told shelf.new ≡ F.told shelf.old }
    ensures counted { F.faults shelf.old ≤ F.faults shelf.new }
{
    match command {
        Command::Trace { file, seed } => trace(alloc, shelf, file, *seed),
        _ => Ok(Due::Line(answer_other(alloc, shelf, command)?)),
    }
}

/// What is due to the words.
fn answer_words<F: Shelf>(alloc: Global, shelf: &mut F, words: &[String]) -> Result<Due, AllocError>
    ensures due { IfOk result (λ d.
        DueSo (texts words.now) (F.told shelf.old) (F.faults shelf.old) (F.faults shelf.new) d) }
    ensures untouched { (ReadsFile (texts words.now) → ⊥) → shelf.new ≡ shelf.old }
    ensures closed { IfOk result (λ d. status_now d ≡ 4 → F.is_open shelf.new ≡ false) }
    ensures ended { IfOk result (λ d. status_now d ≤ 1
        → IsSome (F.told shelf.old) → F.rest shelf.new ≡ []) }
    ensures left_open { IfOk result (λ d. ReadsFile (texts words.now)
        → status_now d ≢ 4 → IsTrue (F.is_open shelf.new)) }
    ensures told { F.told shelf.new ≡ F.told shelf.old }
    ensures counted { F.faults shelf.old ≤ F.faults shelf.new }
{
    let command = match read_words(alloc, words) {
        Ok(command) => command,
        Err(WordsFault::Usage) => return Ok(Due::Line(usage(alloc)?)),
        Err(WordsFault::Want) => return Err(AllocError),
    };
    answer_command(alloc, shelf, &command)
}

/// Does what the words say, without the program's own name: it reads the files that they name,
/// writes one line, or the report of a session line by line, and answers the status.
pub fn answer<F: Shelf, O: Sink>(alloc: Global, words: &[String], shelf: &mut F, out: &mut O) -> u8
    ensures status { result ≤ 6 }

    // The text that is due, whole.
    ensures whole { result < 5 →
        WritesWhole (texts words.now) (F.told shelf.old) (F.faults shelf.old) (F.faults shelf.new)
        (O.written out.old) (O.written out.new) result }

    // The sink failed in that text.
    ensures part { result ≡ 5 →
        WritesPart (texts words.now) (F.told shelf.old) (F.faults shelf.old) (F.faults shelf.new)
        (O.written out.old) (O.written out.new) (F.is_open shelf.new) (F.rest shelf.new) }
    ensures cause { result ≡ 5 → Rose (O.faults out.old) (O.faults out.new) }
    ensures quiet { result ≢ 5 → O.faults out.new ≡ O.faults out.old }

    // There was no memory for it: nothing was written, or a part of the report of a trace.
    ensures want { result ≡ 6 → (out.new ≡ out.old)
        ⊎ WritesPartOfTrace (texts words.now) (F.told shelf.old)
        (O.written out.old) (O.written out.new) (F.is_open shelf.new) (F.rest shelf.new) }

    // What closed functions and keys have in a trace is what they come to where the others aren't there.
    ensures two_worlds { (status : ℕ) (text : List ℕ)
        (t : IsTraced (texts words.now) (F.told shelf.old) status text)
        → HasParts t.traces.plan t.traces.events text }

    // What it leaves of the shelf.
    ensures untouched { (ReadsFile (texts words.now) → ⊥) → shelf.new ≡ shelf.old }
    ensures closed { result ≡ 4 → F.is_open shelf.new ≡ false }
    ensures ended { result ≤ 1 → IsSome (F.told shelf.old) → F.rest shelf.new ≡ [] }
    ensures left_open { ReadsFile (texts words.now) → (result ≤ 1) ⊎ (result ≡ 3) → IsTrue (F.is_open shelf.new) }
    ensures told { F.told shelf.new ≡ F.told shelf.old }
    ensures shelf_counted { F.faults shelf.old ≤ F.faults shelf.new }
    ensures out_counted { O.faults out.old ≤ O.faults out.new }
{
    let due = match answer_words(alloc, shelf, words) {
        Ok(due) => due,
        Err(AllocError) => return Status::Want.code(),
    };
    write_due(alloc, &due, out).code()
}

/// Where the files are told and the shelf did not fail, at most one text, with one status, is due to
/// the words. The body is empty: what counts is what it ensures.
pub fn one_line()
    ensures { (words : List (List ℕ)) (files : Files) (before after s t : ℕ) (l m : List ℕ)
        → (Rose before after → ⊥)
        → IsDue words (Some files) before after s l → IsDue words (Some files) before after t m
        → (s ≡ t) × (l ≡ m) }
{}
