//! The program `faasm`: real files, real output, and `answer` between them.
#![tactic(auto)]

mod edge;

ghost use Rattle.std.specs.Prelude.{◌≡◌, ℕ, ◌<◌, ◌≤◌, List, None};
ghost use Rattle.std.specs.Process.{exit_status};
ghost use Rattle.faasm_top.specs.Answers.{IsDue};
ghost use Rattle.faasm_top.specs.Commands.{texts};

use edge::{FileShelf, OutSink};
use faasm_top::{Status, answer};
use std::env::Env;
use std::fs::Files;
use std::io::{ErrorKind, Print};
use std::process::ExitCode;
use std::{env, io};

/// The words without the program's own name.
fn words(rt: &(impl Env + AllocGlobal)) -> io::Result<Vec<String>> {
    let words = env::args(rt)?.skip(1).collect(rt.alloc())?;
    Ok(words)
}

/// Answers the words over real files and standard output, and ends with the status of the line.
fn run<R: Files + Print + AllocGlobal>(rt: &R, words: &[String]) -> ExitCode
    ensures status { exit_status result ≤ 6 }

    // The files tell no content, so of a file that was read the same holds of some bytes.
    ensures due { exit_status result < 5 → (faults : ℕ) × (line : List ℕ)
        × IsDue (texts words.now) None 0 faults (exit_status result) line }
{
    let mut shelf = FileShelf::new(rt);
    let mut out = OutSink::new(rt);
    ExitCode::from(answer(rt.alloc(), words, &mut shelf, &mut out))
}

fn main(rt: HostRuntime) -> ExitCode {
    match words(&rt) {
        Ok(words) => run(&rt, &words),
        Err(e) if e.kind() == ErrorKind::OutOfMemory => ExitCode::from(Status::Want.code()),
        // A word that is not UTF-8 is no command, as no words are.
        Err(_) => run(&rt, &[]),
    }
}
