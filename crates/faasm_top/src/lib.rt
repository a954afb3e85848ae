//! Commands: from the words to the line that is written and the status.
#![tactic(auto)]

mod commands;
mod delivery;
mod due;
mod finish;
mod module_files;
mod outcomes;
mod refusals;
mod report;
mod run;
mod session_lines;
mod session_modules;
mod stop;
mod trace;
mod tracing;
mod words;

pub use commands::{answer, one_line};
pub use report::Status;
pub use words::{Command, WordsFault, read_words};
