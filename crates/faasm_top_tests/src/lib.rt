//! Tests of whole commands, and of calls through the crates below them, in a crate of their own so that
//! the commands are not proved again below them.
#![tactic(auto)]

#[cfg(test)]
mod call_host_tests;
#[cfg(test)]
mod call_tests;
#[cfg(test)]
mod check_tests;
#[cfg(test)]
mod host_tests;
#[cfg(test)]
mod session_tests;
#[cfg(test)]
mod tests;
#[cfg(test)]
mod trace_tests;
#[cfg(test)]
mod word_tests;
