//! Tests of the lines of sessions and of single calls, in a crate of their own.
#![tactic(auto)]

#[cfg(test)]
mod calls;
#[cfg(test)]
mod sample;
#[cfg(test)]
mod sessions;
