//! Tests of `session_file`: session texts with their answers, which were found by hand.
#![tactic(auto)]

#[cfg(test)]
mod accepted;
#[cfg(test)]
mod refused;
#[cfg(test)]
mod sessions;
#[cfg(test)]
mod texts;
