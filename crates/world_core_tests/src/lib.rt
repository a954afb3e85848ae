//! Tests of the numbers of a seed, of what is offered, and of sessions over events, in a crate of their own.
#![tactic(auto)]

#[cfg(test)]
mod floors;
#[cfg(test)]
mod generators;
#[cfg(test)]
mod modules;
#[cfg(test)]
mod scripts;
#[cfg(test)]
mod sessions;
#[cfg(test)]
mod stories;
#[cfg(test)]
mod traces;
