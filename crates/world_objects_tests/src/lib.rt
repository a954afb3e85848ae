//! Tests of the objects of a world, in a crate of their own.
#![tactic(auto)]

#[cfg(test)]
mod steps;
#[cfg(test)]
mod suits;
