//! Tests of `grant_registry`: each call on its usual path, and each refusal once. The answers were found by hand.
#![tactic(auto)]

#[cfg(test)]
mod entries;
#[cfg(test)]
mod modules;
