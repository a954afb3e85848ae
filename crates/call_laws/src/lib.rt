//! Laws over the definitions of one call that only upper layers need. The definitions that they add stand in
//! `specs/`.
#![tactic(auto)]

mod host_asks;

pub use host_asks::host_asks_are_carried;
