//! Linear memory in segments: private pages, and replicas mapped between them.
#![tactic(auto)]

mod segmented;
mod segments;

pub use private_pages::{Image, PrivatePages};
pub use segmented::SegmentedMemory;

#[cfg(test)]
mod tests;
