//! Calls of members that detach mounts.

pub mod lazily;
pub mod removals;
