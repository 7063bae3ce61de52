//! Calls of members on files and names through overlays.

pub mod each_call;
pub mod names;
