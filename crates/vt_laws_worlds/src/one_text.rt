//! Runs that keep the same world and give numbers of inodes out again.

pub mod answered;
pub mod in_use;
pub mod runs;
pub mod same;
