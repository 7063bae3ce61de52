//! Where a script comes from, where its answers go, and the line that is being read.
#![tactic(auto)]

pub mod adapters;
pub mod input;
pub mod line;
pub mod memory;
pub mod output;
pub mod writing;
