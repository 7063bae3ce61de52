//! The lines of a script, before it is run: one after the other, and whether a run takes them.
#![tactic(auto)]

pub mod answers;
pub mod lines;
pub mod proposal;
pub mod reached;
pub mod reading;
pub mod told;
