//! A script in a file is run, in any world that answers calls. A fault names what failed, and gives the exit status.
#![tactic(auto)]

pub mod fault;
pub mod running;
