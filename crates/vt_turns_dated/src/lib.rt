//! A kernel with its change numbers, whose tasks make calls in turns.
#![tactic(auto)]

mod kernel;

pub use kernel::TurnKernel;
