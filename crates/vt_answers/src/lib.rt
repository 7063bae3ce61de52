//! What answers the calls of tasks, and directives, as the policy does, as a trait: scripts are answered alike however
//! the world is kept.
#![tactic(auto)]

mod calls;
pub mod numbers;

pub use calls::Calls;
