//! The calls of tasks: checked against the policy, then applied.
#![tactic(auto)]

mod answers;
mod applying;
mod calls;
mod descriptors;
mod files;
mod looking;
mod making;
mod mounting;
mod removing;
mod tasks;

pub use calls::Kernel;
pub use vt_answers::Calls;
