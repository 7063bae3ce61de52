//! Copy-up: what an overlay's upper layer lacks of an object and of the directories above it is copied there. A copy
//! is planned with all its memory, and then made where nothing may fail.
#![tactic(auto)]

mod copied;
mod forks;
mod laws;
mod planning;
mod plans;
mod unnamed;

pub use copied::{CopiedNode, FreeName};
pub use forks::{Fork, Forked};
pub use laws::{forks_are_ready, forks_make_copies, plans_make_copies, promises_are_given_back};
pub use planning::{Source, give_back, plan, promise};
pub use plans::{Plan, PlannedCopy};
pub use unnamed::{LowerObject, UnnamedPlan, plan_unnamed};
