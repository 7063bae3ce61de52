//! Tasks and their open files: credentials(7), fork(2), open(2).
#![tactic(auto)]

mod descriptors;
pub mod laws;
mod task;
mod tasks;

pub use descriptors::{Descriptors, MAX_DESCRIPTORS, OpenFile};
pub use task::{Left, MAX_DEPTH, MAX_FORKS, Task};
pub use tasks::Tasks;
