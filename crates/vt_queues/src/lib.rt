//! The queues in which the lines of a script wait for their turns: one of each task, and one of `!`.
#![tactic(auto)]

mod call_line;
mod item;
mod names;
mod queues;

pub use call_line::CallLine;
pub use item::{Item, Queued, Who};
pub use names::{first_named, named};
pub use queues::Queues;
