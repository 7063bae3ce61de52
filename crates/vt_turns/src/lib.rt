//! Calls in turns: a turn walks one word of the first call in a queue, or judges that call and acts.
#![tactic(auto)]

mod progress;
mod sched;
mod state;
mod walking;
mod world;

pub use progress::Numbers;
pub use sched::{Reply, Sched};
pub use vt_queues::{CallLine, Item, Queues, Who};
pub use world::TakesTurns;
