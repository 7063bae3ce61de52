//! Causes: why a rule refuses a call, or why tasks are not sealed off, as plain words with the objects, mounts and numbers
//! that stand in them. And what they are found in: the paths of a call, where these lead, and what tasks have.
#![tactic(auto)]

pub mod asked;
mod cause;
pub mod events;
mod uses;
mod walked;

pub use cause::{About, Cause, no_task};
pub use uses::{Held, Use, uses_in};
pub use walked::{MOST_LINKS, Walked, Walks};
