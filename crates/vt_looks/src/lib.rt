//! What walks and rules look at in a world, as a trait: they are the same however the state is kept. And the places
//! where walks end, which the rules are asked of.
#![tactic(auto)]

mod asked;
mod look;
mod places;

pub use asked::Asked;
pub use look::{Entered, Entry, Ground, Look, LookAtMounts};
pub use places::{LastWord, OldPlace, Place};
