//! What the world of the code is as a value (`WorldValue`), which world of the definitions it is, and what holds of each
//! (`IsHeld`): the invariants of a world, exact counts of uses, and peer groups as the mounts have them.
//!
//! `overlays_kept` and `overlays_made` have laws of its overlays: what is kept of one shows the same whatever a call
//! changes, and a new one is what the definitions make.
#![tactic(auto)]

pub mod counting;
pub mod namespaces;
pub mod overlays_kept;
pub mod overlays_made;
