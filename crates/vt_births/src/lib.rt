//! What an overlay keeps beside its layers: whose copies the inodes of its upper layer are, and the nodes that have lost
//! their names while they are in use.
#![tactic(auto)]

mod births;
mod kept;
mod laws;
#[cfg(test)]
mod tests;
mod upper_nodes;

pub use births::Births;
pub use kept::Kept;
pub use laws::{nodes_above_are_apart, nodes_above_find_their_slots, numbers_above_are_by_births};
pub use upper_nodes::UpperNodes;
