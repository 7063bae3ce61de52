//! A tree of inodes, as a finite map from their numbers that its calls change.

mod changes;
mod names;
mod paths;
mod slots;
mod trees;

pub use names::LinkRoom;
pub use trees::Tree;
