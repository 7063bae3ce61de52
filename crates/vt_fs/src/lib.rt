//! The plain filesystems: each is a tree of inodes in slots of its own, and the layers above see the numbers of inodes.
#![tactic(auto)]

mod filesystems;
mod laws;
mod paths;
mod promised;
mod tree;

pub use filesystems::Filesystems;
pub use laws::{filesystems_are_found, numbers_are_those_of_inodes, trees_name_parents};
pub use tree::{LinkRoom, Tree};
