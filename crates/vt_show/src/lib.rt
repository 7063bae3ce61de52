//! The world that a script leads to, shown to people: tasks, mounts, peer groups and trees.
#![tactic(auto)]

pub mod cells;
pub mod columns;
mod graph;
pub mod mounts;
pub mod names;
pub mod overlays;
pub mod picture;
pub mod places;
pub mod show;
pub mod tasks;
pub mod tree_walk;
mod trees;
