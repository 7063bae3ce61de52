//! What calls may change of tasks and inodes, by which rights, and which directories walks search.

pub mod effects;
pub mod inodes;
pub mod tasks;
pub mod ways;
