//! Runs of a program that keeps its world but for change numbers and the order of numbers beside trees (`SameWorlds`),
//! and gives numbers of inodes out again. Calls are plain.

pub mod answered;
pub mod handed;
pub mod runs;
