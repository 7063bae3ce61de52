//! `World`: filesystems, mounts, namespaces and tasks, and the events that change them.
#![tactic(auto)]

mod entering;
mod exits;
mod files;
mod forking;
mod grafting;
mod listing;
mod looking;
mod mount_binds;
mod mount_looks;
mod mount_moves;
mod mounting;
mod mounting_overlays;
mod opening;
mod opening_files;
mod pivoting;
mod reaching;
mod reading;
mod removing;
mod renaming;
mod retyping;
mod sealing;
mod showing;
mod tasks;
mod trees;
mod unmounting;
mod unsharing;
mod world;

pub use world::World;
