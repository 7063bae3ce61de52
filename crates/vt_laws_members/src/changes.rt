//! Calls of members by what they change.

pub mod files;
pub mod letting_go;
pub mod looks;
pub mod mounts;
pub mod names;
pub mod overlays;
pub mod part;
pub mod tasks;
