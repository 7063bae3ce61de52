//! Mounts that leave their namespaces, and mounts that are attached, over mounts and filesystems whose uses are counted.
#![tactic(auto)]

pub mod attach;
pub mod detach;
