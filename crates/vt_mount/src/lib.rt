//! The mounts of all namespaces: mount_namespaces(7).
#![tactic(auto)]

mod ascending;
mod attaching;
mod changes;
mod indexes;
mod lists;
mod mounted;
mod mounts;
mod moving;
mod namespaces;
mod pivoting;
mod places;
mod standing;
mod trees;

pub use changes::Left;
pub use mounts::Mounts;
pub use moving::{Moved, NewPoint};
pub use places::Top;
