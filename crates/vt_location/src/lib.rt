//! Mounts, and the locations that are seen through them: a node of a filesystem, through a mount.
#![tactic(auto)]

mod births;
mod laws;
mod locations;
mod mounts;
mod numbers;

pub use births::Birth;
pub use laws::numbers_are_one_to_one;
pub use locations::{InodeRef, Location, NodeRef};
pub use mounts::{Mount, Propagation};
pub use numbers::{FilesystemId, GroupId, MountId, NamespaceId};
