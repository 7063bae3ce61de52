//! Uses of mounts and of inodes, and mounts that leave their namespaces; what nothing uses any more goes.

pub mod detaching;
pub mod ending;
pub mod uses;
