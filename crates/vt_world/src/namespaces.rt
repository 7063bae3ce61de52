//! The mount namespaces: mount_namespaces(7).

/// A mount namespace. Its mounts are listed with the mounts, and its root mount is the one of them without a mount
/// point.
#[derive(Clone, Copy, Debug, PartialEq, Eq)]
pub struct Namespace {
    /// How many tasks are in it.
    pub tasks: u64,
}
