//! `MountTable`: what is listed.

use std::alloc::Global;
use vt_group::Groups;
use vt_mount::Mounts;
use vt_store::Store;

/// The mounts of all namespaces, with their peer groups and their filesystems, and where their lists are made.
#[derive(Clone, Copy, Debug)]
pub struct MountTable<'a> {
    pub alloc: Global,
    pub mounts: &'a Mounts,
    pub groups: &'a Groups,
    pub store: &'a Store,
}
