//! What a call is permitted, or the first rule that refuses it: one table of rules for each call, over what a world
//! shows.
#![tactic(auto)]

mod attributes;
mod descriptors;
mod judging;
mod looking;
mod making;
mod mounting;
mod paths;
mod permit;
mod removing;
mod tasks;

pub use attributes::{chmod, chown};
pub use descriptors::{close, open, pread, pwrite};
pub use looking::{exec, list, lstat, read, readlink, stat};
pub use making::{link, mkdir, symlink, write};
pub use mounting::{bind, lazy, mount_plain, move_mount, pivot_root, remount, set_type, umount};
pub use permit::{Permit, judge};
pub use removing::{rename, rmdir, unlink};
pub use tasks::{chdir, chroot, fork, permission_bits, setns, unshare};
