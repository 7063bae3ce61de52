//! What is kept of a mount under its number.
ghost use Rattle.std.specs.Prelude.{◌≡◌, ◌&&◌, nat_lt, true};
ghost use Rattle.vt_mount.specs.MountsValue.{held_kept, mount_kept, released_kept};

use vt_cred::MountFlags;
use vt_location::{Location, Mount, MountId, NamespaceId, NodeRef, Propagation};

/// A mount without its number, and what uses it.
#[derive(Clone, Copy, Debug, PartialEq, Eq)]
pub(crate) struct Mounted {
    pub(crate) namespace: Option<NamespaceId>,
    pub(crate) mount_point: Option<Location>,
    pub(crate) root: NodeRef,
    pub(crate) flags: MountFlags,
    pub(crate) propagation: Propagation,
    /// How many roots, working directories and descriptors are on it.
    pub(crate) uses: u64,
    /// How many descriptors that are open for writing are on it.
    pub(crate) writers: u64,
}

impl Mounted {
    /// A mount that nothing uses yet.
    pub(crate) fn unused(mount: &Mount) -> Self
        ensures mount { mount_kept mount.now.number result ≡ mount.now }
        ensures uses { result.uses ≡ 0 }
        ensures writers { result.writers ≡ 0 }
    {
        Mounted {
            namespace: mount.namespace,
            mount_point: mount.mount_point,
            root: mount.root,
            flags: mount.flags,
            propagation: mount.propagation,
            uses: 0,
            writers: 0,
        }
    }

    /// The mount, with its number.
    #[inline(always)]
    pub(crate) fn mount(&self, number: MountId) -> Mount
        ensures { result ≡ mount_kept number self.now }
    {
        Mount {
            number,
            namespace: self.namespace,
            mount_point: self.mount_point,
            root: self.root,
            flags: self.flags,
            propagation: self.propagation,
        }
    }

    /// Whether one more use may be counted.
    pub(crate) fn has_room(&self) -> bool
        ensures { result ≡ (nat_lt self.now.uses u64.MAX && nat_lt self.now.writers u64.MAX) }
    {
        self.uses < u64::MAX && self.writers < u64::MAX
    }

    /// Counts a use, which is open for writing or not.
    pub(crate) fn hold(&mut self, writes: bool)
        requires { (nat_lt self.old.uses u64.MAX && nat_lt self.old.writers u64.MAX) ≡ true }
        ensures { self.new ≡ held_kept writes self.old }
    {
        self.uses += 1;
        self.writers += u64::from(writes);
    }

    /// Takes back a counted use; a count of 0 stays 0.
    pub(crate) fn release(&mut self, writes: bool)
        ensures { self.new ≡ released_kept writes self.old }
    {
        self.uses = self.uses.saturating_sub(1);
        self.writers = self.writers.saturating_sub(u64::from(writes));
    }
}
