//! Which mounts are at a location, on a mount, on an inode and in a namespace.
ghost use Rattle.std.specs.Prelude.{IfOk, IfSome, Some, ◌≡◌, ◌≤◌, ◌&&◌, filter, find, is_some, length, map, nat_eq, not, option_map, true, unwrap_or, ℕ};
ghost use Rattle.std.specs.List.{list_any};
ghost use Rattle.vt_spec.specs.Lists.{holds_of};
ghost use Rattle.vt_spec.specs.Machine.Mounts.{child_at, children, root_of, stands_on, topmost};
ghost use Rattle.vt_location.specs.Locations.{location_of, number_of};
ghost use Rattle.vt_location.specs.Numbers.{mount_number, namespace_number};
ghost use Rattle.vt_mount.specs.Attached.{AreOf, attached_in};
ghost use Rattle.vt_mount.specs.MountsValue.{IsOnItsFilesystem, are_ascending, mounts_in, stands_over};

use crate::mounts::{Mounts, kept_under};
use crate::standing::{first_on, in_order};
use std::alloc::AllocError;
use vt_location::{Location, MountId, NamespaceId, NodeRef};

/// The topmost mount over a location.
#[derive(Clone, Copy, Debug)]
pub struct Top {
    /// The location of its root, a node of the filesystem that it shows.
    pub root: Location,
    /// Whether no mount stands on it.
    pub is_bare: bool,
}

impl Mounts {
    /// The mount at a location; of several, the one with the least number.
    #[inline(always)]
    pub fn child_at(&self, place: Location) -> Option<MountId>
        ensures child { option_map mount_number result
            ≡ option_map (λ child. child.number) (child_at nat_eq (mounts_in self.now) (location_of place)) }
        ensures order { are_ascending (mounts_in self.now) ≡ true }
    {
        first_on(self.indexes.by_inode.get(&place.node), place.mount)
    }

    /// The children of a mount, in the order of their numbers.
    #[inline(always)]
    pub fn children(&self, id: MountId) -> &[MountId]
        ensures children { map mount_number result.now
            ≡ map (λ child. child.number) (children nat_eq (mounts_in self.now) (mount_number id)) }
        ensures order { are_ascending (mounts_in self.now) ≡ true }
    {
        self.indexes.by_parent.get(&id)
    }

    /// Whether a mount has a child: EBUSY of umount(2).
    pub fn has_child(&self, id: MountId) -> bool
        ensures { result ≡ list_any (stands_on nat_eq (mount_number id)) (mounts_in self.now) }
    {
        !self.children(id).is_empty()
    }

    /// The root of the topmost mount over a location, or the location itself.
    #[inline(always)]
    pub fn topmost(&self, place: Location) -> Location
        ensures { location_of result ≡ topmost nat_eq (mounts_in self.now) (location_of place) }
    {
        match self.top_over(place) {
            Some(top) => top.root,
            None => place,
        }
    }

    /// The topmost mount over a location; `None` if no mount stands there.
    #[inline(always)]
    pub fn top_over(&self, place: Location) -> Option<Top>
        ensures some { is_some result
            ≡ is_some (child_at nat_eq (mounts_in self.now) (location_of place)) }
        ensures root { unwrap_or (option_map (λ top. location_of top.root) result) (location_of place)
            ≡ topmost nat_eq (mounts_in self.now) (location_of place) }
        ensures shown { IfSome result (λ top. IsOnItsFilesystem (mounts_in self.now) top.root) }
        ensures bare { IfSome result (λ top. top.is_bare
            ≡ not (list_any (stands_on nat_eq (mount_number top.root.mount)) (mounts_in self.now))) }
    {
        match self.root_over(place) {
            Some(root) => Some(self.top_from(place, root)),
            None => None,
        }
    }

    // The topmost mount over a location, from the root of the mount that stands there. It is a call of its own, so that
    // a walk past no mount stays small. Mostly no other mount stands on that one, at its root or elsewhere.
    #[inline(never)]
    fn top_from(&self, place: Location, root: Location) -> Top
        requires over { option_map root_of (child_at nat_eq (mounts_in self.now) (location_of place))
            ≡ Some (location_of root) }
        requires shown { IsOnItsFilesystem (mounts_in self.now) root }
        ensures root { location_of result.root ≡ topmost nat_eq (mounts_in self.now) (location_of place) }
        ensures shown { IsOnItsFilesystem (mounts_in self.now) result.root }
        ensures bare { result.is_bare
            ≡ not (list_any (stands_on nat_eq (mount_number result.root.mount)) (mounts_in self.now)) }
    {
        let mut here = root;
        for _ in 1..self.len() {
            if !self.has_child(here.mount) {
                return Top {
                    root: here,
                    is_bare: true,
                };
            }
            let Some(root) = self.root_over(here) else {
                return Top {
                    root: here,
                    is_bare: false,
                };
            };
            here = root;
        }
        Top {
            root: here,
            is_bare: !self.has_child(here.mount),
        }
    }

    // The root of the mount that stands at a location.
    #[inline(always)]
    fn root_over(&self, place: Location) -> Option<Location>
        ensures root { option_map location_of result
            ≡ option_map root_of (child_at nat_eq (mounts_in self.now) (location_of place)) }
        ensures shown { IfSome result (λ root. IsOnItsFilesystem (mounts_in self.now) root) }
    {
        let child = self.child_at(place)?;
        let kept = kept_under(&self.by_number, child)?;
        Some(Location {
            mount: child,
            node: kept.root,
        })
    }

    /// The mounts on an inode, through whatever mount it is seen, in the order of their numbers.
    pub fn mounts_on(&self, inode: NodeRef) -> Result<Vec<MountId>, AllocError>
        ensures { IfOk result (λ ids. map mount_number ids.items
            ≡ map (λ mount. mount.number) (filter (stands_over (number_of inode)) (mounts_in self.now))) }
    {
        in_order(self.alloc(), self.indexes.by_inode.get(&inode))
    }

    /// Whether a mount stands on an inode, through whatever mount it is seen, beside this one.
    pub fn has_others_on(&self, inode: NodeRef, mount: MountId) -> bool
        ensures others { result ≡ list_any (λ other. stands_over (number_of inode) other
            && not (nat_eq (mount_number mount) other.number)) (mounts_in self.now) }
        ensures order { are_ascending (mounts_in self.now) ≡ true }
    {
        self.indexes
            .by_inode
            .get(&inode)
            .iter()
            .any(|one| mount != one.mount)
    }

    /// Whether an inode is a mount point in this namespace, through whatever mount it is seen: EBUSY of rmdir(2).
    pub fn is_mount_point_in(&self, namespace: NamespaceId, inode: NodeRef) -> bool
        ensures { result
            ≡ list_any (λ mount. stands_over (number_of inode) mount
            && holds_of (nat_eq (namespace_number namespace)) mount.namespace)
            (mounts_in self.now) }
    {
        self.indexes
            .by_inode
            .get(&inode)
            .iter()
            .any(|one| self.is_in(one.mount, namespace))
    }

    /// Whether an inode is a mount point in any namespace, through whatever mount it is seen: EBUSY of rename(2).
    pub fn is_mount_point_anywhere(&self, inode: NodeRef) -> bool
        ensures { result ≡ list_any (λ mount. stands_over (number_of inode) mount && is_some mount.namespace)
            (mounts_in self.now) }
    {
        self.indexes
            .by_inode
            .get(&inode)
            .iter()
            .any(|one| self.is_attached(one.mount))
    }

    // Whether a mount is attached in this namespace.
    fn is_in(&self, id: MountId, namespace: NamespaceId) -> bool
        ensures { result ≡ holds_of (λ mount. holds_of (nat_eq (namespace_number namespace)) mount.namespace)
            (find (λ mount. nat_eq (mount_number id) mount.number) (mounts_in self.now)) }
    {
        match self.get(id) {
            Some(mount) => mount.namespace == Some(namespace),
            None => false,
        }
    }

    // Whether a mount is attached in any namespace.
    fn is_attached(&self, id: MountId) -> bool
        ensures { result
            ≡ holds_of (λ mount. is_some mount.namespace)
            (find (λ mount. nat_eq (mount_number id) mount.number) (mounts_in self.now)) }
    {
        match self.get(id) {
            Some(mount) => mount.namespace.is_some(),
            None => false,
        }
    }

    /// The mounts that are attached in a namespace, in the order of their numbers.
    pub fn attached_in(&self, namespace: NamespaceId) -> &[MountId]
        ensures are { AreOf result.now (attached_in (namespace_number namespace) self.now) }
        ensures order { are_ascending (mounts_in self.now) ≡ true }
    {
        self.indexes.by_namespace.get(namespace)
    }

    /// The most mounts that a namespace has had: none has more.
    pub fn most_in_namespace(&self) -> usize
        ensures { (namespace : ℕ) → length (attached_in namespace self.now) ≤ result }
    {
        self.indexes.by_namespace.most()
    }
}
