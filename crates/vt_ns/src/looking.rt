//! The world, as walks and rules look at it.
ghost use Rattle.std.specs.Prelude.{◌≡◌, IfSome, None, Some, nat_eq, option_copied, option_map, true};
ghost use Rattle.vt_cred.specs.Rights.{right_bits};
ghost use Rattle.vt_spec.specs.Machine.Rightful.{node_allows};
ghost use Rattle.vt_spec.specs.Machine.World.{mount_numbered};
ghost use Rattle.vt_location.specs.Numbers.{filesystem_number, mount_number};
ghost use Rattle.vt_mounting.specs.Detach.Looking.{is_seen, looks_of_value};
ghost use Rattle.vt_store.specs.StoreValue.{layered_in};
ghost use Rattle.vt_ns.specs.Mounters.{mounter_on};
ghost use Rattle.vt_world.specs.Held.{IsHeld};
ghost use Rattle.vt_world.specs.WorldValue.{world_of};

use crate::world::World;
use vt_cred::{Cred, Rights, allows};
use vt_layered::Layered;
use vt_location::{FilesystemId, Location, Mount, MountId, NamespaceId, NodeRef};
use vt_looks::{Asked, Entered, Entry, Ground, Look};
use vt_node::Node;
use vt_request::TaskName;
use vt_spec::errors::Deny;
use vt_store::Store;

impl World {
    /// The filesystem that a mount shows. A number that no mount has stands for a mount of the filesystem with that
    /// number.
    #[inline(always)]
    pub(crate) fn shown(&self, mount: MountId) -> FilesystemId
        ensures { filesystem_number result ≡ (mount_numbered nat_eq (world_of self.now) (mount_number mount)).filesystem }
    {
        match self.mounts.get(mount) {
            Some(mount) => mount.root.filesystem,
            None => FilesystemId::new(mount.count),
        }
    }

    // Whether an inode is in the filesystem that the mount of a location shows.
    #[inline(always)]
    pub(crate) fn is_seen(&self, at: Location) -> bool
        ensures { result ≡ is_seen self.now at }
    {
        self.shown(at.mount) == at.node.filesystem
    }

    // The overlay that a mount shows, if it shows one. Where there are none, the mount is not looked for.
    #[inline(always)]
    pub(crate) fn overlay_on(&self, mount: MountId) -> Option<&Layered>
        ensures mounter { option_map (λ layered. layered.overlay.mounter) (option_copied result)
            ≡ mounter_on (world_of self.now) (mount_number mount) }
        ensures held { IsHeld self.now }
    {
        if self.store.has_overlays() {
            self.store.overlay(self.shown(mount))
        } else {
            None
        }
    }
}

impl Look for World {
    ghost use Rattle.vt_ns.specs.Lent.{lent_alike, real_of_value};
    ghost use Rattle.vt_spec.specs.Machine.World.{mount_at};
    ghost use Rattle.vt_world.specs.Lent.{lent_of_world};

    ghost looks = { looks_of_value };

    ghost real = { real_of_value };

    ghost alike = { λ here at. lent_alike ((looks_of_value here).node at)
        (lent_of_world (world_of here) (mount_at nat_eq (world_of here) at).filesystem at.node) };

    fn namespace_called(&self, name: &TaskName) -> Option<NamespaceId> {
        self.tasks.namespace_called(name)
    }

    #[inline(always)]
    fn mount(&self, id: MountId) -> Option<Mount> {
        self.mounts.get(id)
    }

    fn mount_count(&self) -> usize {
        self.mounts.len()
    }

    #[inline(always)]
    fn topmost(&self, at: Location) -> Location {
        self.mounts.topmost(at)
    }

    #[inline(always)]
    fn entered(&self, at: Location) -> Option<Entered> {
        let top = self.mounts.top_over(at)?;
        Some(Entered {
            root: top.root,
            ground: Ground {
                filesystem: top.root.node.filesystem,
                is_bare: top.is_bare,
            },
        })
    }

    fn is_mount_point_in(&self, namespace: NamespaceId, at: Location) -> bool {
        self.is_seen(at) && self.mounts.is_mount_point_in(namespace, at.node)
    }

    fn is_mount_point_anywhere(&self, at: Location) -> bool {
        self.is_seen(at) && self.mounts.is_mount_point_anywhere(at.node)
    }

    #[inline(always)]
    fn node(&self, at: Location) -> Option<&Node> {
        if self.is_seen(at) {
            self.store.object(at.node)
        } else {
            None
        }
    }

    #[inline(always)]
    fn entry(&self, at: Location, object: &Node, name: &[u8]) -> Option<Entry<'_>> {
        let found = self.store.entry(at.node, object, name)?;
        Some(Entry {
            node: found.node,
            object: found.object,
        })
    }

    fn is_nonempty(&self, at: Location) -> bool {
        self.is_seen(at) && self.store.is_nonempty(at.node)
    }

    fn parent(&self, at: Location) -> NodeRef {
        if !self.is_seen(at) {
            at.node
        } else {
            self.store.parent(at.node)
        }
    }

    #[inline(always)]
    fn ground(&self, mount: MountId) -> Ground {
        Ground {
            filesystem: self.shown(mount),
            is_bare: !self.mounts.has_child(mount),
        }
    }

    #[inline(always)]
    fn node_on(&self, ground: Ground, at: Location) -> Option<&Node> {
        if ground.filesystem == at.node.filesystem {
            self.store.object(at.node)
        } else {
            None
        }
    }

    #[inline(always)]
    fn is_removed(&self, at: Location) -> bool {
        !self.is_seen(at) || self.store.is_removed(at.node)
    }

    fn is_under(&self, top: Location, directory: NodeRef) -> bool {
        if self.is_seen(top) && directory.filesystem == top.node.filesystem {
            self.store.is_under(top.node, directory)
        } else {
            top.node.is_same(directory)
        }
    }

    fn is_lost(&self, at: Location) -> bool {
        match self.mounts.get(at.mount) {
            Some(mount) if mount.root.filesystem == at.node.filesystem => {
                self.store.is_lost(mount.root, at.node)
            }
            _ => true,
        }
    }

    fn is_overlay(&self, at: Location) -> bool {
        self.overlay_on(at.mount).is_some()
    }

    // No overlay has an upper layer, since no call mounts such a one: each is read-only, and all its objects are in
    // lower layers.

    fn has_no_upper(&self, at: Location) -> bool {
        self.overlay_on(at.mount).is_some()
    }

    fn is_only_below(&self, at: Location) -> bool {
        self.overlay_on(at.mount).is_some()
    }

    fn mounter_may(&self, at: Location, wanted: Rights) -> bool {
        match self.overlay_on(at.mount) {
            Some(overlay) => grants(overlay.mounter(), self.node(at), wanted),
            None => true,
        }
    }

    #[inline(always)]
    fn mounter_may_on(&self, ground: Ground, _at: Location, object: &Node, wanted: Rights) -> bool {
        !self.store.has_overlays() || mounter_grants(&self.store, ground.filesystem, object, wanted)
    }

    fn is_locked(&self, at: Location) -> bool {
        if !self.store.has_overlays() {
            return false;
        }
        match at.node.plain() {
            Some(inode) if self.is_seen(at) => self.store.is_in_layer(inode),
            _ => false,
        }
    }

    // These two are asked of what has an upper layer, if it is an overlay: so of plain trees. A proof knows what holds of
    // the world only where a field of it is read.

    fn has_lower_directory(&self, _at: Location, _name: &[u8]) -> bool {
        let _ = &self.store;
        false
    }

    fn mounter_may_change(&self, _at: Location, _asked: Asked) -> Result<(), Deny> {
        let _ = &self.store;
        Ok(())
    }
}

// Whether these credentials grant rights on an object, which nobody has on what is not there.
#[inline(always)]
fn grants(who: &Cred, object: Option<&Node>, wanted: Rights) -> bool
    ensures { result ≡ node_allows who.now (right_bits wanted) (option_copied object.entry) }
{
    match object {
        Some(node) => allows(who, &node.attr(), node.kind(), wanted),
        None => false,
    }
}

// Whether the mounter of a filesystem, if it is an overlay, has rights on an object. It is a call of its own, so that
// walks on plain trees stay small.
#[inline(never)]
fn mounter_grants(store: &Store, filesystem: FilesystemId, object: &Node, wanted: Rights) -> bool
    ensures overlay { IfSome (layered_in store.now filesystem.count) (λ layered.
        result ≡ node_allows layered.overlay.mounter (right_bits wanted) (Some object.now)) }
    ensures plain { layered_in store.now filesystem.count ≡ None → result ≡ true }
{
    match store.overlay(filesystem) {
        Some(overlay) => grants(overlay.mounter(), Some(object), wanted),
        None => true,
    }
}
