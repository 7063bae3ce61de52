//! `Overlays`: the overlays by their numbers, how many mounts show each, and where their layers are.
ghost use Rattle.std.specs.Prelude.{◌≡◌, ◌<◌, ◌+◌, ◌-◌, ◌^◌, ◌++◌, ◌∷◌, ◌↔◌, [], IfSome, IsErr, OnErr, OnOk, nat_eq, nat_lt, option_copied, option_map, true};
ghost use Rattle.std.specs.List.{list_all, list_any};
ghost use Rattle.std.specs.Map.{lookup};
ghost use Rattle.vt_location.specs.Numbers.{most_counted};
ghost use Rattle.vt_location.specs.Locations.{inode_of};
ghost use Rattle.vt_fs.specs.FilesystemsValue.{files_at};
ghost use Rattle.vt_fs.specs.Laws.{ParentsAreNamed};
ghost use Rattle.vt_spec.specs.Lists.{holds_of};
ghost use Rattle.vt_layered.specs.LayeredValue.{KeepsItsOwn};
ghost use Rattle.vt_layered.specs.Pins.{IsPinned, IsUnpinned};
ghost use Rattle.vt_store.specs.Numbered.{AreNotOlder};

use crate::layer_counts::LayerCounts;
use indexmap::IndexMap;
use std::alloc::{AllocError, Global};
use std::marker::Model;
use vt_cred::Cred;
use vt_fs::Filesystems;
use vt_layered::Layered;
use vt_location::{FilesystemId, InodeRef, NodeRef};
use vt_overlay::{LayerRef, Overlay};

// An overlay, and how many mounts show it.
#[derive(Debug, Drop)]
struct KeptOverlay {
    overlay: Layered,
    mounts: u64,
}

/// The overlays, each under its own number. They are kept by hash, in no order. Their layers are counted by directory,
/// so that whether a directory is in a layer costs a look-up for each directory above it, however many overlays there are.
#[derive(Debug, Drop)]
pub(crate) struct Overlays {
    by_number: IndexMap<FilesystemId, KeptOverlay>,
    layers: LayerCounts,
    // No overlay has a smaller number.
    oldest: u64,
}

// The overlay of a number. Mostly a filesystem is looked at that is older than all overlays, and then no hash is taken.
#[inline(always)]
fn found_under(
    by_number: &IndexMap<FilesystemId, KeptOverlay>,
    oldest: u64,
    id: FilesystemId,
) -> Option<&KeptOverlay>
    requires { AreNotOlder oldest by_number.now.entries }
    ensures { option_copied result ≡ lookup (λ other. nat_eq id.count other.count) by_number.now.entries }
{
    if id.count < oldest {
        None
    } else {
        found_by_hash(by_number, id)
    }
}

// The same of a filesystem that may be an overlay. It is a call of its own, so that looks at plain trees stay small.
// Mostly there is one overlay: the first one is compared before a hash is taken.
#[inline(never)]
fn found_by_hash(
    by_number: &IndexMap<FilesystemId, KeptOverlay>,
    id: FilesystemId,
) -> Option<&KeptOverlay>
    ensures { option_copied result ≡ lookup (λ other. nat_eq id.count other.count) by_number.now.entries }
{
    match by_number.first() {
        Some((first, found)) if *first == id => Some(found),
        _ => by_number.get(&id),
    }
}

impl Model for Overlays {
    ghost use Rattle.vt_store.specs.OverlaysValue.{AreKept, Overlays as Entries, kept_overlays};

    ghost Value = { Entries };

    ghost view = { λ overlays. kept_overlays overlays.by_number.entries };

    ghost invariant = { λ overlays. AreKept overlays.by_number.entries overlays.layers overlays.oldest };
}

impl Overlays {
    ghost use Rattle.vt_store.specs.LayersHeld.{new_overlay};
    ghost use Rattle.vt_store.specs.Named.{NameEach, NameEntries};
    ghost use Rattle.vt_store.specs.Locks.{directory_lies_in_overlay, keeps_in, overlay_stands_in};
    ghost use Rattle.vt_store.specs.OverlaysValue.{entry_kept, layered_of, with_overlay_changed, without_overlay};
    ghost use Rattle.vt_store.specs.Pins.{ChangesOverlay, kept_let_go, uses_kept};

    /// No overlays. It does not allocate.
    pub fn new(alloc: Global) -> Self
        ensures { result ≡ [] }
    {
        Overlays {
            by_number: IndexMap::new(alloc),
            layers: LayerCounts::new(alloc),
            oldest: u64::MAX,
        }
    }

    /// Whether there are none.
    #[inline(always)]
    pub fn is_empty(&self) -> bool
        ensures { (result ≡ true) ↔ (self.now ≡ []) }
    {
        self.by_number.is_empty()
    }

    /// The numbers of all, in no order.
    pub fn ids(&self) -> &[FilesystemId]
        ensures overlays { NameEach result.now self.now }
        ensures entries { NameEntries result.now self.now }
    {
        self.by_number.keys().as_slice()
    }

    /// The overlay of this number, if there is one. No hash is taken for one older than all.
    #[inline(always)]
    pub fn get(&self, id: FilesystemId) -> Option<&Layered>
        ensures value { option_copied result ≡ layered_of self.now id.count }
        ensures own { IfSome result (λ layered. layered.now.overlay.number ≡ id) }
        ensures nodes { IfSome result (λ layered. KeepsItsOwn layered.now.overlay layered.now.above) }
    {
        let found = found_under(&self.by_number, self.oldest, id)?;
        Some(&found.overlay)
    }

    /// Puts in the overlay of these layers, which no mount shows yet.
    pub fn add(
        &mut self,
        id: FilesystemId,
        lowers: Vec<LayerRef>,
        mounter: Cred,
    ) -> Result<(), AllocError>
        requires { list_all (λ entry. nat_lt entry.count id.count) self.old ≡ true }
        ensures ok { OnOk result (self.new ≡ self.old ++ new_overlay id lowers.items mounter ∷ []) }
        ensures err { OnErr result (self.new ≡ self.old) }
    {
        self.layers.reserve(lowers.len())?;
        self.by_number.reserve(1)?;
        self.layers.add(lowers.as_slice());
        self.oldest = self.oldest.min(id.count);
        let overlay = Layered::lower(Overlay::new(id, lowers, mounter));
        // It cannot fail: there is room.
        let _ = self
            .by_number
            .insert(id, KeptOverlay { overlay, mounts: 0 });
        Ok(())
    }

    /// Takes an overlay out. It does not allocate.
    pub fn remove(&mut self, id: FilesystemId) -> Option<Layered>
        ensures value { result ≡ layered_of self.old id.count }
        ensures removed { self.new ≡ without_overlay id.count self.old }
    {
        let KeptOverlay {
            overlay,
            mounts: _mounts,
        } = self.by_number.swap_remove(&id)?;
        self.layers.take_held(&overlay);
        Some(overlay)
    }

    /// How many mounts show the overlay of this number, if there is one.
    pub fn mounts(&self, id: FilesystemId) -> Option<u64>
        ensures { result ≡ option_map (λ entry. entry.mounts) (entry_kept self.now id.count) }
    {
        let found = found_under(&self.by_number, self.oldest, id)?;
        Some(found.mounts)
    }

    /// Counts one more mount of an overlay that has fewer than 2^64 - 1. It does not allocate.
    pub fn hold_mount(&mut self, id: FilesystemId)
        requires { IfSome (entry_kept self.old id.count) (λ entry. entry.mounts < most_counted) }
        ensures { self.new ≡ with_overlay_changed id.count
            (λ entry. record entry { mounts = entry.mounts + 1 }) self.old }
    {
        if let Some(found) = self.by_number.get_mut(&id) {
            found.mounts += 1;
        }
    }

    /// Takes back a mount that `hold_mount` counted; a count of 0 stays 0. It does not allocate.
    pub fn release_mount(&mut self, id: FilesystemId)
        ensures { self.new ≡ with_overlay_changed id.count
            (λ entry. record entry { mounts = entry.mounts - 1 }) self.old }
    {
        if let Some(found) = self.by_number.get_mut(&id) {
            found.mounts = found.mounts.saturating_sub(1);
        }
    }

    /// Counts one use more of a node of its overlay, if it is kept without a name there. It does not allocate.
    ///
    /// An error says that it has 2^64 - 1 uses.
    pub fn pin(&mut self, node: NodeRef) -> Result<(), AllocError>
        ensures ok { OnOk result (ChangesOverlay (IsPinned node) node.filesystem.count self.old self.new) }
        ensures limit { IsErr result ↔ (uses_kept node (layered_of self.old node.filesystem.count) + 1 ≡ 2 ^ 64) }
        ensures err { OnErr result (self.new ≡ self.old) }
    {
        match self.by_number.get_mut(&node.filesystem) {
            Some(found) => found.overlay.pin(node),
            None => Ok(()),
        }
    }

    /// Takes back one use of a node of its overlay, if it is kept without a name there. It gives the inode that is to be let
    /// go with the last use. It does not allocate.
    pub fn unpin(&mut self, node: NodeRef) -> Option<InodeRef>
        ensures object { result ≡ kept_let_go node (layered_of self.old node.filesystem.count) }
        ensures unpinned { ChangesOverlay (IsUnpinned node) node.filesystem.count self.old self.new }
    {
        match self.by_number.get_mut(&node.filesystem) {
            Some(found) => found.overlay.unpin(node),
            None => None,
        }
    }

    /// Whether the directory of a layer of one of them is in this plain filesystem.
    pub fn have_layer_in(&self, filesystem: FilesystemId) -> bool
        ensures { result ≡ list_any (overlay_stands_in filesystem.count) self.now }
    {
        self.layers.has_in(filesystem)
    }

    /// Whether one of them keeps an inode without a name, as the object of a node in its upper layer. It asks each, if a
    /// layer is in the inode's filesystem.
    pub fn keep_object(&self, inode: InodeRef) -> bool
        ensures { result ≡ list_any (keeps_in inode.filesystem.count (inode_of inode)) self.now }
    {
        if !self.have_layer_in(inode.filesystem) {
            return false;
        }
        self.ids().iter().any(|id| self.keeps_object(*id, inode))
    }

    // Whether the overlay of this number keeps it.
    fn keeps_object(&self, id: FilesystemId, inode: InodeRef) -> bool
        ensures { result ≡ holds_of (keeps_in inode.filesystem.count (inode_of inode)) (entry_kept self.now id.count) }
    {
        match self.get(id) {
            Some(layered) => layered.keeps_object(id, inode),
            None => false,
        }
    }

    /// Whether a directory of a plain tree lies in a layer of one of them: it or one above it is the layer's directory.
    pub fn have_layer_over(&self, plain: &Filesystems, directory: InodeRef) -> bool
        requires { ParentsAreNamed (files_at plain.now directory.filesystem.count).tree }
        ensures { result
            ≡ list_any (directory_lies_in_overlay plain.now directory.filesystem.count (inode_of directory)) self.now }
    {
        let node = directory.node();
        match plain.get(directory.filesystem) {
            Some(tree) => self.layers.has_above(directory.filesystem, tree, node),
            None => self.layers.has_at(directory.filesystem, node),
        }
    }
}
