//! `Store`: the plain filesystems, and the overlays.
ghost use Rattle.std.specs.Prelude.{◌≡◌, ◌↔◌, [], IfSome, false, is_some, option_copied};
ghost use Rattle.std.specs.Borrow.{sem};

use crate::overlays::Overlays;
use std::alloc::Global;
use std::marker::Model;
use vt_fs::Filesystems;
use vt_layered::Layered;
use vt_location::FilesystemId;

/// All filesystems: plain trees, and overlays, whose layers are directories of these trees.
///
/// Overlays are kept by hash, in no order. A look at a filesystem that does not exist finds nothing.
#[derive(Debug, Drop)]
pub struct Store {
    pub(crate) plain: Filesystems,
    pub(crate) overlays: Overlays,
}

impl Model for Store {
    ghost use Rattle.vt_store.specs.StoreValue.{StoreValue};

    ghost Value = { StoreValue };

    ghost view = { λ store. record { plain = store.plain; overlays = store.overlays } };
}

impl Store {
    ghost use Rattle.vt_store.specs.StoreValue.{filesystem_in, layered_in};
    ghost use Rattle.vt_store.specs.Lends.{lends_plain};
    ghost use Rattle.vt_store.specs.Named.{NameEach, NameEntries};

    /// These plain filesystems, and no overlays. It does not allocate.
    pub fn new(alloc: Global, plain: Filesystems) -> Self
        ensures { result ≡ record { plain = plain; overlays = [] } }
    {
        Store {
            plain,
            overlays: Overlays::new(alloc),
        }
    }

    /// The plain filesystems.
    pub fn plain(&self) -> &Filesystems
        ensures { result.now ≡ self.now.plain }
    {
        &self.plain
    }

    /// The plain filesystems, for a change. It leaves the overlays as they are, with their births and what they keep
    /// without a name: what they show changes only with the trees of their layers.
    pub fn plain_mut(&mut self) -> &mut Filesystems
        ensures* writes_back { sem 𝓛 (lends_plain self.entry result) }
        ensures value { result.now ≡ self.old.plain }
    {
        &mut self.plain
    }

    /// The numbers of all overlays, in no order.
    pub fn overlays(&self) -> &[FilesystemId]
        ensures overlays { NameEach result.now self.now.overlays }
        ensures entries { NameEntries result.now self.now.overlays }
    {
        self.overlays.ids()
    }

    /// Whether there are overlays.
    #[inline(always)]
    pub fn has_overlays(&self) -> bool
        ensures { (result ≡ false) ↔ (self.now.overlays ≡ []) }
    {
        !self.overlays.is_empty()
    }

    /// The overlay of a filesystem, if it is one.
    #[inline(always)]
    pub fn overlay(&self, filesystem: FilesystemId) -> Option<&Layered>
        ensures value { option_copied result ≡ layered_in self.now filesystem.count }
        ensures own { IfSome result (λ layered. layered.now.overlay.number ≡ filesystem) }
    {
        self.overlays.get(filesystem)
    }

    /// Whether a filesystem is an overlay.
    #[inline(always)]
    pub fn is_overlay(&self, filesystem: FilesystemId) -> bool
        ensures { result ≡ is_some (filesystem_in self.now filesystem.count).overlay }
    {
        self.overlay(filesystem).is_some()
    }
}
