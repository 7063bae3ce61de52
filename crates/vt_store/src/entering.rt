//! Overlays that are put in before their layers are held, and taken out again where something else fails.
ghost use Rattle.std.specs.Prelude.{◌≡◌, ◌++◌, ◌∷◌, ◌↔◌, [], OnErr, OnOk, length, nat_lt, true};
ghost use Rattle.std.specs.List.{list_all};
ghost use Rattle.vt_fs.specs.FilesystemsValue.{shown};
ghost use Rattle.vt_store.specs.LayersHeld.{HaveRoomFor, held_in, new_overlay, with_layers};
ghost use Rattle.vt_store.specs.OverlaysValue.{without_overlay};

use crate::layers::{has_room_for, hold};
use crate::store::Store;
use std::alloc::AllocError;
use vt_cred::Cred;
use vt_location::FilesystemId;
use vt_overlay::LayerRef;

impl Store {
    /// Whether so many layers can be held: each directory may have as many more uses as there are layers, and each
    /// filesystem as many more mounts.
    pub fn layers_have_room(&self, lowers: &[LayerRef]) -> bool
        ensures { (result ≡ true) ↔ HaveRoomFor (length lowers.now) (shown self.now.plain) lowers.now }
    {
        has_room_for(&self.plain, lowers)
    }

    /// Puts in an overlay of these lower layers, the highest first, which no mount shows yet. Its layers are not held:
    /// `hold_layers_of` holds them. Its number must be above those of all other overlays.
    ///
    /// It fails if an allocation does, or after 2^64 - 1 layers in all.
    pub fn enter_overlay(
        &mut self,
        filesystem: FilesystemId,
        lowers: Vec<LayerRef>,
        mounter: Cred,
    ) -> Result<(), AllocError>
        requires { list_all (λ entry. nat_lt entry.count filesystem.count) self.old.overlays ≡ true }
        ensures ok { OnOk result (self.new ≡ record self.old {
          overlays = self.old.overlays ++ new_overlay filesystem lowers.items mounter ∷ [];
        }) }
        ensures err { OnErr result (self.new ≡ self.old) }
    {
        self.overlays.add(filesystem, lowers, mounter)
    }

    /// Takes out an overlay whose layers are not held. It does not allocate.
    pub fn withdraw_overlay(&mut self, filesystem: FilesystemId)
        ensures { self.new ≡ record self.old { overlays = without_overlay filesystem.count self.old.overlays } }
    {
        self.overlays.remove(filesystem);
    }

    /// Holds the layers of an overlay that was put in, and its work directory, for which there is room: each pins its
    /// directory, and counts as a mount of its filesystem. It does not allocate.
    pub fn hold_layers_of(&mut self, filesystem: FilesystemId)
        requires { HaveRoomFor (length (held_in self.old filesystem.count)) (shown self.old.plain)
            (held_in self.old filesystem.count) }
        ensures overlays { self.new.overlays ≡ self.old.overlays }
        ensures held { shown self.new.plain
            ≡ with_layers (held_in self.old filesystem.count) (shown self.old.plain) }
    {
        if let Some(overlay) = self.overlays.get(filesystem) {
            hold(&mut self.plain, overlay);
        }
    }
}
