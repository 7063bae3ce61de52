//! Layers of overlays, held and let go: overlayfs. A layer pins its directory, and counts as a mount of its filesystem.
ghost use Rattle.std.specs.Prelude.{◌≡◌, ◌-◌, ◌↔◌, All, None, length, true};
ghost use Rattle.vt_fs.specs.FilesystemsValue.{shown};
ghost use Rattle.vt_store.specs.Laws.{StaysUnder};
ghost use Rattle.vt_store.specs.LayersHeld.{HasRoomFor, HaveRoomFor, held_in, with_layer, with_layers, without_layer, without_layers, without_unmounted, mounts_changed};
ghost use Rattle.vt_layered.specs.LayeredValue.{held_layers};
ghost use Rattle.vt_store.specs.OverlaysValue.{without_overlay};
ghost use Rattle.vt_store.specs.StoreValue.{StandOnLayers, layered_in};

use crate::store::Store;
use vt_fs::Filesystems;
use vt_layered::Layered;
use vt_location::FilesystemId;
use vt_overlay::LayerRef;

impl Store {
    /// Takes an overlay out, whatever mounts show it, and lets its layers go: each is a use less of its directory and a
    /// mount less of its filesystem, which goes with the last. It does not allocate.
    pub fn remove_overlay(&mut self, filesystem: FilesystemId)
        ensures overlays { self.new.overlays ≡ without_overlay filesystem.count self.old.overlays }
        ensures left { shown self.new.plain
            ≡ without_layers (held_in self.old filesystem.count) (shown self.old.plain) }
        ensures none { layered_in self.old filesystem.count ≡ None → self.new ≡ self.old }
        // overlays that are left stand still where no directory of a layer went
        ensures standing { StandOnLayers self.old
            → All (λ entry. All (StaysUnder self.old.plain self.new.plain entry) entry.overlay.lowers)
            self.new.overlays
            → StandOnLayers self.new }
    {
        if let Some(overlay) = self.overlays.remove(filesystem) {
            let_go(&mut self.plain, &overlay);
        }
    }
}

// Whether a use more of each layer's directory, and a mount more of its filesystem, may be counted for each layer.
pub(crate) fn has_room_for(plain: &Filesystems, layers: &[LayerRef]) -> bool
    ensures { (result ≡ true) ↔ HaveRoomFor (length layers.now) (shown plain.now) layers.now }
{
    let more = layers.len() as u64;
    for layer in layers {
        if !has_room(plain, *layer, more) {
            return false;
        }
    }
    true
}

// Whether so many uses more of a layer's directory, and mounts of its filesystem, may be counted.
fn has_room(plain: &Filesystems, layer: LayerRef, more: u64) -> bool
    ensures { (result ≡ true) ↔ HasRoomFor more (shown plain.now) layer }
{
    plain.uses(layer.directory.node_ref()) <= u64::MAX - more
        && plain.mounts(layer.directory.filesystem) <= u64::MAX - more
}

// The layers of an overlay more, and its work directory, for which there is room. It does not allocate.
pub(crate) fn hold(plain: &mut Filesystems, overlay: &Layered)
    requires { HaveRoomFor (length (held_layers overlay.now.overlay overlay.now.above)) (shown plain.old)
        (held_layers overlay.now.overlay overlay.now.above) }
    ensures { shown plain.new ≡ with_layers (held_layers overlay.now.overlay overlay.now.above) (shown plain.old) }
{
    hold_layers(plain, overlay.layers());
    if let Some(work) = overlay.work() {
        hold_layer(plain, work);
    }
}

// Layers more, for which there is room.
fn hold_layers(plain: &mut Filesystems, layers: &[LayerRef])
    requires { HaveRoomFor (length layers.now) (shown plain.old) layers.now }
    ensures { shown plain.new ≡ with_layers layers.now (shown plain.old) }
{
    for layer in layers {
        hold_layer(plain, *layer);
    }
}

// One layer more, for which there is room.
fn hold_layer(plain: &mut Filesystems, layer: LayerRef)
    requires { HasRoomFor 1 (shown plain.old) layer }
    ensures { shown plain.new ≡ with_layer (shown plain.old) layer }
{
    // They cannot fail: there is room.
    let _ = plain.pin(layer.directory.node_ref());
    let _ = plain.hold_mount(layer.directory.filesystem);
}

// The layers of an overlay less, and its work directory: what is in use no more goes. It does not allocate.
fn let_go(plain: &mut Filesystems, overlay: &Layered)
    ensures { shown plain.new
        ≡ without_layers (held_layers overlay.now.overlay overlay.now.above) (shown plain.old) }
{
    let_go_layers(plain, overlay.layers());
    if let Some(work) = overlay.work() {
        let_go_layer(plain, work);
    }
}

// Layers less.
fn let_go_layers(plain: &mut Filesystems, layers: &[LayerRef])
    ensures { shown plain.new ≡ without_layers layers.now (shown plain.old) }
{
    for layer in layers {
        let_go_layer(plain, *layer);
    }
}

// One layer less.
fn let_go_layer(plain: &mut Filesystems, layer: LayerRef)
    ensures { shown plain.new ≡ without_layer (shown plain.old) layer }
{
    plain.unpin(layer.directory.node_ref());
    leave_filesystem(plain, layer.directory.filesystem);
}

// One mount less of a filesystem, which goes with its last.
fn leave_filesystem(plain: &mut Filesystems, id: FilesystemId)
    ensures { shown plain.new
        ≡ without_unmounted id.count (mounts_changed id.count (λ mounts. mounts - 1) (shown plain.old)) }
{
    plain.release_mount(id);
    if plain.mounts(id) == 0 {
        plain.remove(id);
    }
}
