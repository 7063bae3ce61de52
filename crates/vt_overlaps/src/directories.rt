//! Inodes that lie or count under two directories: the kernel's overlayfs document, "upper and lower" and "sharing and
//! copying layers". What an overlay keeps without a name counts as under its upper directory.
ghost use Rattle.std.specs.Prelude.{◌≡◌, ◌&&◌, is_some, slice_get, ℕ};
ghost use Rattle.std.specs.List.{list_any};
ghost use Rattle.vt_spec.specs.Lists.{holds_of};
ghost use Rattle.vt_location.specs.Locations.{inode_of};
ghost use Rattle.vt_location.specs.Numbers.{inode_number};
ghost use Rattle.vt_fs.specs.FilesystemsValue.{files_at};
ghost use Rattle.vt_fs.specs.Laws.{ParentsAreNamed};
ghost use Rattle.vt_store.specs.OverlaysValue.{entry_kept};
ghost use Rattle.vt_store.specs.StoreValue.{StandOnLayers};
ghost use Rattle.vt_overlaps.specs.Overlaps.{all_written, counts_under, counts_under_both, has_upper_under, keeps_under, lies_under, overlaps_one_of, written_by};

use crate::overlaps::lies_under;
use vt_fs::Filesystems;
use vt_layered::Layered;
use vt_location::{FilesystemId, InodeRef};
use vt_overlay::LayerRef;
use vt_store::Store;

/// Whether some inode of a plain tree lies or counts under a directory of it, and under one of others: of the layers of an
/// overlay, rules O2 and O5.
///
/// It passes over all inodes of the tree. For each directory one costs a look-up for each directory above it, of a file
/// above each of its names, and two for each overlay that has its upper directory there. Directories must be named in
/// their parents, as in every tree of a world. It does not allocate.
pub fn overlaps_one_of(store: &Store, others: &[InodeRef], directory: InodeRef) -> bool
    requires standing { StandOnLayers store.now }
    requires named { (count : ℕ) → ParentsAreNamed (files_at store.now.plain count).tree }
    ensures { result ≡ overlaps_one_of store.now others.now directory }
{
    let Some(tree) = store.plain().get(directory.filesystem) else {
        return false;
    };
    for slot in 0..tree.end() {
        if is_in_one_of(store, others, directory, slot) {
            return true;
        }
    }
    false
}

// Whether the inode in a slot is there, and lies or counts under a directory of its tree, and under one of others.
fn is_in_one_of(store: &Store, others: &[InodeRef], top: InodeRef, slot: usize) -> bool
    requires standing { StandOnLayers store.now }
    requires named { (count : ℕ) → ParentsAreNamed (files_at store.now.plain count).tree }
    ensures { result ≡ (is_some ((files_at store.now.plain top.filesystem.count).tree.node
        (inode_number top.filesystem.count slot))
        && counts_under_both store.now others.now top (inode_number top.filesystem.count slot)) }
{
    let filesystem = top.filesystem;
    let inode = InodeRef { filesystem, slot };
    if store.plain().node(inode.node_ref()).is_none() {
        return false;
    }
    counts_under(store, top, inode) && counts_under_one_of(store, others, inode)
}

// Whether an inode lies or counts under one of these directories.
fn counts_under_one_of(store: &Store, directories: &[InodeRef], inode: InodeRef) -> bool
    requires standing { StandOnLayers store.now }
    requires named { (count : ℕ) → ParentsAreNamed (files_at store.now.plain count).tree }
    ensures { result
        ≡ list_any (counts_under store.now inode.filesystem.count (inode_of inode)) directories.now }
{
    directories
        .iter()
        .any(|directory| counts_under(store, *directory, inode))
}

// Whether an inode lies or counts under a directory.
fn counts_under(store: &Store, top: InodeRef, inode: InodeRef) -> bool
    requires standing { StandOnLayers store.now }
    requires named { (count : ℕ) → ParentsAreNamed (files_at store.now.plain count).tree }
    ensures { result ≡ counts_under store.now inode.filesystem.count (inode_of inode) top }
{
    lies_in(store.plain(), top, inode) || is_kept_under(store, top, inode)
}

// Whether an inode is a directory of a plain tree, lies under it, or has a name there.
fn lies_in(plain: &Filesystems, top: InodeRef, inode: InodeRef) -> bool
    requires { ParentsAreNamed (files_at plain.now top.filesystem.count).tree }
    ensures { result ≡ lies_under plain.now inode.filesystem.count (inode_of inode) top }
{
    inode.filesystem == top.filesystem && lies_under(plain, top, inode.slot)
}

// Whether an overlay whose upper directory lies under a directory keeps an inode without a name.
fn is_kept_under(store: &Store, top: InodeRef, inode: InodeRef) -> bool
    requires standing { StandOnLayers store.now }
    requires named { (count : ℕ) → ParentsAreNamed (files_at store.now.plain count).tree }
    ensures { result ≡ list_any (keeps_under store.now.plain inode.filesystem.count (inode_of inode) top)
        store.now.overlays }
{
    store
        .overlays()
        .iter()
        .any(|id| keeps_under(store, *id, top, inode))
}

// Whether the overlay of this number does.
fn keeps_under(store: &Store, id: FilesystemId, top: InodeRef, inode: InodeRef) -> bool
    requires standing { StandOnLayers store.now }
    requires named { (count : ℕ) → ParentsAreNamed (files_at store.now.plain count).tree }
    ensures { result ≡ holds_of (keeps_under store.now.plain inode.filesystem.count (inode_of inode) top)
        (entry_kept store.now.overlays id.count) }
{
    match store.overlay(id) {
        Some(overlay) => {
            has_upper_under(store.plain(), top, overlay) && overlay.keeps_object(id, inode)
        }
        None => false,
    }
}

// Whether the upper directory of an overlay lies under a directory; an overlay without one has none there.
fn has_upper_under(plain: &Filesystems, top: InodeRef, overlay: &Layered) -> bool
    requires { ParentsAreNamed (files_at plain.now top.filesystem.count).tree }
    ensures { result ≡ has_upper_under plain.now top overlay.now.overlay overlay.now.above }
{
    match overlay.layers().first() {
        Some(upper) if overlay.has_upper() => lies_in(plain, top, upper.directory),
        _ => false,
    }
}

/// Whether some inode of a plain tree lies or counts under a directory of it, and under an upper or a work directory of an
/// overlay: rule O3 of a lower layer.
///
/// It costs what `overlaps_one_of` does with these directories. It does not allocate.
pub fn overlaps_written(store: &Store, directory: InodeRef) -> bool
    requires standing { StandOnLayers store.now }
    requires named { (count : ℕ) → ParentsAreNamed (files_at store.now.plain count).tree }
    ensures { result ≡ overlaps_one_of store.now (all_written store.now.overlays) directory }
{
    let Some(tree) = store.plain().get(directory.filesystem) else {
        return false;
    };
    for slot in 0..tree.end() {
        if is_in_written(store, directory, slot) {
            return true;
        }
    }
    false
}

// Whether the inode in a slot is there, and lies or counts under a directory of its tree, and under one to which an
// overlay writes.
fn is_in_written(store: &Store, top: InodeRef, slot: usize) -> bool
    requires standing { StandOnLayers store.now }
    requires named { (count : ℕ) → ParentsAreNamed (files_at store.now.plain count).tree }
    ensures { result ≡ (is_some ((files_at store.now.plain top.filesystem.count).tree.node
        (inode_number top.filesystem.count slot))
        && counts_under_both store.now (all_written store.now.overlays) top
        (inode_number top.filesystem.count slot)) }
{
    let filesystem = top.filesystem;
    let inode = InodeRef { filesystem, slot };
    if store.plain().node(inode.node_ref()).is_none() {
        return false;
    }
    counts_under(store, top, inode) && counts_under_written(store, inode)
}

// Whether an inode lies or counts under a directory to which an overlay writes.
fn counts_under_written(store: &Store, inode: InodeRef) -> bool
    requires standing { StandOnLayers store.now }
    requires named { (count : ℕ) → ParentsAreNamed (files_at store.now.plain count).tree }
    ensures { result ≡ list_any (counts_under store.now inode.filesystem.count (inode_of inode))
        (all_written store.now.overlays) }
{
    store
        .overlays()
        .iter()
        .any(|id| is_written(store, *id, inode))
}

// Whether it does under one to which the overlay of this number writes.
fn is_written(store: &Store, id: FilesystemId, inode: InodeRef) -> bool
    requires standing { StandOnLayers store.now }
    requires named { (count : ℕ) → ParentsAreNamed (files_at store.now.plain count).tree }
    ensures { result ≡ holds_of (λ entry. list_any (counts_under store.now inode.filesystem.count (inode_of inode))
        (written_by entry.overlay entry.above)) (entry_kept store.now.overlays id.count) }
{
    match store.overlay(id) {
        Some(overlay) => is_written_by(store, overlay, inode),
        None => false,
    }
}

// Whether it does under the upper or the work directory of an overlay.
fn is_written_by(store: &Store, overlay: &Layered, inode: InodeRef) -> bool
    requires standing { StandOnLayers store.now }
    requires named { (count : ℕ) → ParentsAreNamed (files_at store.now.plain count).tree }
    ensures { result ≡ list_any (counts_under store.now inode.filesystem.count (inode_of inode))
        (written_by overlay.now.overlay overlay.now.above) }
{
    let Some(work) = overlay.work() else {
        return false;
    };
    is_under_first(store, overlay.layers(), inode) || counts_under(store, work.directory, inode)
}

// Whether it does under the directory of the first of these layers.
fn is_under_first(store: &Store, layers: &[LayerRef], inode: InodeRef) -> bool
    requires standing { StandOnLayers store.now }
    requires named { (count : ℕ) → ParentsAreNamed (files_at store.now.plain count).tree }
    ensures { result ≡ holds_of (λ layer. counts_under store.now inode.filesystem.count (inode_of inode)
        layer.directory) (slice_get layers.now 0) }
{
    match layers.first() {
        Some(layer) => counts_under(store, layer.directory, inode),
        None => false,
    }
}
