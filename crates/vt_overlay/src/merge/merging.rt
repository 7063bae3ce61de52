//! Directories that are merged, one of each layer at most, and what they have under a name.
ghost use Rattle.std.specs.Prelude.{◌≡◌, ◌≢◌, ◌≤◌, ◌++◌, ◌∷◌, ◌+◌, ◌<◌, [], ℕ, All, Contains, IfSome, List, None, drop, if◌then◌else◌, length, map, option_to_list, take};
ghost use Rattle.vt_spec.specs.Lists.{then_some};
ghost use Rattle.vt_spec.specs.Machine.Layers.{shown, view_of};
ghost use Rattle.vt_spec.specs.TreeInvariant.{entry_at};
ghost use Rattle.vt_laws_trees.specs.Layers.Layers.Directories.{PlacedLayer, directories_under, directory_over, placed, shown_in};
ghost use Rattle.vt_location.specs.Locations.{inode_of};
ghost use Rattle.vt_fs.specs.FilesystemsValue.{Filesystems as Trees};
ghost use Rattle.vt_overlay.specs.Merge.EntryValue.{IsEntry, IsFirstEntry, IsMergedAt, entry_shown};
ghost use Rattle.vt_overlay.specs.Merge.LayerValue.{layers_of, opened, placed_layers, placed_of, placed_views};
ghost use Rattle.vt_overlay.specs.declared.merge.layers.LayerRef.{LayerRef as Layer};

use crate::merge::entries::{directory_at, entry, hides};
use crate::merge::layers::{LayerEntry, LayerRef, MergedDirectory};
use crate::merge::ways::Way;
use arrayvec::ArrayVec;
use vt_fs::Filesystems;

/// The most layers of an overlay: an upper one, and 128 lower ones.
pub const MOST_LAYERS: usize = 129;

// Most overlays have no more layers. Room for as many directories (1.5 KB) is filled with blanks in some 60 instructions.
const FEW_LAYERS: usize = 64;

// What a merged directory has under a name: the directory there, and whether it hides what lower ones have.
#[derive(Clone, Copy, Debug)]
struct Under {
    directory: Option<MergedDirectory>,
    hides: bool,
}

/// The entry that decides what layers show under a name of the directory at a path: of the directories that are merged
/// there, the highest that has the name has it. It does not allocate.
pub fn first_entry<W: Way>(
    trees: &Filesystems,
    layers: &[LayerRef],
    path: &W,
    name: &[u8],
) -> Option<LayerEntry>
    requires { length layers.now ≤ MOST_LAYERS }
    ensures first { IfSome result (λ found.
        IsFirstEntry trees.now layers.now (W.names path.now) name.now found) }
    ensures nothing { result ≡ None
        → shown (layers_of trees.now layers.now) (W.names path.now ++ name.now ∷ []) ≡ None }
{
    if layers.len() <= FEW_LAYERS {
        let mut merged = ArrayVec::<MergedDirectory, FEW_LAYERS>::new();
        first_entry_with(trees, layers, path, name, &mut merged)
    } else {
        let mut merged = ArrayVec::<MergedDirectory, MOST_LAYERS>::new();
        first_entry_with(trees, layers, path, name, &mut merged)
    }
}

// The same, with an empty list that has room for the directories of all layers.
fn first_entry_with<W: Way, const MOST: usize>(
    trees: &Filesystems,
    layers: &[LayerRef],
    path: &W,
    name: &[u8],
    merged: &mut ArrayVec<MergedDirectory, MOST>,
) -> Option<LayerEntry>
    requires few { length layers.now ≤ MOST }
    requires empty { merged.old.items ≡ [] }
    ensures first { IfSome result (λ found.
        IsFirstEntry trees.now layers.now (W.names path.now) name.now found) }
    ensures nothing { result ≡ None
        → shown (layers_of trees.now layers.now) (W.names path.now ++ name.now ∷ []) ≡ None }
{
    merge_at(trees, layers, path, merged);
    first_of(trees, merged.as_slice(), name)
}

// The entry of the first of merged directories that has the name.
pub(crate) fn first_of(
    trees: &Filesystems,
    merged: &[MergedDirectory],
    name: &[u8],
) -> Option<LayerEntry>
    ensures shows { shown_in (placed_views trees.now merged.now) (name.now ∷ [])
        ≡ then_some result (entry_shown trees.now) }
    ensures above { IfSome result (λ found. Contains merged.now found.above) }
    ensures entry { IfSome result (IsEntry trees.now name.now) }
{
    for top in merged {
        if let Some(found) = entry_in(trees, *top, name) {
            return Some(found);
        }
    }
    None
}

/// What the directory of a layer has under a name.
pub fn entry_in(trees: &Filesystems, above: MergedDirectory, name: &[u8]) -> Option<LayerEntry>
    ensures above { IfSome result (λ found. found.above ≡ above) }
    ensures entry { IfSome result (IsEntry trees.now name.now) }
    ensures nothing { result ≡ None
        → entry_at (opened trees.now above.directory).tree (inode_of above.directory) name.now ≡ None }
{
    let tree = trees.get(above.directory.filesystem);
    let object = entry(tree, above.directory, name)?;
    Some(LayerEntry { above, object })
}

/// Makes a list, which is empty, that of the directories that are merged at a path. At each further path with a name
/// these show what the layers show at both. It does not allocate.
pub(crate) fn merge_at<W: Way, const MOST: usize>(
    trees: &Filesystems,
    layers: &[LayerRef],
    path: &W,
    merged: &mut ArrayVec<MergedDirectory, MOST>,
)
    requires few { length layers.now ≤ MOST }
    requires empty { merged.old.items ≡ [] }
    ensures shows { (rest : List (List ℕ)) → rest ≢ []
        → shown_in (placed_views trees.now merged.new.items) rest
        ≡ shown (layers_of trees.now layers.now) (W.names path.now ++ rest) }
    ensures led { All (IsMergedAt trees.now layers.now (W.names path.now)) merged.new.items }
{
    push_directories(layers, merged);
    for index in 0..path.len() {
        narrow(trees, merged, path.name(index));
    }
}

// The directories of all layers.
fn push_directories<const MOST: usize>(
    layers: &[LayerRef],
    merged: &mut ArrayVec<MergedDirectory, MOST>,
)
    requires few { length layers.now ≤ MOST }
    requires empty { merged.old.items ≡ [] }
    ensures placed { (trees : Trees)
        → placed_views trees merged.new.items ≡ placed (map view_of (layers_of trees layers.now)) }
    ensures led { (trees : Trees) → All (IsMergedAt trees layers.now []) merged.new.items }
{
    for (place, layer) in layers.iter().enumerate() {
        merged.push(MergedDirectory {
            layer: place,
            directory: layer.directory,
        });
    }
}

// Replaces merged directories by those that are merged under a name of them. At each path with a name these show what
// the given ones show at the name and then that path.
fn narrow<const MOST: usize>(
    trees: &Filesystems,
    merged: &mut ArrayVec<MergedDirectory, MOST>,
    name: &[u8],
)
    ensures shows { (path : List (List ℕ)) → path ≢ []
        → shown_in (placed_views trees.now merged.new.items) path
        ≡ shown_in (placed_views trees.now merged.old.items) (name.now ∷ path) }
    ensures led { (layers : List Layer) (path : List (List ℕ))
        → All (IsMergedAt trees.now layers path) merged.old.items
        → All (IsMergedAt trees.now layers (path ++ name.now ∷ [])) merged.new.items }
{
    let kept = narrow_in_front(trees, merged.as_mut_slice(), name);
    merged.truncate(kept);
}

// Moves to the front the directories that are merged under a name of these: those that have one there, from the top to
// the first that is opaque or that has something else there. It gives their number.
fn narrow_in_front(trees: &Filesystems, merged: &mut [MergedDirectory], name: &[u8]) -> usize
    ensures value { placed_layers trees.now (take result merged.new)
        ≡ directories_under (placed_layers trees.now merged.old) name.now }
    ensures led { (layers : List Layer) (path : List (List ℕ))
        → All (IsMergedAt trees.now layers path) merged.old
        → All (IsMergedAt trees.now layers (path ++ name.now ∷ [])) (take result merged.new) }
    ensures len { length merged.new ≡ length merged.old }
{
    let mut kept = 0;
    for index in 0..merged.len() {
        let found = look_under(trees, merged[index], name);
        kept = put(merged, kept, found.directory);
        if found.hides {
            return kept;
        }
    }
    kept
}

// Puts a directory, if there is one, at the end of those that are kept. It gives how many are kept then.
fn put(merged: &mut [MergedDirectory], kept: usize, directory: Option<MergedDirectory>) -> usize
    requires { kept < length merged.old }
    ensures kept { take result merged.new ≡ take kept merged.old ++ option_to_list directory }
    ensures count { result ≤ kept + 1 }
    ensures others { (place : ℕ) → kept < place → drop place merged.new ≡ drop place merged.old }
    ensures len { length merged.new ≡ length merged.old }
{
    match directory {
        Some(directory) => {
            merged[kept] = directory;
            kept + 1
        }
        None => kept,
    }
}

// What one directory has under a name.
fn look_under(trees: &Filesystems, top: MergedDirectory, name: &[u8]) -> Under
    ensures value { (lower : List (PlacedLayer ℕ))
        → placed_layers trees.now (option_to_list result.directory) ++ (if result.hides then [] else lower)
        ≡ (let placed = placed_of trees.now top in
        directory_over placed (entry_at placed.open_layer.tree placed.open_layer.directory name.now) lower) }
    ensures led { (layers : List Layer) (path : List (List ℕ)) → IsMergedAt trees.now layers path top
        → IfSome result.directory (IsMergedAt trees.now layers (path ++ name.now ∷ [])) }
{
    let tree = trees.get(top.directory.filesystem);
    let Some(object) = entry(tree, top.directory, name) else {
        return Under {
            directory: None,
            hides: false,
        };
    };
    Under {
        directory: directory_at(tree, top.layer, object),
        hides: hides(tree, object),
    }
}
