//! The names of merged directories.
ghost use Rattle.std.specs.List.{list_any};
ghost use Rattle.std.specs.List.Sorted.{IsPermutation};
ghost use Rattle.std.specs.Ordering.{eq_by_cmp};
ghost use Rattle.std.specs.Prelude.{◌≡◌, ◌≤◌, ◌++◌, ◌∷◌, ◌&&◌, ◌||◌, [], IfOk, List, OnOk, is_some, length, map, not, ℕ};
ghost use Rattle.vt_spec.specs.Lists.{is_empty_list};
ghost use Rattle.vt_spec.specs.Machine.Layers.{names_shown};
ghost use Rattle.vt_laws_trees.specs.Layers.Layers.Directories.{shown_in};
ghost use Rattle.vt_spec.specs.Tree.{name_cmp, names_in};
ghost use Rattle.vt_location.specs.Locations.{inode_of};
ghost use Rattle.vt_fs.specs.FilesystemsValue.{files_at};
ghost use Rattle.vt_overlay.specs.Merge.LayerValue.{is_white_under, layers_of, names_had, placed_views};

use crate::merge::entries::is_whiteout;
use crate::merge::layers::{LayerRef, MergedDirectory};
use crate::merge::merging::{MOST_LAYERS, entry_in, first_of, merge_at};
use crate::merge::ways::Way;
use arrayvec::ArrayVec;
use indexmap::IndexSet;
use std::alloc::{AllocError, Global};
use vt_fs::Filesystems;
use vt_location::InodeRef;
use vt_node::copied_bytes;

// Directories of all layers that are merged, the highest first.
type MergedDirectories = ArrayVec<MergedDirectory, MOST_LAYERS>;

/// The names that layers show in the directory at a path, each once, in the order of their bytes: readdir(3). What is no
/// directory has none. It fails only if an allocation does.
pub fn merged_names<W: Way>(
    alloc: Global,
    trees: &Filesystems,
    layers: &[LayerRef],
    path: &W,
) -> Result<Vec<Vec<u8>>, AllocError>
    requires { length layers.now ≤ MOST_LAYERS }
    ensures { IfOk result (λ names. map (λ name. name.items) names.items
        ≡ names_shown (layers_of trees.now layers.now) (W.names path.now)) }
{
    let mut merged = MergedDirectories::new();
    merge_at(trees, layers, path, &mut merged);
    let directories = merged.as_slice();
    let mut names = all_shown(alloc, trees, directories)?;
    names.sort_unstable();
    names.dedup();
    Ok(names)
}

/// Whether layers show a name in the directory at a path: ENOTEMPTY of rmdir(2). It does not allocate.
pub fn has_names<W: Way>(trees: &Filesystems, layers: &[LayerRef], path: &W) -> bool
    requires { length layers.now ≤ MOST_LAYERS }
    ensures { result
        ≡ not (is_empty_list (names_shown (layers_of trees.now layers.now) (W.names path.now))) }
{
    let mut merged = MergedDirectories::new();
    merge_at(trees, layers, path, &mut merged);
    let directories = merged.as_slice();
    for top in directories {
        if shows_any_of(trees, directories, top.directory) {
            return true;
        }
    }
    false
}

// Whether merged directories show something under a name of this directory.
fn shows_any_of(trees: &Filesystems, merged: &[MergedDirectory], directory: InodeRef) -> bool
    ensures { result ≡ list_any (λ name. is_some (shown_in (placed_views trees.now merged.now) (name ∷ [])))
        (names_in ((files_at trees.now directory.filesystem.count).tree.node (inode_of directory))) }
{
    shows_one(trees, merged, kept_names(trees, directory))
}

// The names of a directory, in no order.
fn kept_names(trees: &Filesystems, directory: InodeRef) -> &[Vec<u8>]
    ensures { IsPermutation (map (λ name. name.items) result.now)
        (names_in ((files_at trees.now directory.filesystem.count).tree.node (inode_of directory))) }
{
    match trees.node(directory.node_ref()) {
        Some(node) => node.kept_names(),
        None => &[],
    }
}

// Whether merged directories show something under one of these names.
fn shows_one(trees: &Filesystems, merged: &[MergedDirectory], names: &[Vec<u8>]) -> bool
    ensures { result
        ≡ list_any (λ name. is_some (shown_in (placed_views trees.now merged.now) (name.items ∷ []))) names.now }
{
    for name in names {
        if shows(trees, merged, name.as_slice()) {
            return true;
        }
    }
    false
}

// The names of all these directories under which they show something, in no order. Only a name that leads to a whiteout
// in one of them is looked for in the others.
fn all_shown(
    alloc: Global,
    trees: &Filesystems,
    merged: &[MergedDirectory],
) -> Result<Vec<Vec<u8>>, AllocError>
    ensures { IfOk result (λ names. (name : List ℕ)
        → list_any (λ one. eq_by_cmp name_cmp name one.items) names.items
        ≡ is_some (shown_in (placed_views trees.now merged.now) (name ∷ []))) }
{
    let mut names = all_names(alloc, trees, merged)?;
    let whiteouts = whiteouts_of(alloc, trees, merged)?;
    if whiteouts.is_empty() {
        return Ok(names);
    }
    names.retain(|name| is_shown(trees, merged, &whiteouts, name.as_slice()));
    Ok(names)
}

// The names of all these directories, in no order.
fn all_names(
    alloc: Global,
    trees: &Filesystems,
    merged: &[MergedDirectory],
) -> Result<Vec<Vec<u8>>, AllocError>
    ensures { IfOk result (λ names.
        IsPermutation (map (λ name. name.items) names.items) (names_had trees.now merged.now)) }
{
    let mut all = Vec::new(alloc);
    for top in merged {
        push_copies(alloc, kept_names(trees, top.directory), &mut all)?;
    }
    Ok(all)
}

// Copies of these names more.
fn push_copies(alloc: Global, names: &[Vec<u8>], all: &mut Vec<Vec<u8>>) -> Result<(), AllocError>
    ensures { OnOk result (map (λ name. name.items) all.new.items
        ≡ map (λ name. name.items) all.old.items ++ map (λ name. name.items) names.now) }
{
    for name in names {
        all.push(copied_bytes(alloc, name.as_slice())?)?;
    }
    Ok(())
}

// Whether merged directories show something under a name.
fn shows(trees: &Filesystems, merged: &[MergedDirectory], name: &[u8]) -> bool
    ensures { result ≡ is_some (shown_in (placed_views trees.now merged.now) (name.now ∷ [])) }
{
    match first_of(trees, merged, name) {
        Some(found) => !is_whiteout(trees, found.object),
        None => false,
    }
}

// The names that lead to a whiteout in one of these directories.
fn whiteouts_of<'a>(
    alloc: Global,
    trees: &'a Filesystems,
    merged: &[MergedDirectory],
) -> Result<IndexSet<&'a [u8]>, AllocError>
    ensures { IfOk result (λ whiteouts. (name : List ℕ)
        → list_any (λ one. eq_by_cmp name_cmp name one.now) whiteouts.keys
        ≡ list_any (λ top. is_white_under trees.now top name) merged.now) }
{
    let mut whiteouts = IndexSet::new(alloc);
    for top in merged {
        add_whiteouts(
            trees,
            *top,
            kept_names(trees, top.directory),
            &mut whiteouts,
        )?;
    }
    Ok(whiteouts)
}

// Adds those of these names of a directory that lead to whiteouts.
fn add_whiteouts<'a>(
    trees: &Filesystems,
    top: MergedDirectory,
    names: &'a [Vec<u8>],
    whiteouts: &mut IndexSet<&'a [u8]>,
) -> Result<(), AllocError>
    ensures { OnOk result ((name : List ℕ)
        → list_any (λ one. eq_by_cmp name_cmp name one.now) whiteouts.new.keys
        ≡ (list_any (λ one. eq_by_cmp name_cmp name one.now) whiteouts.old.keys
        || (is_white_under trees.now top name && list_any (λ one. eq_by_cmp name_cmp name one.items) names.now))) }
{
    for name in names {
        if is_whiteout_under(trees, top, name.as_slice()) {
            whiteouts.insert(name.as_slice())?;
        }
    }
    Ok(())
}

// Whether a name of a directory leads to a whiteout.
fn is_whiteout_under(trees: &Filesystems, top: MergedDirectory, name: &[u8]) -> bool
    ensures { result ≡ is_white_under trees.now top name.now }
{
    match entry_in(trees, top, name) {
        Some(found) => is_whiteout(trees, found.object),
        None => false,
    }
}

// Whether merged directories show something under a name of one of them, by the names that lead to whiteouts.
fn is_shown(
    trees: &Filesystems,
    merged: &[MergedDirectory],
    whiteouts: &IndexSet<&[u8]>,
    name: &[u8],
) -> bool
    ensures { result ≡ (not (list_any (λ one. eq_by_cmp name_cmp name.now one.now) whiteouts.now.keys)
        || is_some (shown_in (placed_views trees.now merged.now) (name.now ∷ []))) }
{
    !whiteouts.contains(&name) || shows(trees, merged, name)
}
