//! How a copy is planned: what the upper layer lacks on the way to an object, and what the layers show there.
ghost use Rattle.std.specs.Prelude.{◌≡◌, ◌+◌, ◌++◌, ◌-◌, ◌<◌, ◌≤◌, ◌∷◌, [], IfOk, IfSome, IsSome, List, None, OnErr, OnOk, Some, false, if◌then◌else◌, length, reverse, slice_get, take, true, ℕ};
ghost use Rattle.vt_spec.specs.Machine.Layers.{at_path, shown};
ghost use Rattle.vt_spec.specs.Tree.{entries_in, is_directory_node};
ghost use Rattle.vt_spec.specs.TreeInvariant.{entry_at, led};
ghost use Rattle.vt_node.specs.Ranks.{rank_among};
ghost use Rattle.vt_location.specs.Locations.{inode_of};
ghost use Rattle.vt_location.specs.Numbers.{exchanged};
ghost use Rattle.vt_location.specs.declared.births.Birth.TheVariants.{Below};
ghost use Rattle.vt_fs.specs.FilesystemsValue.{files_at, giving_back, node_seen, promising, with_changed};
ghost use Rattle.vt_overlay.specs.Merge.LayerValue.{layers_of, opened};
ghost use Rattle.vt_overlay.specs.MergedTree.{AreLayers};
ghost use Rattle.vt_overlay.specs.declared.merge.layers.LayerRef.{LayerRef as Layer};
ghost use Rattle.vt_overlay.specs.declared.merge.merging.TheConstants.{MOST_LAYERS};
ghost use Rattle.vt_births.specs.Births.{BirthsValue};
ghost use Rattle.vt_copyup.specs.Planned.{AreBirthsOf, AreCopiesFrom, IsCopyIn, IsPlanOf, names_of};
ghost use Rattle.vt_copyup.specs.Plans.{AreNested, IsReady, many};

use crate::copied::CopiedNode;
use crate::plans::{Piece, Plan, PlannedCopy};
use std::alloc::{AllocError, Global};
use vt_births::Births;
use vt_fs::Filesystems;
use vt_location::{Birth, FilesystemId, InodeRef, NodeRef};
use vt_node::{EntryRoom, Node, copied_bytes};
use vt_overlay::{LayerEntry, LayerRef, MergedDirectory, Way, entry_in, first_entry, slot_of};

/// The overlay from which is copied: its layers, the upper one first, and whether files are copied with their bytes.
#[derive(Clone, Copy)]
pub struct Source<'a> {
    pub trees: &'a Filesystems,
    pub layers: &'a [LayerRef],
    pub overlay: FilesystemId,
    pub with_bytes: bool,
}

/// Plans the copies of the object at a path and of its missing parents. It allocates all that they own, so that they can
/// be made where nothing may fail, once their inodes and births are promised (`promise`). Nothing changes.
///
/// A file that is to be written whole is copied without its bytes. `room` is kept from plan to plan, so that a plan in a large
/// directory mostly finds the room that an earlier one made. It fails only if an allocation does.
pub fn plan<W: Way>(
    alloc: Global,
    source: Source<'_>,
    room: &mut EntryRoom,
    path: &W,
) -> Result<Plan, AllocError>
    requires layers { AreLayers source.trees.now source.layers.now }
    requires upper { 0 < length source.layers.now }
    requires few { length source.layers.now ≤ MOST_LAYERS }
    requires shown { IsSome (shown (layers_of source.trees.now source.layers.now) (W.names path.now)) }
    ensures planned { (upper : Layer) (lowers : List Layer) → source.entry.layers.now ≡ upper ∷ lowers
        → IfOk result (λ plan. IsPlanOf source.entry.with_bytes source.entry.trees.now upper lowers source.entry.overlay
        (W.names path.now) plan) }
    ensures ready { (births : BirthsValue) (inodes more : ℕ)
        → AreBirthsOf source.entry.trees.now source.entry.layers.now source.entry.overlay births
        → IfOk result (λ plan. many plan ≤ inodes → many plan ≤ more → IsReady plan
        (with_changed plan.directory.filesystem.count (promising inodes) source.entry.trees.now)
        (record births { promised = births.promised + more }) room.new) }
    ensures room { room.old ≤ room.new }
{
    let upper = upper_of(source.layers);
    let led = led_above(source.trees, upper.directory, path);
    let pieces = pieces_from(alloc, source, path, led.names)?;
    room_for_first(source.trees, led.inode, pieces.len(), room)?;
    Ok(Plan {
        directory: led.inode,
        pieces,
    })
}

// The upper layer is the first.
fn upper_of(layers: &[LayerRef]) -> LayerRef
    requires { 0 < length layers.now }
    ensures { slice_get layers.now 0 ≡ Some result }
{
    layers[0]
}

// Makes room for the name of the first copy in the directory that exists, if anything is copied.
fn room_for_first(
    trees: &Filesystems,
    directory: InodeRef,
    copies: usize,
    room: &mut EntryRoom,
) -> Result<(), AllocError>
    ensures ok { 0 < copies → OnOk result (length (entries_in
        ((files_at trees.now directory.filesystem.count).tree.node (inode_of directory))) < room.new) }
    ensures kept { room.old ≤ room.new }
{
    if copies == 0 {
        return Ok(());
    }
    trees.make_room(directory.node_ref(), 1, room)
}

/// Promises inodes of the upper layer's filesystem, and births of copies, for all that a call plans. It must be applied, or
/// given back.
pub fn promise(
    trees: &mut Filesystems,
    births: &mut Births,
    upper: FilesystemId,
    inodes: usize,
    copies: usize,
) -> Result<(), AllocError>
    ensures inodes { IfOk result (λ done. trees.new ≡ with_changed upper.count (promising inodes) trees.old) }
    ensures births { IfOk result (λ done. births.new
        ≡ record births.old { promised = births.old.promised + copies }) }
    ensures err { OnErr result (trees.new ≡ trees.old) }
    ensures err_births { OnErr result (births.new ≡ births.old) }
{
    trees.promise(upper, inodes)?;
    if births.promise(copies).is_err() {
        trees.give_back(upper, inodes);
        return Err(AllocError);
    }
    Ok(())
}

/// Gives back what was promised: nothing is made. It does not allocate.
pub fn give_back(
    trees: &mut Filesystems,
    births: &mut Births,
    filesystem: FilesystemId,
    inodes: usize,
    copies: usize,
)
    ensures trees { trees.new ≡ with_changed filesystem.count (giving_back inodes) trees.old }
    ensures births { births.new ≡ record births.old { promised = births.old.promised - copies } }
{
    trees.give_back(filesystem, inodes);
    births.give_back(copies);
}

// How many names of a path the upper layer has, and where they lead there.
#[derive(Clone, Copy, Debug)]
struct Led {
    names: usize,
    inode: InodeRef,
}

// The longest prefix of a path that leads somewhere from a directory.
fn led_above<W: Way>(trees: &Filesystems, directory: InodeRef, path: &W) -> Led
    ensures leads { at_path (opened trees.now directory) (take result.names (W.names path.now))
        ≡ Some (inode_of result.inode) }
    ensures filesystem { result.inode.filesystem ≡ directory.filesystem }
    ensures many { result.names ≤ length (W.names path.now) }
    ensures end { (name : List ℕ) → slice_get (W.names path.now) result.names ≡ Some name
        → entry_at (opened trees.now directory).tree (inode_of result.inode) name ≡ None }
{
    let mut here = directory;
    for index in 0..path.len() {
        let above = MergedDirectory {
            layer: 0,
            directory: here,
        };
        let Some(found) = entry_in(trees, above, path.name(index)) else {
            return Led {
                names: index,
                inode: here,
            };
        };
        here = found.object;
    }
    Led {
        names: path.len(),
        inode: here,
    }
}

// The copies of what is shown at each prefix of a path that is longer than this one, the longest first.
fn pieces_from<W: Way>(
    alloc: Global,
    source: Source<'_>,
    path: &W,
    start: usize,
) -> Result<Vec<Piece>, AllocError>
    requires layers { AreLayers source.trees.now source.layers.now }
    requires few { length source.layers.now ≤ MOST_LAYERS }
    requires shown { IsSome (shown (layers_of source.trees.now source.layers.now) (W.names path.now)) }
    requires start { start ≤ length (W.names path.now) }
    requires nowhere { (upper : Layer) → slice_get source.layers.now 0 ≡ Some upper
        → start < length (W.names path.now)
        → at_path (opened source.trees.now upper.directory) (take (start + 1) (W.names path.now)) ≡ None }
    ensures copies { IfOk result (λ pieces.
        AreCopiesFrom source.entry.with_bytes source.entry.trees.now source.entry.layers.now source.entry.overlay
        (take start (W.names path.now)) (reverse pieces.items)) }
    ensures whole { IfOk result (λ pieces.
        take start (W.names path.now) ++ names_of (reverse pieces.items) ≡ W.names path.now) }
    ensures nested { IfOk result (λ pieces. AreNested (reverse pieces.items)) }
{
    let mut pieces = Vec::new(alloc);
    let mut index = path.len();
    while index > start {
        index -= 1;
        let copy = copy_at(alloc, source, path, index)?;
        let room = room_of_copy(alloc, index > start)?;
        pieces.push(Piece { copy, room })?;
    }
    Ok(pieces)
}

// Room for one name in a directory that is copied. For a directory that exists, none is made here.
fn room_of_copy(alloc: Global, is_copied: bool) -> Result<EntryRoom, AllocError>
    ensures { is_copied ≡ true → IfOk result (λ room. 0 < room) }
{
    let mut room = EntryRoom::new(alloc);
    if is_copied {
        room.reserve(1)?;
    }
    Ok(room)
}

// A prefix of a path, of so many names.
#[derive(Clone, Copy, Debug)]
struct Start<'a, W: Way> {
    path: &'a W,
    len: usize,
}

impl<'a, W: Way> Way for Start<'a, W> {
    ghost names = { λ way. take way.len (W.names way.path.now) };

    fn len(&self) -> usize {
        self.len.min(self.path.len())
    }

    fn name(&self, index: usize) -> &[u8] {
        self.path.name(index)
    }
}

// The copy of what is shown at the prefix of a path with one name more.
fn copy_at<W: Way>(
    alloc: Global,
    source: Source<'_>,
    path: &W,
    index: usize,
) -> Result<PlannedCopy, AllocError>
    requires layers { AreLayers source.trees.now source.layers.now }
    requires few { length source.layers.now ≤ MOST_LAYERS }
    requires name { index < length (W.names path.now) }
    requires shown { IsSome (shown (layers_of source.trees.now source.layers.now)
        (take (index + 1) (W.names path.now))) }
    requires nowhere { (upper : Layer) → slice_get source.layers.now 0 ≡ Some upper
        → at_path (opened source.trees.now upper.directory) (take (index + 1) (W.names path.now)) ≡ None }
    ensures copy { IfOk result (IsCopyIn source.entry.with_bytes source.entry.trees.now source.entry.layers.now
        source.entry.overlay (take index (W.names path.now))) }
    ensures name { IfOk result (λ copy. slice_get (W.names path.now) index ≡ Some copy.name.items) }
{
    let trees = source.trees;
    let name = path.name(index);
    let front = Start { path, len: index };
    let Some(found) = first_entry(trees, source.layers, &front, name) else {
        unreachable!();
    };
    let Some(node) = trees.node(found.object.node_ref()) else {
        unreachable!();
    };
    Ok(PlannedCopy {
        name: copied_bytes(alloc, name)?,
        node: CopiedNode::of(alloc, node, source.with_bytes)?,
        born: born_below(trees, source.overlay, found, name, node),
    })
}

// The node that was born at an entry of a lower layer. Births count the lower layers alone.
fn born_below(
    trees: &Filesystems,
    overlay: FilesystemId,
    found: LayerEntry,
    name: &[u8],
    node: &Node,
) -> NodeRef
    requires lower { 0 < found.above.layer }
    requires few { found.above.layer < MOST_LAYERS }
    requires beside { found.object.filesystem ≡ found.above.directory.filesystem }
    requires node { Some (node_seen found.object.filesystem.count node.now)
        ≡ (files_at trees.now found.object.filesystem.count).tree.node (inode_of found.object) }
    ensures overlay { result.filesystem ≡ overlay }
    ensures slot { result.slot ≡ found.object.slot }
    ensures birth { (place : ℕ) → place + 1 ≡ found.above.layer → result.birth
        ≡ Below place found.above.directory.slot
        (if is_directory_node ((files_at trees.now found.object.filesystem.count).tree.node (inode_of found.object))
        then 0 else rank_among (entries_in ((files_at trees.now found.above.directory.filesystem.count).tree.node
        (inode_of found.above.directory))) name.now (inode_of found.object)) }
    ensures object_slot { exchanged found.object.filesystem.count (inode_of found.object) ≡ found.object.slot }
    ensures directory_slot { exchanged found.above.directory.filesystem.count (inode_of found.above.directory)
        ≡ found.above.directory.slot }
{
    let directory = found.above.directory;
    let rank = if node.is_directory() {
        0
    } else {
        rank_of(trees, directory, name, found.object)
    };
    let layer = (found.above.layer - 1) as u16;
    NodeRef {
        filesystem: overlay,
        slot: found.object.slot,
        birth: Birth::Below {
            layer,
            directory: directory.slot,
            rank,
        },
    }
}

// How many smaller names of a directory lead to the same object.
fn rank_of(trees: &Filesystems, directory: InodeRef, name: &[u8], object: InodeRef) -> usize
    requires { object.filesystem ≡ directory.filesystem }
    ensures { result
        ≡ rank_among (entries_in ((files_at trees.now directory.filesystem.count).tree.node (inode_of directory)))
        name.now (inode_of object) }
{
    match trees.node(directory.node_ref()) {
        Some(node) => node.rank_of(name, slot_of(object)),
        None => 0,
    }
}
