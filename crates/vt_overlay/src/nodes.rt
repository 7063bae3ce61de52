//! Nodes of overlays without an upper layer: where names lead, and real objects.
ghost use Rattle.std.specs.Prelude.{◌≡◌, ◌≤◌, ◌<◌, ◌++◌, ◌∷◌, [], ℕ, IfSome, IsSome, List, None, Some, if◌then◌else◌, length, option_copied, option_map, slice_get, true};
ghost use Rattle.vt_spec.specs.declared.attributes.Kind.TheVariants.{White};
ghost use Rattle.vt_spec.specs.FileTree.{is_kind_in};
ghost use Rattle.vt_spec.specs.Lists.{when};
ghost use Rattle.vt_spec.specs.Machine.Layers.{shown};
ghost use Rattle.vt_spec.specs.Tree.{entries_in, entry_named, is_directory_node, parent_in};
ghost use Rattle.vt_location.specs.Fronts.{front};
ghost use Rattle.vt_location.specs.Locations.{inode_of, is_small_node, number_of};
ghost use Rattle.vt_location.specs.Numbers.{exchanged};
ghost use Rattle.vt_location.specs.declared.births.Birth.TheVariants.{Below};
ghost use Rattle.vt_fs.specs.FilesystemsValue.{Filesystems as Trees, files_at, node_seen};
ghost use Rattle.vt_overlay.specs.Merge.EntryValue.{IsFirstEntry};
ghost use Rattle.vt_overlay.specs.Merge.LayerValue.{layers_of, seen_of};
ghost use Rattle.vt_overlay.specs.declared.merge.layers.LayerRef.{LayerRef as Layer};
ghost use Rattle.vt_overlay.specs.declared.merge.merging.TheConstants.{MOST_LAYERS};
ghost use Rattle.vt_node.specs.Ranks.{rank_among};
ghost use Rattle.vt_overlay.specs.Alike.{real_lent};
ghost use Rattle.vt_overlay.specs.MergedTree.{AreLayers, birth_at, born_below, born_here, merged_tree, number_at, object_shown, real_in};

use crate::merge::{
    Front, LayerEntry, MergedDirectory, Real, Way, entry_in, first_entry, led_to, real_of, shown,
    slot_of, way_down,
};
use crate::overlays::{Overlay, inode_in};
use vt_fs::Filesystems;
use vt_location::{Birth, FilesystemId, InodeRef, NodeRef};
use vt_node::{Kind, Node};

/// What a name of a directory leads to: a node, and its real object.
#[derive(Clone, Copy, Debug)]
pub struct Entry<'a> {
    pub node: NodeRef,
    pub object: Option<&'a Node>,
}

impl Overlay {
    /// The root: the highest layer's directory.
    pub fn root(&self) -> Option<NodeRef>
        ensures root { (trees : Trees) → AreLayers trees self.now.lowers
            → IfSome result (λ root. number_of root ≡ (merged_tree trees self.now).root) }
        ensures own { IfSome result (λ root. root.filesystem ≡ self.now.number) }
        ensures some { 0 < length self.now.lowers → IsSome result }
    {
        let top = self.layer_at(0)?;
        Some(node_of(self.number, top.directory, Birth::Here))
    }

    /// The real object of a node, if the overlay shows it: what the layers show at its path. It does not allocate.
    pub fn object(&self, trees: &Filesystems, node: NodeRef) -> Option<Real>
        requires layers { AreLayers trees.now self.now.lowers }
        requires few { length self.now.lowers ≤ MOST_LAYERS }
        requires own { node.filesystem ≡ self.now.number }
        ensures value { option_map seen_of result ≡ object_shown trees.now self.now (number_of node) }
        ensures tree { IfSome result (λ real.
            option_map (λ layer. layer.directory.filesystem) (slice_get self.now.lowers real.layer)
            ≡ Some real.inode.filesystem) }
    {
        match node.birth {
            Birth::Here => self.root_object(trees, node.slot),
            Birth::Below {
                layer,
                directory,
                rank,
            } => self.object_below(trees, layer, directory, rank, node.slot),
        }
    }

    /// The inode of the real object of a node. Owner, group, mode, kind and content are the node's; entries and the parent
    /// are those of one layer. It does not allocate.
    pub fn inode<'a>(&self, trees: &'a Filesystems, node: NodeRef) -> Option<&'a Node>
        requires layers { AreLayers trees.now self.now.lowers }
        requires few { length self.now.lowers ≤ MOST_LAYERS }
        requires own { node.filesystem ≡ self.now.number }
        ensures alike { front (option_copied result) ≡ front ((merged_tree trees.now self.now).node (number_of node)) }
        ensures lent { option_copied result ≡ real_lent trees.now self.now (number_of node) }
    {
        let real = self.object(trees, node)?;
        real_of(trees, real)
    }

    /// As `inode`, of a node that the overlay shows: the node says where its real object is, so no way is looked for.
    pub fn inode_shown<'a>(&self, trees: &'a Filesystems, node: NodeRef) -> Option<&'a Node>
        requires layers { AreLayers trees.now self.now.lowers }
        requires few { length self.now.lowers ≤ MOST_LAYERS }
        requires own { node.filesystem ≡ self.now.number }
        requires shown { IsSome (object_shown trees.now self.now (number_of node)) }
        ensures { option_copied result ≡ real_lent trees.now self.now (number_of node) }
    {
        let shown = self.real_shown(node)?;
        real_of(trees, shown)
    }

    // The real object of the root, if that is in this slot.
    fn root_object(&self, trees: &Filesystems, slot: usize) -> Option<Real>
        requires layers { AreLayers trees.now self.now.lowers }
        requires few { length self.now.lowers ≤ MOST_LAYERS }
        ensures value { option_map seen_of result
            ≡ object_shown trees.now self.now (number_of (born_here self.now.number slot)) }
        ensures tree { IfSome result (λ real.
            option_map (λ layer. layer.directory.filesystem) (slice_get self.now.lowers real.layer)
            ≡ Some real.inode.filesystem) }
    {
        let top = self.layer_at(0)?;
        if top.directory.slot != slot {
            return None;
        }
        Some(Real {
            layer: 0,
            inode: top.directory,
        })
    }

    // The real object of a node that was born below, if that is shown where it was born.
    fn object_below(
        &self,
        trees: &Filesystems,
        layer: u16,
        directory: usize,
        rank: usize,
        slot: usize,
    ) -> Option<Real>
        requires layers { AreLayers trees.now self.now.lowers }
        requires few { length self.now.lowers ≤ MOST_LAYERS }
        ensures value { option_map seen_of result
            ≡ object_shown trees.now self.now (number_of (born_below self.now.number layer directory rank slot)) }
        ensures tree { IfSome result (λ real.
            option_map (λ layer. layer.directory.filesystem) (slice_get self.now.lowers real.layer)
            ≡ Some real.inode.filesystem) }
    {
        let lower = self.layer_at(layer)?;
        let above = inode_in(lower, directory);
        let way = way_down(trees, lower.directory, above)?;
        let node = trees.node(above.node_ref())?;
        let object = inode_in(lower, slot);
        let name = node.name_ranked(slot_of(object), rank)?;
        let real = shown(trees, self.lowers.as_slice(), &way.under(name))?;
        if real.layer != usize::from(layer) {
            return None;
        }
        Some(real)
    }

    /// What a name of a directory that is shown leads to; anything else has no names. It does not allocate. Where the
    /// highest layer with the directory has the name, no way is looked for. For a name of a file it passes over the entries
    /// of one layer's directory.
    pub fn entry<'a>(&self, trees: &'a Filesystems, node: NodeRef, name: &[u8]) -> Option<Entry<'a>>
        requires layers { AreLayers trees.now self.now.lowers }
        requires few { length self.now.lowers ≤ MOST_LAYERS }
        requires own { node.filesystem ≡ self.now.number }
        requires shown { IsSome (object_shown trees.now self.now (number_of node)) }
        ensures node { option_map (λ entry. number_of entry.node) result
            ≡ entry_named name.now (entries_in ((merged_tree trees.now self.now).node (number_of node))) }
        ensures object { IfSome result (λ entry.
            option_copied entry.object ≡ real_lent trees.now self.now (number_of entry.node)) }
    {
        let real = self.real_shown(node)?;
        let found = self.entry_under(trees, real, name)?;
        self.entry_found(trees, found, name)
    }

    // The real object of a node that is shown: the node says in which layer it is, and in which slot.
    fn real_shown(&self, node: NodeRef) -> Option<Real>
        requires few { length self.now.lowers ≤ MOST_LAYERS }
        requires own { node.filesystem ≡ self.now.number }
        ensures value { (trees : Trees) → AreLayers trees self.now.lowers
            → IsSome (object_shown trees self.now (number_of node))
            → option_map seen_of result ≡ object_shown trees self.now (number_of node) }
        ensures tree { IfSome result (λ real.
            option_map (λ layer. layer.directory.filesystem) (slice_get self.now.lowers real.layer)
            ≡ Some real.inode.filesystem) }
    {
        match node.birth {
            Birth::Here => self.real_in(0, node),
            Birth::Below { layer, .. } => self.real_in(usize::from(layer), node),
        }
    }

    // The object in the slot of a node, in a layer's tree.
    fn real_in(&self, place: usize, node: NodeRef) -> Option<Real>
        ensures value { result ≡ option_map (real_in place node.slot) (slice_get self.now.lowers place) }
        ensures small { is_small_node node ≡ true }
    {
        let lower = self.layer_in(place)?;
        Some(Real {
            layer: place,
            inode: inode_in(lower, node.slot),
        })
    }

    // The entry that decides what the layers show under a name of the directory at a path, where the highest layer with that
    // directory has this one. That layer decides where it has the name.
    fn entry_under(&self, trees: &Filesystems, real: Real, name: &[u8]) -> Option<LayerEntry>
        requires layers { AreLayers trees.now self.now.lowers }
        requires few { length self.now.lowers ≤ MOST_LAYERS }
        requires tree { option_map (λ layer. layer.directory.filesystem) (slice_get self.now.lowers real.layer)
            ≡ Some real.inode.filesystem }
        ensures first { (path : List (List ℕ))
            → shown (layers_of trees.now self.now.lowers) path ≡ Some (seen_of real)
            → IfSome result (IsFirstEntry trees.now self.now.lowers path name.now) }
        ensures nothing { (path : List (List ℕ))
            → shown (layers_of trees.now self.now.lowers) path ≡ Some (seen_of real)
            → result ≡ None → shown (layers_of trees.now self.now.lowers) (path ++ name.now ∷ []) ≡ None }
        ensures place { IfSome result (λ found. found.above.layer < length self.now.lowers) }
        ensures beside { IfSome result (λ found. found.object.filesystem ≡ found.above.directory.filesystem) }
    {
        let above = MergedDirectory {
            layer: real.layer,
            directory: real.inode,
        };
        if let Some(found) = entry_in(trees, above, name) {
            return Some(found);
        }
        let lower = self.layer_in(real.layer)?;
        let way = way_down(trees, lower.directory, real.inode)?;
        first_entry(trees, self.lowers.as_slice(), &way, name)
    }

    // The node of the entry that decides under a name of the directory at a path, unless that leads to a whiteout.
    fn entry_found<'a>(
        &self,
        trees: &'a Filesystems,
        found: LayerEntry,
        name: &[u8],
    ) -> Option<Entry<'a>>
        requires layers { AreLayers trees.now self.now.lowers }
        requires few { length self.now.lowers ≤ MOST_LAYERS }
        requires place { found.above.layer < length self.now.lowers }
        requires beside { found.object.filesystem ≡ found.above.directory.filesystem }
        ensures node { (path : List (List ℕ)) → IsFirstEntry trees.now self.now.lowers path name.now found
            → option_map (λ entry. number_of entry.node) result
            ≡ number_at trees.now self.now (path ++ name.now ∷ []) }
        ensures object { (path : List (List ℕ)) → IsFirstEntry trees.now self.now.lowers path name.now found
            → IfSome result (λ entry.
            option_copied entry.object ≡ real_lent trees.now self.now (number_of entry.node)) }
    {
        let layer = found.above.layer;
        let directory = found.above.directory;
        let object = real_of(
            trees,
            Real {
                layer,
                inode: found.object,
            },
        )?;
        if is_white(object) {
            return None;
        }
        let rank = rank_to(trees, directory, name, found.object, object);
        let birth = born_in(layer as u16, directory, rank);
        Some(Entry {
            node: node_of(self.number, found.object, birth),
            object: Some(object),
        })
    }

    /// The parent of a directory; the root is its own. It does not allocate.
    pub fn parent(&self, trees: &Filesystems, node: NodeRef) -> Option<NodeRef>
        requires layers { AreLayers trees.now self.now.lowers }
        requires few { length self.now.lowers ≤ MOST_LAYERS }
        requires own { node.filesystem ≡ self.now.number }
        ensures { option_map number_of result
            ≡ when (is_directory_node ((merged_tree trees.now self.now).node (number_of node)))
            (parent_in (number_of node) ((merged_tree trees.now self.now).node (number_of node))) }
    {
        let way = self.way(trees, node)?;
        self.node_at(trees, &Front { path: &way })
    }

    // The node that is shown at a path.
    fn node_at<W: Way>(&self, trees: &Filesystems, path: &W) -> Option<NodeRef>
        requires layers { AreLayers trees.now self.now.lowers }
        requires few { length self.now.lowers ≤ MOST_LAYERS }
        ensures { option_map number_of result ≡ number_at trees.now self.now (W.names path.now) }
    {
        let real = shown(trees, self.lowers.as_slice(), path)?;
        let birth = self.birth_at(trees, real, path)?;
        Some(node_of(self.number, real.inode, birth))
    }

    // Where the node was born that is shown at a path.
    fn birth_at<W: Way>(&self, trees: &Filesystems, real: Real, path: &W) -> Option<Birth>
        requires layers { AreLayers trees.now self.now.lowers }
        requires few { length self.now.lowers ≤ MOST_LAYERS }
        requires is { shown (layers_of trees.now self.now.lowers) (W.names path.now) ≡ Some (seen_of real) }
        requires tree { option_map (λ layer. layer.directory.filesystem) (slice_get self.now.lowers real.layer)
            ≡ Some real.inode.filesystem }
        ensures { (lower : Layer) → slice_get self.now.lowers real.layer ≡ Some lower
            → result ≡ Some (birth_at trees.now real.layer lower (W.names path.now)) }
    {
        if path.len() == 0 {
            return Some(Birth::Here);
        }
        let lower = self.layer_in(real.layer)?;
        let directory = led_to(trees, lower.directory, &Front { path })?;
        let name = path.name(path.len() - 1);
        let rank = rank_in(trees, directory, name, real.inode);
        let layer = real.layer as u16;
        Some(born_in(layer, directory, rank))
    }
}

// Whether an inode is a whiteout.
fn is_white(node: &Node) -> bool
    ensures { (filesystem : ℕ) → result ≡ is_kind_in White (Some (node_seen filesystem node.now)) }
{
    node.kind() == Kind::White
}

// A node of an overlay, in the slot of its real object.
fn node_of(overlay: FilesystemId, inode: InodeRef, birth: Birth) -> NodeRef
    ensures is { result ≡ record { filesystem = overlay; slot = inode.slot; birth = birth } }
    ensures slot { exchanged inode.filesystem.count (inode_of inode) ≡ inode.slot }
{
    NodeRef {
        filesystem: overlay,
        slot: inode.slot,
        birth,
    }
}

// A birth in a directory of a layer.
fn born_in(layer: u16, directory: InodeRef, rank: usize) -> Birth
    ensures is { result ≡ Below layer directory.slot rank }
    ensures slot { exchanged directory.filesystem.count (inode_of directory) ≡ directory.slot }
{
    Birth::Below {
        layer,
        directory: directory.slot,
        rank,
    }
}

// The rank of a name of a directory; to a directory leads one name.
fn rank_in(trees: &Filesystems, directory: InodeRef, name: &[u8], object: InodeRef) -> usize
    requires { object.filesystem ≡ directory.filesystem }
    ensures { result
        ≡ (if is_directory_node ((files_at trees.now object.filesystem.count).tree.node (inode_of object)) then 0
        else rank_among (entries_in ((files_at trees.now directory.filesystem.count).tree.node (inode_of directory)))
        name.now (inode_of object)) }
{
    match trees.node(object.node_ref()) {
        Some(node) => rank_to(trees, directory, name, object, node),
        None => rank_of(trees, directory, name, object),
    }
}

// The same, of the inode that is the object.
fn rank_to(
    trees: &Filesystems,
    directory: InodeRef,
    name: &[u8],
    object: InodeRef,
    node: &Node,
) -> usize
    requires beside { object.filesystem ≡ directory.filesystem }
    requires node { Some (node_seen object.filesystem.count node.now)
        ≡ (files_at trees.now object.filesystem.count).tree.node (inode_of object) }
    ensures { result
        ≡ (if is_directory_node ((files_at trees.now object.filesystem.count).tree.node (inode_of object)) then 0
        else rank_among (entries_in ((files_at trees.now directory.filesystem.count).tree.node (inode_of directory)))
        name.now (inode_of object)) }
{
    if node.is_directory() {
        0
    } else {
        rank_of(trees, directory, name, object)
    }
}

// How many smaller names of a directory lead to the same object.
fn rank_of(trees: &Filesystems, directory: InodeRef, name: &[u8], object: InodeRef) -> usize
    requires { object.filesystem ≡ directory.filesystem }
    ensures { result
        ≡ rank_among (entries_in ((files_at trees.now directory.filesystem.count).tree.node (inode_of directory)))
        name.now (inode_of object) }
{
    match trees.node(directory.node_ref()) {
        Some(node) => node.rank_of(name, slot_of(object)),
        None => 0,
    }
}
