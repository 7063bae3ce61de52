//! What is looked at in a filesystem, a plain tree or an overlay.
ghost use Rattle.std.specs.Prelude.{◌≡◌, [], IfOk, IfSome, IsOk, IsSome, Some, map, nat_eq, not, option_copied, option_map};
ghost use Rattle.vt_spec.specs.FileTree.{is_directory_under, is_removed};
ghost use Rattle.vt_spec.specs.Lists.{is_empty_list, when};
ghost use Rattle.vt_spec.specs.Tree.{entries_in, entry_named, is_directory_node, names_in, parent_in};
ghost use Rattle.vt_location.specs.Locations.{number_of};
ghost use Rattle.vt_fs.specs.FilesystemsValue.{files_at, node_seen};
ghost use Rattle.vt_fs.specs.Laws.{LieUnderRoot, ParentsAreNamed, is_lost_under};
ghost use Rattle.vt_store.specs.StoreValue.{StandOnLayers, files_in, lent_in, root_in};

use crate::store::Store;
use std::alloc::{AllocError, Global};
use vt_fs::Filesystems;
use vt_location::{FilesystemId, NodeRef};
use vt_node::{Node, NodeId};
use vt_overlay::Entry;

impl Store {
    /// The root directory of a filesystem, if there is such a filesystem.
    pub fn root(&self, filesystem: FilesystemId) -> Option<NodeRef>
        requires { StandOnLayers self.now }
        ensures number { option_map number_of result ≡ root_in self.now filesystem.count }
        ensures filesystem { IfSome result (λ root. root.filesystem ≡ filesystem) }
    {
        match self.overlay(filesystem) {
            Some(overlay) => overlay.root(),
            None => self.plain.root(filesystem),
        }
    }

    /// The real object of a node: owner, group, mode, kind and content are the node's. Entries, parent and emptiness
    /// are `entry`, `parent` and `is_nonempty`. It does not allocate.
    #[inline(always)]
    pub fn object(&self, node: NodeRef) -> Option<&Node>
        requires { StandOnLayers self.now }
        ensures { option_copied result ≡ lent_in self.now node.filesystem.count (number_of node) }
    {
        if self.has_overlays() {
            self.any_object(copied(node))
        } else {
            self.plain.node(node)
        }
    }

    // The same where there are overlays. It is a call of its own, so that looks at plain trees stay small.
    #[inline(never)]
    fn any_object(&self, node: NodeRef) -> Option<&Node>
        requires { StandOnLayers self.now }
        ensures { option_copied result ≡ lent_in self.now node.filesystem.count (number_of node) }
    {
        match self.overlay(node.filesystem) {
            Some(overlay) => overlay.object(&self.plain, node),
            None => self.plain.node(node),
        }
    }

    /// As `object`, of a node that is there: in an overlay it is then known where.
    #[inline(always)]
    pub fn object_there(&self, node: NodeRef) -> Option<&Node>
        requires standing { StandOnLayers self.now }
        requires there { IsSome (lent_in self.now node.filesystem.count (number_of node)) }
        ensures { option_copied result ≡ lent_in self.now node.filesystem.count (number_of node) }
    {
        match self.overlay(node.filesystem) {
            Some(overlay) => overlay.object_there(&self.plain, node),
            None => self.plain.node(node),
        }
    }

    /// The node to which a name of a directory leads, of which this is the real object, and the real object of that
    /// node. It does not allocate.
    #[inline(always)]
    pub fn entry(&self, directory: NodeRef, object: &Node, name: &[u8]) -> Option<Entry<'_>>
        requires standing { StandOnLayers self.now }
        requires object { lent_in self.now directory.filesystem.count (number_of directory) ≡ Some object.now }
        ensures node { option_map (λ entry. number_of entry.node) result ≡ entry_named name.now
            (entries_in ((files_in self.now directory.filesystem.count).tree.node (number_of directory))) }
        ensures object { IfSome result (λ entry. option_copied entry.object
            ≡ lent_in self.now directory.filesystem.count (number_of entry.node)) }
    {
        if self.has_overlays() {
            let found = self.any_entry(copied(directory), object, name)?;
            Some(Entry {
                node: copied(found.node),
                object: found.object,
            })
        } else {
            plain_entry(&self.plain, directory, object, name)
        }
    }

    // The same where there are overlays.
    #[inline(never)]
    fn any_entry(&self, directory: NodeRef, object: &Node, name: &[u8]) -> Option<Entry<'_>>
        requires standing { StandOnLayers self.now }
        requires object { lent_in self.now directory.filesystem.count (number_of directory) ≡ Some object.now }
        ensures node { option_map (λ entry. number_of entry.node) result ≡ entry_named name.now
            (entries_in ((files_in self.now directory.filesystem.count).tree.node (number_of directory))) }
        ensures object { IfSome result (λ entry. option_copied entry.object
            ≡ lent_in self.now directory.filesystem.count (number_of entry.node)) }
    {
        match self.overlay(directory.filesystem) {
            Some(overlay) => overlay.entry(&self.plain, directory, name),
            None => plain_entry(&self.plain, directory, object, name),
        }
    }

    /// The parent of a directory; of anything else, itself. It does not allocate.
    pub fn parent(&self, node: NodeRef) -> NodeRef
        requires { StandOnLayers self.now }
        ensures { number_of result
            ≡ parent_in (number_of node) ((files_in self.now node.filesystem.count).tree.node (number_of node)) }
    {
        let parent = match self.overlay(node.filesystem) {
            Some(overlay) => overlay.parent(&self.plain, node),
            None => plain_parent(&self.plain, node),
        };
        match parent {
            Some(parent) => parent,
            None => node,
        }
    }

    /// Whether a directory has entries: ENOTEMPTY of rmdir(2). It does not allocate.
    pub fn is_nonempty(&self, directory: NodeRef) -> bool
        requires { StandOnLayers self.now }
        ensures { result ≡ not (is_empty_list
            (entries_in ((files_in self.now directory.filesystem.count).tree.node (number_of directory)))) }
    {
        match self.overlay(directory.filesystem) {
            Some(overlay) => overlay.is_nonempty(&self.plain, directory),
            None => has_entries(self.plain.node(directory)),
        }
    }

    /// Whether a directory is another of its filesystem, or lies under it. Directories must be named in their parents,
    /// as in every tree of a world. It does not allocate.
    pub fn is_under(&self, top: NodeRef, directory: NodeRef) -> bool
        requires standing { StandOnLayers self.now }
        requires named { ParentsAreNamed (files_in self.now top.filesystem.count).tree }
        requires one_filesystem { directory.filesystem ≡ top.filesystem }
        ensures { result ≡ is_directory_under nat_eq (files_in self.now top.filesystem.count) (number_of top)
            (number_of directory) }
    {
        match self.overlay(top.filesystem) {
            Some(overlay) => overlay.is_under(&self.plain, top, directory),
            None => self.plain.is_under(top, directory),
        }
    }

    /// Whether a directory other than the root has no name, as after rmdir(2) of a directory in use. What is no
    /// directory counts as removed. Directories must be named in their parents, as for `is_under`. It does not
    /// allocate.
    pub fn is_removed(&self, directory: NodeRef) -> bool
        requires standing { StandOnLayers self.now }
        requires named { ParentsAreNamed (files_in self.now directory.filesystem.count).tree }
        ensures { result
            ≡ is_removed nat_eq (files_in self.now directory.filesystem.count).tree (number_of directory) }
    {
        match self.overlay(directory.filesystem) {
            Some(overlay) => overlay.is_removed(&self.plain, directory),
            None => self.plain.is_removed(directory),
        }
    }

    /// Whether `..` of a directory leads nowhere on a mount with this root: the directory is removed, or does not lie
    /// under the root.
    ///
    /// A directory that is not removed must lie under the root of its filesystem, and directories must be named in
    /// their parents, as in every tree of a world. It does not allocate.
    pub fn is_lost(&self, root: NodeRef, directory: NodeRef) -> bool
        requires standing { StandOnLayers self.now }
        requires named { ParentsAreNamed (files_in self.now root.filesystem.count).tree }
        requires rooted { LieUnderRoot (files_in self.now root.filesystem.count) }
        requires one_filesystem { directory.filesystem ≡ root.filesystem }
        ensures { result
            ≡ is_lost_under (files_in self.now root.filesystem.count) (number_of root) (number_of directory) }
    {
        match self.overlay(root.filesystem) {
            Some(overlay) => {
                overlay.is_removed(&self.plain, directory)
                    || !overlay.is_under(&self.plain, root, directory)
            }
            None => self.plain.is_lost(root, directory),
        }
    }

    /// The names of a directory, in the order of their bytes: readdir(3). What is no directory has none.
    ///
    /// An empty list needs no allocation.
    pub fn names(&self, alloc: Global, directory: NodeRef) -> Result<Vec<Vec<u8>>, AllocError>
        requires { StandOnLayers self.now }
        ensures ok { IfOk result (λ names. map (λ name. name.items) names.items
            ≡ names_in ((files_in self.now directory.filesystem.count).tree.node (number_of directory))) }
        ensures empty { entries_in ((files_in self.now directory.filesystem.count).tree.node (number_of directory)) ≡ []
            → IsOk result }
    {
        match self.overlay(directory.filesystem) {
            Some(overlay) => overlay.names(alloc, &self.plain, directory),
            None => self.plain.list(directory),
        }
    }
}

// Where a name of a directory of a plain tree leads.
#[inline(always)]
fn plain_entry<'a>(
    plain: &'a Filesystems,
    directory: NodeRef,
    object: &Node,
    name: &[u8],
) -> Option<Entry<'a>>
    requires { option_map (node_seen directory.filesystem.count)
        ((files_at plain.now directory.filesystem.count).tree.node (number_of directory)) ≡ Some object.now }
    ensures node { option_map (λ entry. number_of entry.node) result ≡ entry_named name.now
        (entries_in ((files_at plain.now directory.filesystem.count).tree.node (number_of directory))) }
    ensures object { IfSome result (λ entry. option_copied entry.object
        ≡ option_map (node_seen directory.filesystem.count)
        ((files_at plain.now directory.filesystem.count).tree.node (number_of entry.node))) }
{
    let entry = object.entry(name)?;
    let node = NodeRef::new(directory.filesystem, entry);
    Some(Entry {
        node,
        object: plain.node(node),
    })
}

// Whether it is a directory with entries.
fn has_entries(node: Option<&Node>) -> bool
    ensures { result ≡ not (is_empty_list (entries_in (option_copied node.entry))) }
{
    match node {
        Some(node) => node.is_nonempty(),
        None => false,
    }
}

// A copy, for a call that is seldom made: so a walk need not keep its node in memory for that.
#[inline(always)]
fn copied(node: NodeRef) -> NodeRef
    ensures { result ≡ node }
{
    NodeRef {
        filesystem: node.filesystem,
        slot: node.slot,
        birth: node.birth,
    }
}

// The parent of a directory of a plain tree.
fn plain_parent(plain: &Filesystems, node: NodeRef) -> Option<NodeRef>
    ensures { option_map number_of result
        ≡ when (is_directory_node ((files_at plain.now node.filesystem.count).tree.node (number_of node)))
        (parent_in (number_of node) ((files_at plain.now node.filesystem.count).tree.node (number_of node))) }
{
    let directory = plain.node(node)?;
    if !directory.is_directory() {
        return None;
    }
    let parent = directory.parent(NodeId::new(node.slot));
    Some(NodeRef::new(node.filesystem, parent))
}
