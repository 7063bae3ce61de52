//! `Filesystems`, and the calls that look at them and change them.
ghost use Rattle.std.specs.Prelude.{◌≡◌, ℕ, [], ◌+◌, ◌-◌, ◌++◌, ◌∷◌, ◌↔◌, ◌≤◌, nat_eq, nat_le, ◌&&◌, length, map, drop, take, true, false, nat_lt, None, Some, IfOk, IfSome, IsOk, IsTrue, OnOk, OnErr, ◌<◌, is_some, option_copied, option_map, slice_get, IsErr};
ghost use Rattle.std.specs.Option.{option_copied_mut};
ghost use Rattle.std.specs.Borrow.{sem};
ghost use Rattle.std.specs.List.{list_all};
ghost use Rattle.std.specs.Map.{lookup};
ghost use Rattle.vt_spec.specs.declared.attributes.Kind.TheVariants.{File};
ghost use Rattle.vt_spec.specs.FileTree.{is_directory_under, is_kind_in, is_removed};
ghost use Rattle.vt_spec.specs.Fits.{MayReplace, StaysOutside};
ghost use Rattle.vt_spec.specs.Inodes.{changed, pinned, unpinned, uses_in};
ghost use Rattle.vt_spec.specs.Language.Changes.Change.{AddName, Make, Move, Remove, SetAttr, SetBytes, SetMark};
ghost use Rattle.vt_spec.specs.Language.Limits.{largest_file};
ghost use Rattle.vt_spec.specs.Laws.Trees.{IsNewIn};
ghost use Rattle.vt_spec.specs.Lists.{any_pair, holds_of};
ghost use Rattle.vt_spec.specs.Machine.Descriptors.{overwritten};
ghost use Rattle.vt_spec.specs.Tree.{bytes_in, entries_in, is_directory_node, names_in};
ghost use Rattle.vt_spec.specs.TreeInvariant.{IsDirectory, entry_at as number_at};
ghost use Rattle.vt_fs.specs.FilesystemsValue.{seen_in};
ghost use Rattle.vt_fs.specs.Trees.TreeValue.{inodes_of};
ghost use Rattle.vt_location.specs.Locations.{number_of};
ghost use Rattle.vt_location.specs.declared.births.Birth.TheVariants.{Here};
ghost use Rattle.vt_location.specs.Numbers.{exchanged, most_counted};

use crate::tree::Tree;
use indexmap::IndexMap;
use std::alloc::{AllocError, Global};
use std::marker::Model;
use vt_location::{Birth, FilesystemId, NodeRef};
use vt_node::{Attr, NewNode, Node, NodeId};

// A filesystem, and how many mounts show it.
#[derive(Debug, Drop)]
struct Filesystem {
    tree: Tree,
    mounts: u64,
}

impl Filesystem {
    ghost use Rattle.std.specs.Borrow.{Lends};
    ghost use Rattle.vt_fs.specs.contracts.tree.trees.Tree.{the_row as tree_row};
    ghost use Rattle.vt_fs.specs.FilesystemsValue.{held_with_tree};
    ghost use Rattle.vt_fs.specs.contracts.filesystems.Filesystem.{the_row};

    // Its tree, for a change.
    fn tree_mut(&mut self) -> &mut Tree
        ensures* lends { sem 𝓛 (Lends the_row tree_row self.entry result (held_with_tree self.old)) }
        ensures value { result.now ≡ self.old.tree }
    {
        &mut self.tree
    }

    // Counts one more use of a root, and one more mount.
    #[inline(always)]
    fn hold_root(&mut self, root: NodeRef) -> Result<(), AllocError>
        ensures tree { OnOk result (seen_in root.filesystem.count self.new.tree
            ≡ pinned nat_eq (seen_in root.filesystem.count self.old.tree) (number_of root)) }
        ensures mounts { OnOk result (self.new.mounts ≡ self.old.mounts + 1) }
        ensures few { self.old.mounts < most_counted
            → uses_in ((seen_in root.filesystem.count self.old.tree).inode (number_of root)) < most_counted → IsOk result }
        ensures err { OnErr result (self.new ≡ self.old) }
    {
        if self.mounts == u64::MAX {
            return Err(AllocError);
        }
        if let Some(slot) = slot_in(&self.tree, root.filesystem, root) {
            self.tree.pin(slot)?;
        }
        self.mounts += 1;
        Ok(())
    }

    // Takes back one use of a root, and one mount; a count of 0 stays 0.
    #[inline(always)]
    fn leave_root(&mut self, root: NodeRef)
        ensures tree { seen_in root.filesystem.count self.new.tree
            ≡ unpinned nat_eq (seen_in root.filesystem.count self.old.tree) (number_of root) }
        ensures mounts { self.new.mounts ≡ self.old.mounts - 1 }
    {
        if let Some(slot) = slot_in(&self.tree, root.filesystem, root) {
            self.tree.unpin(slot);
        }
        self.mounts = self.mounts.saturating_sub(1);
    }
}

// The filesystem of a number. The first one is mostly the root filesystem, where most walks are: it is compared before
// a hash is taken.
#[inline(always)]
fn found_under(
    by_number: &IndexMap<FilesystemId, Filesystem>,
    id: FilesystemId,
) -> Option<&Filesystem>
    ensures { option_copied result ≡ lookup (λ other. nat_eq id.count other.count) by_number.now.entries }
{
    match by_number.first() {
        Some((first, found)) if *first == id => Some(found),
        _ => by_number.get(&id),
    }
}

// Whether the first filesystem has this number.
#[inline(always)]
fn is_first(by_number: &IndexMap<FilesystemId, Filesystem>, id: FilesystemId) -> bool
    ensures { result ≡ holds_of (λ entry. nat_eq entry.0.count id.count) (slice_get by_number.now.entries 0) }
{
    match by_number.first() {
        Some((first, _)) => *first == id,
        None => false,
    }
}

/// The plain filesystems. Each is a tree of inodes in slots of its own.
///
/// They are kept by hash, in no order, so that making one and removing one cost the same however many there are; their
/// numbers keep the order in which they were made.
///
/// In a filesystem that does not exist, and at a node that was born below a layer, there is nothing to read, and a change
/// of bytes, attributes or uses has no effect.
#[derive(Debug, Drop)]
pub struct Filesystems {
    by_number: IndexMap<FilesystemId, Filesystem>,
}

impl Model for Filesystems {
    ghost use Rattle.vt_fs.specs.FilesystemsValue.{Filesystems as Entries, held};

    ghost Value = { Entries };

    ghost view = { λ f. held f.by_number.entries };
}

impl Filesystems {
    ghost use Rattle.vt_fs.specs.FilesystemsValue.{FilesystemEntry, ChangesInodes, HoldsRoot, IsNew, LeavesRoot, entry_at, entry_of, files_at, inodes_at, inodes_seen, next_seen, node_seen, with_changed, without};
    ghost use Rattle.vt_fs.specs.Laws.{LieUnderRoot, ParentsAreNamed, is_lost_under};
    ghost use Rattle.vt_fs.specs.Lends.{lends_tree};

    /// No filesystems. It does not allocate.
    pub fn new(alloc: Global) -> Self
        ensures { result ≡ [] }
    {
        Filesystems {
            by_number: IndexMap::new(alloc),
        }
    }

    /// How many filesystems there are.
    pub fn len(&self) -> usize
        ensures { result ≡ length self.now }
    {
        self.by_number.len()
    }

    /// The tree of a filesystem, with its inodes in their slots.
    #[inline(always)]
    pub fn get(&self, filesystem: FilesystemId) -> Option<&Tree>
        ensures { option_copied result ≡ option_map (λ entry. entry.tree) (entry_of self.now filesystem.count) }
    {
        let found = found_under(&self.by_number, filesystem)?;
        Some(&found.tree)
    }

    // The tree of a filesystem, to be changed. The first one is compared before a hash is taken, as in `found_under`. No
    // two filesystems have one number (`apart`).
    pub(crate) fn get_mut(&mut self, filesystem: FilesystemId) -> Option<&mut Tree>
        ensures* writes_back { sem 𝓛 (lends_tree self.entry filesystem.count result) }
        ensures value { option_copied_mut result
            ≡ option_map (λ entry. entry.tree) (entry_of self.old filesystem.count) }
        ensures apart { any_pair (λ a b. nat_eq a.count b.count) self.old ≡ false }
    {
        if is_first(&self.by_number, filesystem) {
            return match self.by_number.get_index_mut(0) {
                Some(found) => Some(found.tree_mut()),
                None => None,
            };
        }
        match self.by_number.get_mut(&filesystem) {
            Some(found) => Some(found.tree_mut()),
            None => None,
        }
    }

    // The slot of a node in the tree of its filesystem.
    pub(crate) fn slot_of(&self, node: NodeRef) -> Option<NodeId>
        ensures value { IfSome result (λ slot. slot ≡ node.slot) }
        ensures number { IfSome result (λ slot. exchanged node.filesystem.count slot ≡ number_of node) }
        ensures nowhere { result ≡ None
            → (inodes_at self.now node.filesystem.count).inode (number_of node) ≡ None }
    {
        let tree = self.get(node.filesystem)?;
        slot_in(tree, node.filesystem, node)
    }

    /// The node of an inode, its entries and its parent by slots.
    #[inline(always)]
    pub fn node(&self, inode: NodeRef) -> Option<&Node>
        ensures { option_map (node_seen inode.filesystem.count) (option_copied result)
            ≡ (files_at self.now inode.filesystem.count).tree.node (number_of inode) }
    {
        let tree = self.get(inode.filesystem)?;
        let slot = slot_in(tree, inode.filesystem, inode)?;
        tree.node(slot)
    }

    /// The root directory of a filesystem.
    pub fn root(&self, filesystem: FilesystemId) -> Option<NodeRef>
        ensures number { option_map number_of result
            ≡ option_map (λ entry. (inodes_seen entry).root) (entry_of self.now filesystem.count) }
        ensures filesystem { IfSome result (λ root. root.filesystem ≡ filesystem) }
    {
        let tree = self.get(filesystem)?;
        Some(in_slot(filesystem, tree.root()))
    }

    /// How often an inode is in use: the names that lead to it, and what is pinned.
    #[inline(always)]
    pub fn uses(&self, inode: NodeRef) -> u64
        ensures { result ≡ uses_in ((inodes_at self.now inode.filesystem.count).inode (number_of inode)) }
    {
        let Some(tree) = self.get(inode.filesystem) else {
            return 0;
        };
        match slot_in(tree, inode.filesystem, inode) {
            Some(slot) => tree.uses(slot),
            None => 0,
        }
    }

    /// Whether a directory is another of its filesystem, or lies under it: going up by parents meets that one.
    ///
    /// Directories must be named in their parents, as in every tree of a world (`trees_name_parents`).
    pub fn is_under(&self, top: NodeRef, directory: NodeRef) -> bool
        requires named { ParentsAreNamed (files_at self.now top.filesystem.count).tree }
        requires one_filesystem { directory.filesystem ≡ top.filesystem }
        ensures { result
            ≡ is_directory_under nat_eq (files_at self.now top.filesystem.count) (number_of top) (number_of directory) }
    {
        let Some(upper) = self.slot_of(top) else {
            return top.is_same(directory);
        };
        let Some(lower) = self.slot_of(directory) else {
            return top.is_same(directory);
        };
        match self.get(top.filesystem) {
            Some(tree) => tree.is_under(upper, lower),
            None => top.is_same(directory),
        }
    }

    /// Whether a directory other than the root has no name, as after rmdir(2) of a directory in use. What is no
    /// directory counts as removed. Directories must be named in their parents, as for `is_under`.
    pub fn is_removed(&self, directory: NodeRef) -> bool
        requires named { ParentsAreNamed (files_at self.now directory.filesystem.count).tree }
        ensures { result ≡ is_removed nat_eq (files_at self.now directory.filesystem.count).tree (number_of directory) }
    {
        let Some(tree) = self.get(directory.filesystem) else {
            return true;
        };
        if directory.is_same(in_slot(directory.filesystem, tree.root())) {
            return false;
        }
        match slot_in(tree, directory.filesystem, directory) {
            Some(slot) => slot == tree.parent(slot),
            None => true,
        }
    }

    /// Whether `..` of a directory leads nowhere on a mount with this root: the directory is removed, or does not lie
    /// under the root.
    ///
    /// A directory that is not removed must lie under the root of its filesystem, as in every tree of a world: so only a
    /// mount of a part of the filesystem goes up by parents. Directories must be named in their parents, as for
    /// `is_under`.
    pub fn is_lost(&self, root: NodeRef, directory: NodeRef) -> bool
        requires named { ParentsAreNamed (files_at self.now root.filesystem.count).tree }
        requires rooted { LieUnderRoot (files_at self.now root.filesystem.count) }
        requires one_filesystem { directory.filesystem ≡ root.filesystem }
        ensures { result
            ≡ is_lost_under (files_at self.now root.filesystem.count) (number_of root) (number_of directory) }
    {
        if self.is_removed(directory) {
            return true;
        }
        match self.root(root.filesystem) {
            Some(top) if top.is_same(root) => false,
            _ => !self.is_under(root, directory),
        }
    }

    /// The number that the next inode of a filesystem gets, which no inode has.
    pub fn next_number(&self, filesystem: FilesystemId) -> Option<NodeRef>
        ensures number { option_map number_of result ≡ option_map next_seen (entry_of self.now filesystem.count) }
        ensures filesystem { IfSome result (λ next. next.filesystem ≡ filesystem) }
        ensures birth { IfSome result (λ next. next.birth ≡ Here) }
        ensures vacant { IfSome result (λ next. (inodes_at self.now filesystem.count).inode (number_of next) ≡ None) }
    {
        let tree = self.get(filesystem)?;
        Some(in_slot(filesystem, tree.next_number()))
    }

    /// Makes a filesystem of one empty directory, which no mount shows yet. Its number is above all that are there.
    pub fn add(&mut self, filesystem: FilesystemId, attr: Attr) -> Result<(), AllocError>
        requires { list_all (λ entry. nat_lt entry.count filesystem.count) self.old ≡ true }
        ensures ok { OnOk result
            ((entry : FilesystemEntry) × (self.new ≡ self.old ++ entry ∷ []) × IsNew filesystem.count attr entry) }
        ensures err { OnErr result (self.new ≡ self.old) }
    {
        let alloc = *self.by_number.allocator();
        let tree = Tree::new(alloc, attr)?;
        self.by_number
            .insert(filesystem, Filesystem { tree, mounts: 0 })?;
        Ok(())
    }

    /// Removes a filesystem with all its inodes, whatever mounts show it. It does not allocate.
    pub fn remove(&mut self, filesystem: FilesystemId)
        ensures { self.new ≡ without filesystem.count self.old }
    {
        self.by_number.swap_remove(&filesystem);
    }

    /// How many mounts show a filesystem.
    #[inline(always)]
    pub fn mounts(&self, filesystem: FilesystemId) -> u64
        ensures { result ≡ (entry_at self.now filesystem.count).mounts }
    {
        match self.by_number.get(&filesystem) {
            Some(found) => found.mounts,
            None => 0,
        }
    }

    /// Counts one more mount of a filesystem. It does not allocate.
    ///
    /// An error says that it has 2^64 - 1 mounts.
    #[inline(always)]
    pub fn hold_mount(&mut self, filesystem: FilesystemId) -> Result<(), AllocError>
        ensures ok { OnOk result
            (self.new ≡ with_changed filesystem.count (λ entry. record entry { mounts = entry.mounts + 1 }) self.old) }
        ensures limit { IsErr result ↔ ((entry_at self.old filesystem.count).mounts ≡ most_counted) }
        ensures err { OnErr result (self.new ≡ self.old) }
    {
        if self.mounts(filesystem) == u64::MAX {
            return Err(AllocError);
        }
        if let Some(found) = self.by_number.get_mut(&filesystem) {
            found.mounts += 1;
        }
        Ok(())
    }

    /// Takes back a mount that `hold_mount` counted; a count of 0 stays 0. It does not allocate.
    #[inline(always)]
    pub fn release_mount(&mut self, filesystem: FilesystemId)
        ensures { self.new ≡ with_changed filesystem.count
            (λ entry. record entry { mounts = entry.mounts - 1 }) self.old }
    {
        if let Some(found) = self.by_number.get_mut(&filesystem) {
            found.mounts = found.mounts.saturating_sub(1);
        }
    }

    /// Whether the root of a mount and its filesystem have no more uses than so many.
    #[inline(always)]
    pub fn root_has_room(&self, root: NodeRef, most: u64) -> bool
        ensures { result
            ≡ (nat_le (uses_in ((inodes_at self.now root.filesystem.count).inode (number_of root))) most
            && nat_le (entry_at self.now root.filesystem.count).mounts most) }
    {
        let Some(found) = found_under(&self.by_number, root.filesystem) else {
            return true;
        };
        uses_of(&found.tree, root) <= most && found.mounts <= most
    }

    /// Counts one more use of the root of a mount, and one more mount of its filesystem. It does not allocate.
    ///
    /// An error says that one of the two counts is 2^64 - 1.
    #[inline(always)]
    pub fn hold_root(&mut self, root: NodeRef) -> Result<(), AllocError>
        ensures ok { OnOk result (HoldsRoot root.filesystem.count (number_of root) self.old self.new) }
        ensures few { (entry_at self.old root.filesystem.count).mounts < most_counted
            → uses_in ((inodes_at self.old root.filesystem.count).inode (number_of root)) < most_counted → IsOk result }
        ensures err { OnErr result (self.new ≡ self.old) }
    {
        match self.by_number.get_mut(&root.filesystem) {
            Some(found) => found.hold_root(root),
            None => Ok(()),
        }
    }

    /// Takes back one use of the root of a mount, and one mount of its filesystem, which is removed with its last mount. A
    /// count of 0 stays 0. It does not allocate.
    #[inline(always)]
    pub fn leave_root(&mut self, root: NodeRef)
        ensures { LeavesRoot root.filesystem.count (number_of root) self.old self.new }
    {
        let Some(found) = self.by_number.get_mut(&root.filesystem) else {
            return;
        };
        found.leave_root(root);
        if found.mounts == 0 {
            self.remove(root.filesystem);
        }
    }

    /// The names of a directory, in the order of their bytes: readdir(3). What is no directory has none.
    ///
    /// An empty list needs no allocation.
    pub fn list(&self, directory: NodeRef) -> Result<Vec<Vec<u8>>, AllocError>
        ensures ok { IfOk result (λ names. map (λ name. name.items) names.items
            ≡ names_in ((files_at self.now directory.filesystem.count).tree.node (number_of directory))) }
        ensures empty { entries_in ((files_at self.now directory.filesystem.count).tree.node (number_of directory)) ≡ []
            → IsOk result }
    {
        let Some(slot) = self.slot_of(directory) else {
            return Ok(Vec::new(*self.by_number.allocator()));
        };
        match self.get(directory.filesystem) {
            Some(tree) => tree.list(slot),
            None => Ok(Vec::new(*self.by_number.allocator())),
        }
    }

    /// At most `size` bytes of a file from an offset on: pread(2). Past the end there are none.
    ///
    /// An empty result needs no allocation.
    pub fn read_part(
        &self,
        file: NodeRef,
        offset: usize,
        size: usize,
    ) -> Result<Vec<u8>, AllocError>
        ensures ok { IfOk result (λ bytes. bytes.items
            ≡ take size (drop offset (bytes_in
            ((files_at self.now file.filesystem.count).tree.node (number_of file))))) }
        ensures empty { take size (drop offset
            (bytes_in ((files_at self.now file.filesystem.count).tree.node (number_of file)))) ≡ []
            → IsOk result }
    {
        let Some(slot) = self.slot_of(file) else {
            return Ok(Vec::new(*self.by_number.allocator()));
        };
        match self.get(file.filesystem) {
            Some(tree) => tree.read_part(slot, offset, size),
            None => Ok(Vec::new(*self.by_number.allocator())),
        }
    }

    /// Makes an inode under a free name of a directory: mkdir(2), open(2) with O_CREAT, symlink(2), mknod(2).
    ///
    /// While inodes are promised it takes only room that is there beside them.
    pub fn create(
        &mut self,
        alloc: Global,
        directory: NodeRef,
        name: Vec<u8>,
        node: NewNode,
    ) -> Result<NodeRef, AllocError>
        requires directory { IsDirectory (files_at self.old directory.filesystem.count).tree (number_of directory) }
        requires free { number_at (files_at self.old directory.filesystem.count).tree
            (number_of directory) name.items ≡ None }
        requires node { IsNewIn directory.slot node }
        ensures ok { IfOk result (λ made. ChangesInodes directory.filesystem.count
            (λ inodes. changed nat_eq inodes
            (Make (number_of directory) name.items (number_of made) (node_seen directory.filesystem.count node)))
            self.old self.new) }
        ensures number { IfOk result (λ made.
            number_of made ≡ next_seen (entry_at self.old directory.filesystem.count)) }
        ensures filesystem { IfOk result (λ made. made.filesystem ≡ directory.filesystem) }
        ensures birth { IfOk result (λ made. made.birth ≡ Here) }
        ensures err { OnErr result (self.new ≡ self.old) }
    {
        let parent = self.slot_of(directory).unwrap();
        let tree = self.get_mut(directory.filesystem).unwrap();
        let slot = tree.create(alloc, parent, name, node)?;
        Ok(in_slot(directory.filesystem, slot))
    }

    /// Makes another hard link to an inode of the same filesystem, under a free name: link(2).
    ///
    /// It fails too where the inode has 2^64 - 1 uses.
    pub fn link(
        &mut self,
        directory: NodeRef,
        name: Vec<u8>,
        object: NodeRef,
    ) -> Result<(), AllocError>
        requires one_filesystem { object.filesystem ≡ directory.filesystem }
        requires directory { IsDirectory (files_at self.old directory.filesystem.count).tree (number_of directory) }
        requires free { number_at (files_at self.old directory.filesystem.count).tree
            (number_of directory) name.items ≡ None }
        requires there { is_some
            ((files_at self.old directory.filesystem.count).tree.node (number_of object)) ≡ true }
        requires object { is_directory_node
            ((files_at self.old directory.filesystem.count).tree.node (number_of object)) ≡ false }
        ensures ok { OnOk result (ChangesInodes directory.filesystem.count
            (λ inodes. changed nat_eq inodes (AddName (number_of directory) name.items (number_of object)))
            self.old self.new) }
        ensures err { OnErr result (self.new ≡ self.old) }
    {
        let parent = self.slot_of(directory).unwrap();
        let linked = self.slot_of(object).unwrap();
        let tree = self.get_mut(directory.filesystem).unwrap();
        tree.link(parent, name, linked)
    }

    /// Removes a name of an inode that has no entries: unlink(2), rmdir(2). The inode is freed with its last use. It
    /// does not allocate.
    pub fn unlink(&mut self, directory: NodeRef, name: &[u8], object: NodeRef)
        requires one_filesystem { object.filesystem ≡ directory.filesystem }
        requires named { number_at (files_at self.old directory.filesystem.count).tree
            (number_of directory) name.now ≡ Some (number_of object) }
        requires there { is_some
            ((files_at self.old directory.filesystem.count).tree.node (number_of object)) ≡ true }
        requires empty { entries_in
            ((files_at self.old directory.filesystem.count).tree.node (number_of object)) ≡ [] }
        ensures { ChangesInodes directory.filesystem.count
            (λ inodes. changed nat_eq inodes (Remove (number_of directory) name.now (number_of object)))
            self.old self.new }
    {
        self.unlink_promised(directory, name, object);
    }

    /// Renames an inode within its filesystem, and replaces what had the new name: rename(2).
    ///
    /// Only a new name allocates.
    pub fn rename(
        &mut self,
        from: NodeRef,
        old: &[u8],
        to: NodeRef,
        new: Vec<u8>,
        object: NodeRef,
    ) -> Result<(), AllocError>
        requires one_filesystem { to.filesystem ≡ from.filesystem }
        requires of_object { object.filesystem ≡ from.filesystem }
        requires named { number_at (files_at self.old from.filesystem.count).tree
            (number_of from) old.now ≡ Some (number_of object) }
        requires there { is_some
            ((files_at self.old from.filesystem.count).tree.node (number_of object)) ≡ true }
        requires directory { IsDirectory (files_at self.old from.filesystem.count).tree (number_of to) }
        requires replaced { MayReplace (files_at self.old from.filesystem.count).tree (number_of object)
            (number_at (files_at self.old from.filesystem.count).tree (number_of to) new.items) }
        requires outside { StaysOutside (inodes_at self.old from.filesystem.count) (number_of object) (number_of to) }
        ensures ok { OnOk result (ChangesInodes from.filesystem.count
            (λ inodes. changed nat_eq inodes
            (Move (number_of from) old.now (number_of to) new.items (number_of object)))
            self.old self.new) }
        ensures new_name { OnErr result
            (number_at (files_at self.old from.filesystem.count).tree (number_of to) new.items ≡ None) }
        ensures err { OnErr result (self.new ≡ self.old) }
    {
        let was_in = self.slot_of(from).unwrap();
        let goes_to = self.slot_of(to).unwrap();
        let named = self.slot_of(object).unwrap();
        let tree = self.get_mut(from.filesystem).unwrap();
        tree.rename(was_in, old, goes_to, new, named)
    }

    /// Sets the whole content of a file: write(2) after open(2) with O_TRUNC. It does not allocate. A symlink, a
    /// whiteout and a number without an inode stay as they are.
    pub fn write(&mut self, file: NodeRef, bytes: Vec<u8>)
        requires file { is_directory_node
            ((files_at self.old file.filesystem.count).tree.node (number_of file)) ≡ false }
        requires size { length bytes.items ≤ largest_file }
        ensures { ChangesInodes file.filesystem.count
            (λ inodes. changed nat_eq inodes (SetBytes (number_of file) bytes.items)) self.old self.new }
    {
        let Some(tree) = self.get_mut(file.filesystem) else {
            return;
        };
        if let Some(slot) = slot_in(tree, file.filesystem, file) {
            tree.write(slot, bytes);
        }
    }

    /// Writes bytes into a file from an offset on, and zeros into a gap before them: pwrite(2). Only a file that gets
    /// longer takes memory. A symlink, a whiteout and a number without an inode stay as they are.
    pub fn write_at(&mut self, file: NodeRef, offset: usize, bytes: &[u8]) -> Result<(), AllocError>
        requires file { is_directory_node
            ((files_at self.old file.filesystem.count).tree.node (number_of file)) ≡ false }
        requires size { offset + length bytes.now ≤ largest_file }
        ensures ok { OnOk result (ChangesInodes file.filesystem.count
            (λ inodes. changed nat_eq inodes (SetBytes (number_of file)
            (overwritten offset bytes.now (bytes_in
            ((files_at self.old file.filesystem.count).tree.node (number_of file))))))
            self.old self.new) }
        ensures file { OnErr result
            (IsTrue (is_kind_in File ((files_at self.old file.filesystem.count).tree.node (number_of file)))) }
        ensures longer { OnErr result
            (length (bytes_in ((files_at self.old file.filesystem.count).tree.node (number_of file)))
            < offset + length bytes.now) }
        ensures err { OnErr result (self.new ≡ self.old) }
    {
        let Some(tree) = self.get_mut(file.filesystem) else {
            return Ok(());
        };
        match slot_in(tree, file.filesystem, file) {
            Some(slot) => tree.write_at(slot, offset, bytes),
            None => Ok(()),
        }
    }

    /// Sets the owner, group and mode of an inode: chmod(2), chown(2). It does not allocate.
    pub fn set_attr(&mut self, object: NodeRef, attr: Attr)
        ensures { ChangesInodes object.filesystem.count
            (λ inodes. changed nat_eq inodes (SetAttr (number_of object) attr)) self.old self.new }
    {
        let Some(tree) = self.get_mut(object.filesystem) else {
            return;
        };
        if let Some(slot) = slot_in(tree, object.filesystem, object) {
            tree.set_attr(slot, attr);
        }
    }

    /// Marks a directory opaque, or takes its mark away: setxattr(2) of `trusted.overlay.opaque`. It does not allocate.
    /// What is no directory stays as it is.
    pub fn set_opaque(&mut self, directory: NodeRef, opaque: bool)
        ensures { ChangesInodes directory.filesystem.count
            (λ inodes. changed nat_eq inodes (SetMark (number_of directory) opaque)) self.old self.new }
    {
        let Some(tree) = self.get_mut(directory.filesystem) else {
            return;
        };
        if let Some(slot) = slot_in(tree, directory.filesystem, directory) {
            tree.set_opaque(slot, opaque);
        }
    }

    /// Counts one more use of an inode, as open(2) does: an inode in use is kept. It does not allocate.
    ///
    /// An error says that the inode has 2^64 - 1 uses.
    #[inline(always)]
    pub fn pin(&mut self, object: NodeRef) -> Result<(), AllocError>
        ensures ok { OnOk result
            (ChangesInodes object.filesystem.count
            (λ inodes. pinned nat_eq inodes (number_of object)) self.old self.new) }
        ensures limit { IsErr result
            ↔ (uses_in ((inodes_at self.old object.filesystem.count).inode (number_of object)) ≡ most_counted) }
        ensures err { OnErr result (self.new ≡ self.old) }
    {
        let Some(tree) = self.get_mut(object.filesystem) else {
            return Ok(());
        };
        match slot_in(tree, object.filesystem, object) {
            Some(slot) => tree.pin(slot),
            None => Ok(()),
        }
    }

    /// Takes back one use of an inode, as close(2) does: it is freed with its last use. It does not allocate.
    #[inline(always)]
    pub fn unpin(&mut self, object: NodeRef)
        ensures { ChangesInodes object.filesystem.count
            (λ inodes. unpinned nat_eq inodes (number_of object)) self.old self.new }
    {
        let Some(tree) = self.get_mut(object.filesystem) else {
            return;
        };
        if let Some(slot) = slot_in(tree, object.filesystem, object) {
            tree.unpin(slot);
        }
    }
}

// How often a node of a tree is in use.
#[inline(always)]
fn uses_of(tree: &Tree, node: NodeRef) -> u64
    ensures { result ≡ uses_in ((seen_in node.filesystem.count tree.now).inode (number_of node)) }
{
    match slot_in(tree, node.filesystem, node) {
        Some(slot) => tree.uses(slot),
        None => 0,
    }
}

// The slot of a node in the tree of this filesystem. A node of another one has none there, nor has what was born below
// a layer.
#[inline(always)]
pub(crate) fn slot_in(tree: &Tree, filesystem: FilesystemId, node: NodeRef) -> Option<NodeId>
    ensures value { IfSome result (λ slot. slot ≡ node.slot) }
    ensures number { IfSome result (λ slot. exchanged filesystem.count slot ≡ number_of node) }
    ensures nowhere { result ≡ None
        → (inodes_of tree.now).inode (exchanged filesystem.count (number_of node)) ≡ None }
{
    let end = tree.end();
    match node.birth {
        Birth::Here if node.filesystem == filesystem && node.slot < end => {
            Some(NodeId::new(node.slot))
        }
        _ => None,
    }
}

// The inode of this number in the tree of a filesystem.
pub(crate) fn in_slot(filesystem: FilesystemId, slot: NodeId) -> NodeRef
    ensures value { result ≡ record { filesystem = filesystem; slot = slot; birth = Here } }
    ensures number { number_of result ≡ exchanged filesystem.count slot }
{
    NodeRef::new(filesystem, NodeId::new(slot.index()))
}
