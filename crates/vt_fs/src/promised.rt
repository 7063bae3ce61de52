//! What a plan does where nothing may fail: inodes that were promised, and names for which room was made.
ghost use Rattle.std.specs.Prelude.{◌≡◌, ℕ, [], ◌+◌, ◌<◌, ◌≤◌, false, is_some, length, map, nat_eq, true, IfOk, OnErr, OnOk, Some, None};
ghost use Rattle.smallvec.specs.SmallVec.{HasRoomFor};
ghost use Rattle.vt_spec.specs.FileTree.{has_entry_to};
ghost use Rattle.vt_spec.specs.Fits.{MayReplace, StaysOutside};
ghost use Rattle.vt_spec.specs.Inodes.{changed, pinned, uses_in};
ghost use Rattle.vt_spec.specs.Language.Changes.Change.{AddName, Make, Move, Remove};
ghost use Rattle.vt_spec.specs.Laws.Trees.{IsNewIn};
ghost use Rattle.vt_spec.specs.Tree.{entries_in, is_directory_node};
ghost use Rattle.vt_spec.specs.TreeInvariant.{IsDirectory, entry_at as number_at};
ghost use Rattle.vt_fs.specs.FilesystemsValue.{ChangesInodes, entry_at, files_at, giving_back, inodes_at, inodes_promised, next_seen, node_seen, promising, with_changed};
ghost use Rattle.vt_fs.specs.Trees.Names.{IsNamed, ListsNames};
ghost use Rattle.vt_fs.specs.Trees.TreeValue.{with_unnamed};
ghost use Rattle.vt_location.specs.Locations.{number_of};
ghost use Rattle.vt_location.specs.Numbers.{exchanged, most_counted};
ghost use Rattle.vt_location.specs.declared.births.Birth.TheVariants.{Here};

use crate::filesystems::{Filesystems, in_slot};
use crate::tree::LinkRoom;
use std::alloc::{AllocError, Global};
use vt_location::{FilesystemId, NodeRef};
use vt_node::{EntryRoom, NewNode};

impl Filesystems {
    /// Promises so many inodes of a filesystem to a plan, so that it can make them where nothing may fail. All that a plan
    /// needs is promised at once: while some are promised no more are made to fit.
    pub fn promise(&mut self, filesystem: FilesystemId, inodes: usize) -> Result<(), AllocError>
        ensures ok { OnOk result (self.new ≡ with_changed filesystem.count (promising inodes) self.old) }
        ensures err { OnErr result (self.new ≡ self.old) }
    {
        match self.get_mut(filesystem) {
            Some(tree) => tree.promise(inodes),
            None => Ok(()),
        }
    }

    /// Takes back so many promised inodes, as of a plan that is refused. It does not allocate.
    pub fn give_back(&mut self, filesystem: FilesystemId, inodes: usize)
        ensures { self.new ≡ with_changed filesystem.count (giving_back inodes) self.old }
    {
        if let Some(tree) = self.get_mut(filesystem) {
            tree.give_back(inodes);
        }
    }

    /// How many names a directory has. What is no directory has none.
    pub fn entry_count(&self, directory: NodeRef) -> usize
        ensures { result ≡ length (entries_in
            ((files_at self.now directory.filesystem.count).tree.node (number_of directory))) }
    {
        match self.node(directory) {
            Some(node) => node.entry_count(),
            None => 0,
        }
    }

    /// Makes room for so many names more of a directory, for a caller that puts them in later, where nothing may fail.
    pub fn make_room(
        &self,
        directory: NodeRef,
        names: usize,
        room: &mut EntryRoom,
    ) -> Result<(), AllocError>
        ensures ok { OnOk result (length (entries_in
            ((files_at self.now directory.filesystem.count).tree.node (number_of directory))) + names ≤ room.new) }
        ensures kept { room.old ≤ room.new }
        ensures err { OnErr result (room.new ≡ room.old) }
    {
        let Some(entries) = self.entry_count(directory).checked_add(names) else {
            return Err(AllocError);
        };
        room.reserve(entries)
    }

    /// As `create`, for a caller that was promised the inode and has made room for the name. It does not allocate.
    ///
    /// No name may lead to the number that the inode gets, as in a tree whose entries lead to what is there.
    pub fn create_promised(
        &mut self,
        alloc: Global,
        directory: NodeRef,
        name: Vec<u8>,
        node: NewNode,
        room: &mut EntryRoom,
    ) -> NodeRef
        requires directory { IsDirectory (files_at self.old directory.filesystem.count).tree (number_of directory) }
        requires free { number_at (files_at self.old directory.filesystem.count).tree
            (number_of directory) name.items ≡ None }
        requires node { IsNewIn directory.slot node }
        requires promised { 0 < inodes_promised self.old directory.filesystem.count }
        requires unnamed { (place : ℕ) → has_entry_to nat_eq (files_at self.old directory.filesystem.count).tree place
            (next_seen (entry_at self.old directory.filesystem.count)) ≡ false }
        requires room { length (entries_in
            ((files_at self.old directory.filesystem.count).tree.node (number_of directory))) < room.old }
        ensures made { ChangesInodes directory.filesystem.count
            (λ inodes. changed nat_eq inodes
            (Make (number_of directory) name.items (number_of result) (node_seen directory.filesystem.count node)))
            self.old self.new }
        ensures promised { inodes_promised self.new directory.filesystem.count + 1
            ≡ inodes_promised self.old directory.filesystem.count }
        ensures number { number_of result ≡ next_seen (entry_at self.old directory.filesystem.count) }
        ensures filesystem { result.filesystem ≡ directory.filesystem }
        ensures birth { result.birth ≡ Here }
    {
        let parent = self.slot_of(directory).unwrap();
        let tree = self.get_mut(directory.filesystem).unwrap();
        let slot = tree.create_promised(alloc, parent, name, node, room);
        in_slot(directory.filesystem, slot)
    }

    /// Makes an inode without a name, with one use, for a caller that was promised it: a copy of what is in use and has lost
    /// its names. A directory is its own parent. It does not allocate.
    pub fn create_unnamed(
        &mut self,
        alloc: Global,
        filesystem: FilesystemId,
        node: NewNode,
    ) -> NodeRef
        requires node { IsNewIn (entry_at self.old filesystem.count).tree.next node }
        requires promised { 0 < inodes_promised self.old filesystem.count }
        ensures made { ChangesInodes filesystem.count
            (λ inodes. with_unnamed nat_eq inodes (number_of result) (node_seen filesystem.count node))
            self.old self.new }
        ensures promised { inodes_promised self.new filesystem.count + 1
            ≡ inodes_promised self.old filesystem.count }
        ensures number { number_of result ≡ next_seen (entry_at self.old filesystem.count) }
        ensures filesystem { result.filesystem ≡ filesystem }
        ensures birth { result.birth ≡ Here }
    {
        let tree = self.get_mut(filesystem).unwrap();
        let slot = tree.create_unnamed(alloc, node);
        in_slot(filesystem, slot)
    }

    /// The directories that have names for an object, with a place for one more: what `link_promised` takes.
    pub fn link_room(&self, object: NodeRef) -> Result<LinkRoom, AllocError>
        requires there { is_some
            ((files_at self.now object.filesystem.count).tree.node (number_of object)) ≡ true }
        ensures names { IfOk result (λ room. ListsNames (files_at self.now object.filesystem.count).tree
            (number_of object) (map (exchanged object.filesystem.count) room.items)) }
        ensures room { IfOk result (λ room. HasRoomFor room 1) }
    {
        let linked = self.slot_of(object).unwrap();
        let tree = self.get(object.filesystem).unwrap();
        tree.link_room(linked)
    }

    /// As `link`, for a caller that has made room for the name: in the directory, and among those that have the object's
    /// names. It does not allocate, and what is promised stays so.
    ///
    /// The object has a name, and fewer than 2^64 - 1 uses.
    pub fn link_promised(
        &mut self,
        directory: NodeRef,
        name: Vec<u8>,
        object: NodeRef,
        room: &mut EntryRoom,
        links: LinkRoom,
    )
        requires one_filesystem { object.filesystem ≡ directory.filesystem }
        requires directory { IsDirectory (files_at self.old directory.filesystem.count).tree (number_of directory) }
        requires free { number_at (files_at self.old directory.filesystem.count).tree
            (number_of directory) name.items ≡ None }
        requires there { is_some
            ((files_at self.old directory.filesystem.count).tree.node (number_of object)) ≡ true }
        requires object { is_directory_node
            ((files_at self.old directory.filesystem.count).tree.node (number_of object)) ≡ false }
        requires named { IsNamed (files_at self.old directory.filesystem.count).tree (number_of object) }
        requires uses { uses_in ((inodes_at self.old directory.filesystem.count).inode (number_of object))
            < most_counted }
        requires room { length (entries_in
            ((files_at self.old directory.filesystem.count).tree.node (number_of directory))) < room.old }
        requires names { ListsNames (files_at self.old directory.filesystem.count).tree (number_of object)
            (map (exchanged directory.filesystem.count) links.items) }
        requires place { HasRoomFor links 1 }
        ensures linked { ChangesInodes directory.filesystem.count
            (λ inodes. changed nat_eq inodes (AddName (number_of directory) name.items (number_of object)))
            self.old self.new }
        ensures promised { inodes_promised self.new directory.filesystem.count
            ≡ inodes_promised self.old directory.filesystem.count }
    {
        let parent = self.slot_of(directory).unwrap();
        let linked = self.slot_of(object).unwrap();
        let tree = self.get_mut(directory.filesystem).unwrap();
        tree.link_promised(parent, name, linked, room, links);
    }

    /// As `pin`, for a caller that was promised inodes: these stay promised. The inode has fewer than 2^64 - 1 uses, so it
    /// cannot fail.
    pub fn pin_promised(&mut self, object: NodeRef)
        requires there { is_some
            ((files_at self.old object.filesystem.count).tree.node (number_of object)) ≡ true }
        requires uses { uses_in ((inodes_at self.old object.filesystem.count).inode (number_of object)) < most_counted }
        ensures pinned { ChangesInodes object.filesystem.count
            (λ inodes. pinned nat_eq inodes (number_of object)) self.old self.new }
        ensures promised { inodes_promised self.new object.filesystem.count
            ≡ inodes_promised self.old object.filesystem.count }
    {
        let held = self.slot_of(object).unwrap();
        let tree = self.get_mut(object.filesystem).unwrap();
        tree.count_use(held);
    }

    /// As `unlink`, for a caller that was promised inodes: these stay promised.
    pub fn unlink_promised(&mut self, directory: NodeRef, name: &[u8], object: NodeRef)
        requires one_filesystem { object.filesystem ≡ directory.filesystem }
        requires named { number_at (files_at self.old directory.filesystem.count).tree
            (number_of directory) name.now ≡ Some (number_of object) }
        requires there { is_some
            ((files_at self.old directory.filesystem.count).tree.node (number_of object)) ≡ true }
        requires empty { entries_in
            ((files_at self.old directory.filesystem.count).tree.node (number_of object)) ≡ [] }
        ensures removed { ChangesInodes directory.filesystem.count
            (λ inodes. changed nat_eq inodes (Remove (number_of directory) name.now (number_of object)))
            self.old self.new }
        ensures promised { inodes_promised self.new directory.filesystem.count
            ≡ inodes_promised self.old directory.filesystem.count }
    {
        let parent = self.slot_of(directory).unwrap();
        let named = self.slot_of(object).unwrap();
        let tree = self.get_mut(directory.filesystem).unwrap();
        tree.unlink(parent, name, named);
    }

    /// As `rename`, for a caller that has made room for the new name. It does not allocate, and what is promised stays so.
    pub fn rename_promised(
        &mut self,
        from: NodeRef,
        old: &[u8],
        to: NodeRef,
        new: Vec<u8>,
        object: NodeRef,
        room: &mut EntryRoom,
    )
        requires one_filesystem { to.filesystem ≡ from.filesystem }
        requires of_object { object.filesystem ≡ from.filesystem }
        requires named { number_at (files_at self.old from.filesystem.count).tree
            (number_of from) old.now ≡ Some (number_of object) }
        requires there { is_some
            ((files_at self.old from.filesystem.count).tree.node (number_of object)) ≡ true }
        requires directory { IsDirectory (files_at self.old from.filesystem.count).tree (number_of to) }
        requires replaced { MayReplace (files_at self.old from.filesystem.count).tree (number_of object)
            (number_at (files_at self.old from.filesystem.count).tree (number_of to) new.items) }
        requires outside { StaysOutside (inodes_at self.old from.filesystem.count) (number_of object) (number_of to) }
        requires room { length (entries_in ((files_at self.old from.filesystem.count).tree.node (number_of to)))
            < room.old }
        ensures moved { ChangesInodes from.filesystem.count
            (λ inodes. changed nat_eq inodes
            (Move (number_of from) old.now (number_of to) new.items (number_of object)))
            self.old self.new }
        ensures promised { inodes_promised self.new from.filesystem.count
            ≡ inodes_promised self.old from.filesystem.count }
    {
        let was_in = self.slot_of(from).unwrap();
        let goes_to = self.slot_of(to).unwrap();
        let named = self.slot_of(object).unwrap();
        let tree = self.get_mut(from.filesystem).unwrap();
        tree.rename_promised(was_in, old, goes_to, new, named, room);
    }
}
