//! `Tree`, and what its calls change.
ghost use Rattle.std.specs.Prelude.{◌≡◌, ℕ, ◌^◌, ◌≤◌, ◌+◌, ◌-◌, ◌<◌, ◌↔◌, nat_eq, false, [], map, length, drop, take, None, Some, IfOk, OnOk, OnErr, IsOk, IsTrue, option_copied, IsErr};
ghost use Rattle.vt_spec.specs.declared.attributes.Kind.TheVariants.{File};
ghost use Rattle.vt_spec.specs.FileTree.{has_entry_to, is_kind_in};
ghost use Rattle.vt_spec.specs.Fits.{MayReplace, StaysOutside};
ghost use Rattle.vt_spec.specs.Inodes.{changed, is_directory_under, one_directory, pinned, unpinned, uses_in};
ghost use Rattle.vt_spec.specs.Laws.Trees.{IsNewIn};
ghost use Rattle.vt_spec.specs.Language.Changes.Change.{AddName, Make, Move, Remove, SetAttr, SetBytes, SetMark};
ghost use Rattle.vt_spec.specs.Language.Limits.{largest_file};
ghost use Rattle.vt_spec.specs.Machine.Descriptors.{overwritten};
ghost use Rattle.vt_spec.specs.Tree.{is_directory_node, parent_in, entries_in, names_in, bytes_in};
ghost use Rattle.vt_spec.specs.TreeInvariant.{IsDirectory, entry_at};
ghost use Rattle.vt_location.specs.Numbers.{most_counted};
ghost use Rattle.vt_fs.specs.Trees.TreeValue.{inodes_of, tree_of, next_number, with_unnamed};
ghost use Rattle.smallvec.specs.SmallVec.{HasRoomFor};
ghost use Rattle.vt_fs.specs.Trees.Names.{HoldsNames, IsNamed, ListsNames};

use crate::tree::changes::{
    insert_entry, place_entry, release, remove_entry, remove_object, set_attr, set_bytes,
    set_opaque, set_parent, write_bytes,
};
use crate::tree::names::{LinkRoom, Names};
use crate::tree::slots::Slots;
use std::alloc::{AllocError, Global};
use std::marker::Model;
use vt_node::{Attr, EntryRoom, NewNode, Node, NodeId, copied_bytes};

/// A tree of directories, files, symlinks and whiteouts, each with a number, and with a count of its uses: the names
/// that lead to it, and what a caller pins. An object is freed with its last use.
#[derive(Debug, Drop)]
pub struct Tree {
    slots: Slots,
    names: Names,
    root: NodeId,
    // How many inodes are promised to a plan.
    promised: usize,
    alloc: Global,
}

impl Model for Tree {
    ghost use Rattle.vt_fs.specs.Trees.TreeValue.{TreeValue};

    ghost Value = { TreeValue };

    ghost view = { λ t. record {
      root = t.root;
      slots = t.slots.slots;
      next = t.slots.next;
      promised = t.promised;
    } };

    ghost use Rattle.vt_spec.specs.Inodes.{tree_of as nodes_of};
    ghost use Rattle.vt_fs.specs.Trees.Names.{AreListed, HasPromised};
    ghost use Rattle.vt_fs.specs.Trees.Slots.{inodes_in};

    ghost invariant = { λ t. AreListed (nodes_of (inodes_in t.root t.slots)) t.names
        × HasPromised t.promised t.slots t.names };
}

impl Tree {
    /// A tree of one empty directory, its root, with the number 0.
    pub fn new(alloc: Global, attr: Attr) -> Result<Self, AllocError>
        ensures ok { IfOk result (λ tree. inodes_of tree ≡ one_directory nat_eq 0 attr) }
    {
        let mut slots = Slots::new(alloc);
        slots.reserve(1)?;
        let root = slots.next();
        slots.insert_reserved(Node::new_directory(alloc, attr, root));
        Ok(Tree {
            slots,
            names: Names::new(alloc),
            root,
            promised: 0,
            alloc,
        })
    }

    /// The number of its root directory.
    pub fn root(&self) -> NodeId
        ensures value { result ≡ (tree_of self.now).root }
    {
        self.root
    }

    /// How many objects there are.
    pub fn len(&self) -> usize
        ensures { result ≡ (inodes_of self.now).count }
    {
        self.slots.len()
    }

    /// A number above those of all objects.
    pub fn end(&self) -> usize
        ensures { (id : ℕ) → result ≤ id → (inodes_of self.now).inode id ≡ None }
    {
        self.slots.end()
    }

    /// The number that the next new object gets, which no node has.
    pub fn next_number(&self) -> NodeId
        ensures value { result ≡ next_number self.now }
        ensures vacant { (tree_of self.now).node result ≡ None }
    {
        self.slots.next()
    }

    /// The node with this number.
    pub fn node(&self, id: NodeId) -> Option<&Node>
        ensures { option_copied result ≡ (tree_of self.now).node id }
    {
        self.slots.get(id)
    }

    /// The parent of a directory; of anything else its own number.
    pub fn parent(&self, id: NodeId) -> NodeId
        ensures { result ≡ parent_in id ((tree_of self.now).node id) }
    {
        match self.slots.get(id) {
            Some(node) => node.parent(id),
            None => id,
        }
    }

    /// How often the object is in use: the names that lead to it, and what is pinned. A number without an object has no
    /// use.
    pub fn uses(&self, object: NodeId) -> u64
        ensures { result ≡ uses_in ((inodes_of self.now).inode object) }
    {
        self.slots.uses(object)
    }

    /// The names of a directory, in the order of their bytes: readdir(3). What is no directory has none.
    ///
    /// No names need no allocation.
    pub fn list(&self, directory: NodeId) -> Result<Vec<Vec<u8>>, AllocError>
        ensures ok { IfOk result (λ names.
            map (λ name. name.items) names.items ≡ names_in ((tree_of self.now).node directory)) }
        ensures empty { entries_in ((tree_of self.now).node directory) ≡ [] → IsOk result }
    {
        let Some(node) = self.slots.get(directory) else {
            return Ok(Vec::new(self.alloc));
        };
        node.names(self.alloc)
    }

    /// At most `size` bytes of a file from an offset on: pread(2). Past the end there are none.
    ///
    /// No bytes need no allocation.
    pub fn read_part(&self, file: NodeId, offset: usize, size: usize) -> Result<Vec<u8>, AllocError>
        ensures ok { IfOk result (λ bytes.
            bytes.items ≡ take size (drop offset (bytes_in ((tree_of self.now).node file)))) }
        ensures empty { take size (drop offset (bytes_in ((tree_of self.now).node file))) ≡ [] → IsOk result }
    {
        match self.slots.get(file) {
            Some(node) => copied_bytes(self.alloc, node.bytes_part(offset, size)),
            None => Ok(Vec::new(self.alloc)),
        }
    }

    /// Whether a directory is at or under another: going up by parents meets it.
    pub fn is_under(&self, top: NodeId, directory: NodeId) -> bool
        ensures { result ≡ is_directory_under nat_eq (inodes_of self.now) top directory }
    {
        let mut here = directory;
        let mut left = self.len();
        while left > 0 {
            if top == here {
                return true;
            }
            if here == self.root {
                return false;
            }
            here = self.parent(here);
            left -= 1;
        }
        top == here
    }

    /// Makes an object under a free name of a directory: mkdir(2), open(2) with O_CREAT, symlink(2), mknod(2).
    ///
    /// While inodes are promised it takes only room that is there beside them.
    pub fn create(
        &mut self,
        alloc: Global,
        directory: NodeId,
        name: Vec<u8>,
        node: NewNode,
    ) -> Result<NodeId, AllocError>
        requires directory { IsDirectory (tree_of self.old) directory }
        requires free { entry_at (tree_of self.old) directory name.items ≡ None }
        requires node { IsNewIn directory node }
        ensures ok { IfOk result (λ id.
            inodes_of self.new ≡ changed nat_eq (inodes_of self.old) (Make directory name.items id node)) }
        ensures number { IfOk result (λ id. id ≡ next_number self.old) }
        ensures err { OnErr result (self.new ≡ self.old) }
    {
        self.slots.reserve_beside(self.promised, 1)?;
        let id = self.slots.next();
        self.names.lengthen(id.index())?;
        self.names.reserve(id)?;
        insert_entry(&mut self.slots, directory, name, id)?;
        self.names.add(id, directory);
        Ok(self.slots.insert_reserved(node.into_node(alloc)))
    }

    /// Promises so many inodes to a plan, so that it can make them where nothing may fail. All that a plan needs is
    /// promised at once: while some are promised no more are made to fit.
    pub fn promise(&mut self, inodes: usize) -> Result<(), AllocError>
        ensures ok { OnOk result (self.new ≡ record self.old { promised = self.old.promised + inodes }) }
        ensures err { OnErr result (self.new ≡ self.old) }
    {
        self.slots.reserve_beside(self.promised, inodes)?;
        self.names.lengthen(self.slots.end())?;
        self.promised += inodes;
        Ok(())
    }

    /// Takes back so many promised inodes, as of a plan that is refused. It does not allocate.
    pub fn give_back(&mut self, inodes: usize)
        ensures { self.new ≡ record self.old { promised = self.old.promised - inodes } }
    {
        self.promised = self.promised.saturating_sub(inodes);
    }

    /// As `create`, for a caller that was promised the inode and has made room for the name. It does not allocate.
    ///
    /// No name may lead to the number that the inode gets, as in a tree whose entries lead to what is there.
    pub fn create_promised(
        &mut self,
        alloc: Global,
        directory: NodeId,
        name: Vec<u8>,
        node: NewNode,
        room: &mut EntryRoom,
    ) -> NodeId
        requires directory { IsDirectory (tree_of self.old) directory }
        requires free { entry_at (tree_of self.old) directory name.items ≡ None }
        requires node { IsNewIn directory node }
        requires promised { 0 < self.old.promised }
        requires unnamed { (place : ℕ) → has_entry_to nat_eq (tree_of self.old) place (next_number self.old) ≡ false }
        requires room { length (entries_in ((tree_of self.old).node directory)) < room.old }
        ensures made { inodes_of self.new
            ≡ changed nat_eq (inodes_of self.old) (Make directory name.items result node) }
        ensures number { result ≡ next_number self.old }
        ensures promised { self.new.promised + 1 ≡ self.old.promised }
    {
        let id = self.slots.next();
        place_entry(&mut self.slots, directory, name, id, room);
        self.slots.insert_reserved(node.into_node(alloc));
        self.names.start(id, directory);
        self.promised -= 1;
        id
    }

    /// Makes an object without a name, with one use, for a caller that was promised it: a copy of what is in use and has lost
    /// its names. A directory is its own parent. It does not allocate.
    pub fn create_unnamed(&mut self, alloc: Global, node: NewNode) -> NodeId
        requires node { IsNewIn (next_number self.old) node }
        requires promised { 0 < self.old.promised }
        ensures made { inodes_of self.new ≡ with_unnamed nat_eq (inodes_of self.old) result node }
        ensures number { result ≡ next_number self.old }
        ensures promised { self.new.promised + 1 ≡ self.old.promised }
    {
        self.promised -= 1;
        self.slots.insert_reserved(node.into_node(alloc))
    }

    /// Makes a further hard link to an object, under a free name: link(2).
    ///
    /// It fails too where the object has 2^64 - 1 uses.
    pub fn link(
        &mut self,
        directory: NodeId,
        name: Vec<u8>,
        object: NodeId,
    ) -> Result<(), AllocError>
        requires directory { IsDirectory (tree_of self.old) directory }
        requires free { entry_at (tree_of self.old) directory name.items ≡ None }
        requires object { is_directory_node ((tree_of self.old).node object) ≡ false }
        ensures ok { OnOk result
            (inodes_of self.new ≡ changed nat_eq (inodes_of self.old) (AddName directory name.items object)) }
        ensures err { OnErr result (self.new ≡ self.old) }
    {
        if self.slots.uses(object) == u64::MAX {
            return Err(AllocError);
        }
        self.names.lengthen(object.index())?;
        self.names.reserve(object)?;
        insert_entry(&mut self.slots, directory, name, object)?;
        self.names.add(object, directory);
        self.slots.count_use(object);
        Ok(())
    }

    /// The directories that have names for an object, with a place for one more: what `link_promised` takes.
    pub fn link_room(&self, object: NodeId) -> Result<LinkRoom, AllocError>
        ensures names { IfOk result (λ room. ListsNames (tree_of self.now) object room.items) }
        ensures room { IfOk result (λ room. HasRoomFor room 1) }
    {
        LinkRoom::beside(self.alloc, self.names.directories(object))
    }

    /// As `link`, for a caller that has made room for the name: in the directory, and among those that have the object's
    /// names. It does not allocate.
    pub fn link_promised(
        &mut self,
        directory: NodeId,
        name: Vec<u8>,
        object: NodeId,
        room: &mut EntryRoom,
        links: LinkRoom,
    )
        requires directory { IsDirectory (tree_of self.old) directory }
        requires free { entry_at (tree_of self.old) directory name.items ≡ None }
        requires object { is_directory_node ((tree_of self.old).node object) ≡ false }
        requires named { IsNamed (tree_of self.old) object }
        requires uses { uses_in ((inodes_of self.old).inode object) < most_counted }
        requires room { length (entries_in ((tree_of self.old).node directory)) < room.old }
        requires names { ListsNames (tree_of self.old) object links.items }
        requires place { HasRoomFor links 1 }
        ensures linked { inodes_of self.new
            ≡ changed nat_eq (inodes_of self.old) (AddName directory name.items object) }
        ensures promised { self.new.promised ≡ self.old.promised }
    {
        place_entry(&mut self.slots, directory, name, object, room);
        self.names.replace(object, links, directory);
        self.slots.count_use(object);
    }

    /// Removes a name of an object that has no entries: unlink(2), rmdir(2). It is freed with its last use. It does
    /// not allocate.
    pub fn unlink(&mut self, directory: NodeId, name: &[u8], object: NodeId)
        requires named { entry_at (tree_of self.old) directory name.now ≡ Some object }
        requires empty { entries_in ((tree_of self.old).node object) ≡ [] }
        ensures removed { inodes_of self.new
            ≡ changed nat_eq (inodes_of self.old) (Remove directory name.now object) }
        ensures promised { self.new.promised ≡ self.old.promised }
    {
        remove_entry(&mut self.slots, directory, name);
        self.names.take(object, directory);
        remove_object(&mut self.slots, object);
    }

    /// Gives an object another name, and takes the place of what had that: rename(2).
    ///
    /// Only a new name allocates.
    pub fn rename(
        &mut self,
        from: NodeId,
        old: &[u8],
        to: NodeId,
        new: Vec<u8>,
        object: NodeId,
    ) -> Result<(), AllocError>
        requires named { entry_at (tree_of self.old) from old.now ≡ Some object }
        requires directory { IsDirectory (tree_of self.old) to }
        requires replaced { MayReplace (tree_of self.old) object (entry_at (tree_of self.old) to new.items) }
        requires outside { StaysOutside (inodes_of self.old) object to }
        ensures ok { OnOk result
            (inodes_of self.new ≡ changed nat_eq (inodes_of self.old) (Move from old.now to new.items object)) }
        ensures new_name { OnErr result (entry_at (tree_of self.old) to new.items ≡ None) }
        ensures err { OnErr result (self.new ≡ self.old) }
    {
        let replaced = self.look(to, &new);
        insert_entry(&mut self.slots, to, new, object)?;
        remove_entry(&mut self.slots, from, old);
        set_parent(&mut self.slots, object, to);
        self.names.move_to(object, from, to);
        if let Some(other) = &replaced {
            self.names.take(*other, to);
            remove_object(&mut self.slots, *other);
        }
        Ok(())
    }

    /// As `rename`, for a caller that has made room for the new name. It does not allocate.
    pub fn rename_promised(
        &mut self,
        from: NodeId,
        old: &[u8],
        to: NodeId,
        new: Vec<u8>,
        object: NodeId,
        room: &mut EntryRoom,
    )
        requires named { entry_at (tree_of self.old) from old.now ≡ Some object }
        requires directory { IsDirectory (tree_of self.old) to }
        requires replaced { MayReplace (tree_of self.old) object (entry_at (tree_of self.old) to new.items) }
        requires outside { StaysOutside (inodes_of self.old) object to }
        requires room { length (entries_in ((tree_of self.old).node to)) < room.old }
        ensures moved { inodes_of self.new
            ≡ changed nat_eq (inodes_of self.old) (Move from old.now to new.items object) }
        ensures promised { self.new.promised ≡ self.old.promised }
    {
        let gone = self.look(to, &new);
        place_entry(&mut self.slots, to, new, object, room);
        remove_entry(&mut self.slots, from, old);
        set_parent(&mut self.slots, object, to);
        self.names.move_to(object, from, to);
        if let Some(inode) = &gone {
            self.names.take(*inode, to);
            remove_object(&mut self.slots, *inode);
        }
    }

    /// Sets the whole content of a file: write(2) after open(2) with O_TRUNC. It does not allocate. A symlink, a
    /// whiteout and a number without an object stay as they are.
    pub fn write(&mut self, file: NodeId, bytes: Vec<u8>)
        requires file { is_directory_node ((tree_of self.old).node file) ≡ false }
        requires size { length bytes.items ≤ largest_file }
        ensures { inodes_of self.new ≡ changed nat_eq (inodes_of self.old) (SetBytes file bytes.items) }
    {
        set_bytes(&mut self.slots, file, bytes);
    }

    /// Writes bytes into a file from an offset on, and zeros into a gap before them: pwrite(2). Only a file that gets
    /// longer allocates. A symlink, a whiteout and a number without an object stay as they are.
    pub fn write_at(&mut self, file: NodeId, offset: usize, bytes: &[u8]) -> Result<(), AllocError>
        requires file { is_directory_node ((tree_of self.old).node file) ≡ false }
        requires size { offset + length bytes.now ≤ largest_file }
        ensures ok { OnOk result (inodes_of self.new ≡ changed nat_eq (inodes_of self.old)
            (SetBytes file (overwritten offset bytes.now (bytes_in ((tree_of self.old).node file))))) }
        ensures file { OnErr result (IsTrue (is_kind_in File ((tree_of self.old).node file))) }
        ensures longer { OnErr result
            (length (bytes_in ((tree_of self.old).node file)) < offset + length bytes.now) }
        ensures err { OnErr result (self.new ≡ self.old) }
    {
        write_bytes(&mut self.slots, file, offset, bytes)
    }

    /// Sets the owner, group and mode of an object: chmod(2), chown(2). It does not allocate.
    pub fn set_attr(&mut self, object: NodeId, attr: Attr)
        ensures { inodes_of self.new ≡ changed nat_eq (inodes_of self.old) (SetAttr object attr) }
    {
        set_attr(&mut self.slots, object, attr);
    }

    /// Marks a directory opaque, or takes its mark away: setxattr(2) of `trusted.overlay.opaque`. It does not allocate.
    /// What is no directory stays as it is.
    pub fn set_opaque(&mut self, directory: NodeId, opaque: bool)
        ensures { inodes_of self.new ≡ changed nat_eq (inodes_of self.old) (SetMark directory opaque) }
    {
        set_opaque(&mut self.slots, directory, opaque);
    }

    /// Counts one use more of an object, as open(2) does: it stays while it is in use. It does not allocate.
    ///
    /// An error says that the object has 2^64 - 1 uses.
    pub fn pin(&mut self, object: NodeId) -> Result<(), AllocError>
        ensures ok { OnOk result (inodes_of self.new ≡ pinned nat_eq (inodes_of self.old) object) }
        ensures limit { IsErr result ↔ (uses_in ((inodes_of self.old).inode object) ≡ most_counted) }
        ensures err { OnErr result (self.new ≡ self.old) }
    {
        self.slots.acquire(object)
    }

    /// As `pin`, for a caller that knows that the object has fewer than 2^64 - 1 uses.
    pub fn count_use(&mut self, object: NodeId)
        requires { uses_in ((inodes_of self.old).inode object) < most_counted }
        ensures pinned { inodes_of self.new ≡ pinned nat_eq (inodes_of self.old) object }
        ensures promised { self.new.promised ≡ self.old.promised }
    {
        self.slots.count_use(object);
    }

    /// Counts one use less of an object, as close(2) does: it is freed with its last use. It does not allocate.
    pub fn unpin(&mut self, object: NodeId)
        ensures { inodes_of self.new ≡ unpinned nat_eq (inodes_of self.old) object }
    {
        release(&mut self.slots, object);
    }

    /// The directories that have names for an object, each as often as it has one, in no order. It is known that each
    /// of these is there, and not that each one there has a name.
    pub fn directories_of(&self, object: NodeId) -> &[NodeId]
        ensures { HoldsNames (tree_of self.now) object result.now }
    {
        self.names.directories(object)
    }

    // The number that a name of a directory leads to.
    fn look(&self, directory: NodeId, name: &[u8]) -> Option<NodeId>
        ensures { result ≡ entry_at (tree_of self.now) directory name.now }
    {
        self.slots.get(directory)?.entry(name)
    }
}
