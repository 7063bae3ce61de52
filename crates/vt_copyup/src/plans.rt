//! Copies that are planned, and how they are made: the kernel's overlayfs document, "upper and lower" (copy_up).
ghost use Rattle.std.specs.Prelude.{◌≡◌, ◌+◌, ◌<◌, [], None, nat_eq};
ghost use Rattle.vt_spec.specs.Inodes.{changed};
ghost use Rattle.vt_spec.specs.Language.Changes.Change.{Make};
ghost use Rattle.vt_location.specs.Locations.{inode_of};
ghost use Rattle.vt_fs.specs.FilesystemsValue.{ChangesInodes, files_at, inodes_promised};
ghost use Rattle.vt_laws_worlds.specs.Merging.UpperChanges.{copy_node};
ghost use Rattle.vt_copyup.specs.Made.{AreMade, parent_made};
ghost use Rattle.vt_copyup.specs.Plans.{CopiesAreThere, EntriesAreThere, Fits, IsReady, copies_of, in_turn, many};

use crate::copied::{CopiedNode, FreeName};
use std::alloc::Global;
use vt_births::Births;
use vt_fs::Filesystems;
use vt_location::{FilesystemId, InodeRef, NodeRef};
use vt_node::EntryRoom;

/// A copy that is planned: its name, the inode that is copied, and the node of the overlay that is shown there.
#[derive(Debug, Drop)]
pub struct PlannedCopy {
    pub name: Vec<u8>,
    pub node: CopiedNode,
    pub born: NodeRef,
}

// A copy, and room for its name in the directory that is copied before it. The first has none: it goes into a
// directory that is there.
#[derive(Debug, Drop)]
pub(crate) struct Piece {
    pub(crate) copy: PlannedCopy,
    pub(crate) room: EntryRoom,
}

/// What is copied for one object: each prefix of its path that the upper layer lacks. It owns all memory that the
/// copies take but for inodes and births, which have to be promised before it is applied (`promise`).
#[derive(Debug, Drop)]
pub struct Plan {
    // The upper layer's directory for the first copy; where nothing is planned, the object itself.
    pub(crate) directory: InodeRef,
    // The last copy first.
    pub(crate) pieces: Vec<Piece>,
}

// The last copy, and the inode in which it was made. Where nothing is copied, the directory is both.
#[derive(Clone, Copy, Debug)]
pub(crate) struct Grown {
    pub(crate) parent: InodeRef,
    pub(crate) object: InodeRef,
}

impl Plan {
    /// Nothing is to be copied: the object is in the upper layer.
    pub fn nothing(alloc: Global, object: InodeRef) -> Self
        ensures object { result.directory ≡ object }
        ensures nothing { result.pieces.items ≡ [] }
    {
        Plan {
            directory: object,
            pieces: Vec::new(alloc),
        }
    }

    /// How many copies there are.
    pub fn len(&self) -> usize
        ensures { result ≡ many self.now }
    {
        self.pieces.len()
    }

    /// The upper layer's directory for the first copy; where nothing is planned, the object itself.
    pub fn directory(&self) -> InodeRef
        ensures { result ≡ self.now.directory }
    {
        self.directory
    }

    /// The filesystem of the upper layer.
    pub fn filesystem(&self) -> FilesystemId
        ensures { result ≡ self.now.directory.filesystem }
    {
        self.directory.filesystem
    }

    /// Makes the copies, each in the one before, and their births. It returns the object's inode in the upper layer.
    /// It does not allocate.
    pub fn apply(
        self,
        alloc: Global,
        trees: &mut Filesystems,
        births: &mut Births,
        room: &mut EntryRoom,
    ) -> InodeRef
        requires { IsReady self trees.old births.old room.old }
        ensures made { AreMade self.directory (copies_of (in_turn self)) trees.old births.old trees.new births.new result }
        ensures filesystem { result.filesystem ≡ self.directory.filesystem }
        ensures entries { EntriesAreThere (files_at trees.new result.filesystem.count).tree }
        ensures there { CopiesAreThere trees.new result.filesystem.count births.new }
        ensures room { self.pieces.items ≡ [] → room.new ≡ room.old }
    {
        self.grow(alloc, trees, births, room).object
    }

    // Makes them so, and returns the inode in which the last one was made, too. It does not allocate.
    pub(crate) fn grow(
        self,
        alloc: Global,
        trees: &mut Filesystems,
        births: &mut Births,
        room: &mut EntryRoom,
    ) -> Grown
        requires { IsReady self trees.old births.old room.old }
        ensures made { (are : AreMade self.directory (copies_of (in_turn self)) trees.old births.old trees.new
            births.new result.object) × (result.parent ≡ parent_made self.directory are.made) }
        ensures filesystem { result.object.filesystem ≡ self.directory.filesystem }
        ensures entries { EntriesAreThere (files_at trees.new result.object.filesystem.count).tree }
        ensures there { CopiesAreThere trees.new result.object.filesystem.count births.new }
        ensures room { self.pieces.items ≡ [] → room.new ≡ room.old }
    {
        let Plan {
            directory,
            mut pieces,
        } = self;
        let mut parent = directory;
        let Some(first) = pieces.pop() else {
            return Grown {
                parent,
                object: directory,
            };
        };
        let first_born = first.copy.born;
        let mut here = first.copy.make(alloc, trees, directory, room);
        births.add(first_born, here.slot);
        while let Some(piece) = pieces.pop() {
            let Piece { copy, mut room } = piece;
            let born = copy.born;
            parent = here;
            here = copy.make(alloc, trees, here, &mut room);
            births.add(born, here.slot);
        }
        Grown {
            parent,
            object: here,
        }
    }
}

impl PlannedCopy {
    // Makes the copy in a directory, and returns its inode. It does not allocate.
    fn make(
        self,
        alloc: Global,
        trees: &mut Filesystems,
        directory: InodeRef,
        room: &mut EntryRoom,
    ) -> InodeRef
        requires fits { Fits self room.old directory trees.old }
        requires entries { EntriesAreThere (files_at trees.old directory.filesystem.count).tree }
        requires inode { 0 < inodes_promised trees.old directory.filesystem.count }
        ensures made { ChangesInodes directory.filesystem.count (λ inodes. changed nat_eq inodes
            (Make (inode_of directory) self.name.items (inode_of result) (copy_node (inode_of directory) self.node)))
            trees.old trees.new }
        ensures vacant { (files_at trees.old directory.filesystem.count).tree.node (inode_of result) ≡ None }
        ensures filesystem { result.filesystem ≡ directory.filesystem }
        ensures inodes_left { inodes_promised trees.new directory.filesystem.count + 1
            ≡ inodes_promised trees.old directory.filesystem.count }
    {
        let PlannedCopy {
            name,
            node,
            born: _born,
        } = self;
        node.make(alloc, trees, FreeName { directory, name }, room)
    }
}
