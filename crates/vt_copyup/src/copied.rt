//! What is copied of an inode: the kernel's overlayfs document, "non-directories".
ghost use Rattle.std.specs.Prelude.{◌≡◌, ◌+◌, ◌<◌, IfOk, None, length, nat_eq};
ghost use Rattle.vt_spec.specs.Inodes.{changed};
ghost use Rattle.vt_spec.specs.Language.Changes.Change.{Make};
ghost use Rattle.vt_spec.specs.Tree.{entries_in, new_directory};
ghost use Rattle.vt_spec.specs.Tree.Content.{Regular, Symlink, Whiteout};
ghost use Rattle.vt_spec.specs.TreeInvariant.{IsDirectory, entry_at};
ghost use Rattle.vt_fs.specs.FilesystemsValue.{ChangesInodes, files_at, inodes_promised};
ghost use Rattle.vt_location.specs.Locations.{inode_of};
ghost use Rattle.vt_laws_worlds.specs.Merging.UpperChanges.{copy_node};
ghost use Rattle.vt_copyup.specs.Copied.{copied};
ghost use Rattle.vt_copyup.specs.Plans.{EntriesAreThere};

use std::alloc::{AllocError, Global};
use std::marker::Model;
use vt_fs::Filesystems;
use vt_location::InodeRef;
use vt_node::{Attr, EntryRoom, Kind, NewNode, Node, NodeId, copied_bytes};

/// An inode that is to be made in an upper layer, a copy or a new one: its owner, group, mode and content. A directory has
/// no entries and no mark, and its parent is where it is made.
#[derive(Debug, Drop)]
pub struct CopiedNode {
    attr: Attr,
    content: CopiedContent,
}

/// A name of a directory that is free.
#[derive(Debug, Drop)]
pub struct FreeName {
    pub directory: InodeRef,
    pub name: Vec<u8>,
}

// What is copied of a node's content.
#[derive(Debug, Drop)]
enum CopiedContent {
    Directory,
    Regular { bytes: Vec<u8> },
    Symlink { text: Vec<u8> },
    Whiteout,
}

impl Model for CopiedNode {
    ghost use Rattle.std.specs.Prelude.{ℕ};
    ghost use Rattle.vt_spec.specs.Tree.{Node as Inode};
    ghost use Rattle.vt_copyup.specs.CopiedView.{content_of};

    ghost Value = { Inode ℕ };

    ghost view = { λ n. record { attr = n.attr; content = content_of n.content } };
}

impl CopiedNode {
    /// A new empty directory: mkdir(2).
    pub fn directory(attr: Attr) -> Self
        ensures { result ≡ record { attr = attr; content = new_directory 0 } }
    {
        CopiedNode {
            attr,
            content: CopiedContent::Directory,
        }
    }

    /// A new file with these bytes: open(2) with O_CREAT.
    pub fn file(attr: Attr, bytes: Vec<u8>) -> Self
        ensures { result ≡ record { attr = attr; content = Regular bytes.items } }
    {
        CopiedNode {
            attr,
            content: CopiedContent::Regular { bytes },
        }
    }

    /// A new symlink with this text: symlink(2).
    pub fn symlink(attr: Attr, text: Vec<u8>) -> Self
        ensures { result ≡ record { attr = attr; content = Symlink text.items } }
    {
        CopiedNode {
            attr,
            content: CopiedContent::Symlink { text },
        }
    }

    /// A new whiteout.
    pub fn whiteout(attr: Attr) -> Self
        ensures { result ≡ record { attr = attr; content = Whiteout } }
    {
        CopiedNode {
            attr,
            content: CopiedContent::Whiteout,
        }
    }

    /// What is copied of a node, in memory of its own: with the bytes of a file, or without them where it is to be
    /// written whole.
    pub fn of(alloc: Global, node: &Node, with_bytes: bool) -> Result<Self, AllocError>
        ensures { IfOk result (λ copy. copy ≡ copied with_bytes node.now) }
    {
        let content = match node.kind() {
            Kind::Dir => CopiedContent::Directory,
            Kind::File if with_bytes => CopiedContent::Regular {
                bytes: copied_bytes(alloc, node.bytes())?,
            },
            Kind::File => CopiedContent::Regular {
                bytes: Vec::new(alloc),
            },
            Kind::Symlink => CopiedContent::Symlink {
                text: copied_bytes(alloc, node.bytes())?,
            },
            Kind::White => CopiedContent::Whiteout,
        };
        Ok(CopiedNode {
            attr: node.attr(),
            content,
        })
    }

    /// The copy itself, to be made in a directory. It does not allocate.
    pub fn under(self, directory: NodeId) -> NewNode
        ensures { result ≡ copy_node directory self }
    {
        let CopiedNode { attr, content } = self;
        match content {
            CopiedContent::Directory => NewNode::directory(attr, directory),
            CopiedContent::Regular { bytes } => NewNode::file(attr, bytes),
            CopiedContent::Symlink { text } => NewNode::symlink(attr, text),
            CopiedContent::Whiteout => NewNode::whiteout(attr),
        }
    }

    /// Makes it under a name, for which an inode is promised and room is made. It gives the inode. It does not allocate.
    pub fn make(
        self,
        alloc: Global,
        trees: &mut Filesystems,
        at: FreeName,
        room: &mut EntryRoom,
    ) -> InodeRef
        requires directory { IsDirectory (files_at trees.old at.directory.filesystem.count).tree (inode_of at.directory) }
        requires free { entry_at (files_at trees.old at.directory.filesystem.count).tree (inode_of at.directory)
            at.name.items ≡ None }
        requires entries { EntriesAreThere (files_at trees.old at.directory.filesystem.count).tree }
        requires promised { 0 < inodes_promised trees.old at.directory.filesystem.count }
        requires room { length (entries_in
            ((files_at trees.old at.directory.filesystem.count).tree.node (inode_of at.directory))) < room.old }
        ensures made { ChangesInodes at.directory.filesystem.count (λ inodes. changed nat_eq inodes
            (Make (inode_of at.directory) at.name.items (inode_of result) (copy_node (inode_of at.directory) self)))
            trees.old trees.new }
        ensures vacant { (files_at trees.old at.directory.filesystem.count).tree.node (inode_of result) ≡ None }
        ensures filesystem { result.filesystem ≡ at.directory.filesystem }
        ensures inodes_left { inodes_promised trees.new at.directory.filesystem.count + 1
            ≡ inodes_promised trees.old at.directory.filesystem.count }
    {
        let FreeName { directory, name } = at;
        let next = trees.next_number(directory.filesystem).unwrap();
        let node = self.under(directory.node());
        trees.create_promised(alloc, directory.node_ref(), name, node, room);
        InodeRef {
            filesystem: directory.filesystem,
            slot: next.slot,
        }
    }
}
