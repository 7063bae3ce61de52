//! Nodes that are to be made.
ghost use Rattle.std.specs.Prelude.{◌≡◌};
ghost use Rattle.vt_spec.specs.Tree.{new_directory};
ghost use Rattle.vt_spec.specs.Tree.Content.{Regular, Symlink, Whiteout};

use crate::{Attr, Node, NodeId};
use std::alloc::Global;
use std::marker::Model;

/// A node that is to be made. It has no map for entries, so it is smaller than a `Node` to hand on by value.
#[derive(Debug, Drop)]
pub struct NewNode {
    attr: Attr,
    content: NewContent,
}

// What a new node holds; a new directory has no entries.
#[derive(Debug, Drop)]
enum NewContent {
    Directory { parent: NodeId },
    Regular { bytes: Vec<u8> },
    Symlink { text: Vec<u8> },
    Whiteout,
}

impl Model for NewNode {
    ghost use Rattle.std.specs.Prelude.{ℕ};
    ghost use Rattle.vt_spec.specs.Tree.{Node as Inode};
    ghost use Rattle.vt_node.specs.NodeView.{new_content_of};

    ghost Value = { Inode ℕ };

    ghost view = { λ n. record { attr = n.attr; content = new_content_of n.content } };
}

impl NewNode {
    /// An empty directory below this parent.
    pub fn directory(attr: Attr, parent: NodeId) -> Self
        ensures { result ≡ record { attr = attr; content = new_directory parent } }
    {
        NewNode {
            attr,
            content: NewContent::Directory { parent },
        }
    }

    /// A regular file with these bytes.
    pub fn file(attr: Attr, bytes: Vec<u8>) -> Self
        ensures { result ≡ record { attr = attr; content = Regular bytes.items } }
    {
        NewNode {
            attr,
            content: NewContent::Regular { bytes },
        }
    }

    /// A symlink with this text.
    pub fn symlink(attr: Attr, text: Vec<u8>) -> Self
        ensures { result ≡ record { attr = attr; content = Symlink text.items } }
    {
        NewNode {
            attr,
            content: NewContent::Symlink { text },
        }
    }

    /// A whiteout, the character device 0/0 of an overlay's upper layer.
    pub fn whiteout(attr: Attr) -> Self
        ensures { result ≡ record { attr = attr; content = Whiteout } }
    {
        NewNode {
            attr,
            content: NewContent::Whiteout,
        }
    }

    /// The node itself. It does not allocate.
    pub fn into_node(self, alloc: Global) -> Node
        ensures { result ≡ self }
    {
        let NewNode { attr, content } = self;
        match content {
            NewContent::Directory { parent } => Node::new_directory(alloc, attr, parent),
            NewContent::Regular { bytes } => Node::new_file(attr, bytes),
            NewContent::Symlink { text } => Node::new_link(attr, text),
            NewContent::Whiteout => Node::new_whiteout(attr),
        }
    }
}
