//! Numbers of nodes.
ghost use Rattle.std.specs.Prelude.{◌≡◌};

use std::marker::Model;

/// The number of a node in its tree, as an inode number is of an inode. It is only ever compared.
#[derive(Clone, Copy, Debug, Default, PartialEq, Eq, Hash)]
pub struct NodeId {
    index: usize,
}

impl Model for NodeId {
    ghost use Rattle.std.specs.Prelude.{ℕ};

    ghost Value = { ℕ };

    ghost view = { λ id. id.index };

    ghost inverse = { λ n. record { index = n } };
}

impl NodeId {
    /// The number of the node in this slot.
    pub fn new(index: usize) -> Self
        ensures { result ≡ index }
    {
        NodeId { index }
    }

    /// The slot of the node.
    pub fn index(self) -> usize
        ensures { result ≡ self }
    {
        self.index
    }
}
