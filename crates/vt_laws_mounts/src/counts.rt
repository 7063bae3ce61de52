//! Inodes, mounts and filesystems that count their uses. What does not ask for plain filesystems holds with overlays,
//! too.
//!
//! *Counted inodes* of a filesystem (`IsCounted`) have its root and nodes, each with its count of uses (`inode_uses`).
//! They are as many as the numbers beside the tree, each once. A *change* (`IsChange`) is of a plain filesystem at a
//! location of a world with all invariants and no overlay, and fits the counted inodes; what link(2) names exists.
//!
//! In an *exchange* (`Exchanges`) inodes of a filesystem, which stays, get the uses of one list and lose those of
//! another, as often as they stand there. In *exchanged* inodes (`exchanged`) each that gains was pinned, then each
//! that loses unpinned.

pub mod changing;
pub mod going;
pub mod looking;
pub mod overlays;
pub mod using;
