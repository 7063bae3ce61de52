//! Calls cut into turns: their walks, what they hold meanwhile, and what other calls leave of both.
//!
//! *Unused* numbers are as in `vt_laws_sealed` (`Serves`). A change number is *unraised* if it is what it was and not
//! the largest one; else a call under way that holds it is *overtaken*. A filesystem is *kept* if it has the same root,
//! layers and mounter, and if each inode and real object that is left is what it was (`KeepsFilesystem`).
//!
//! Each public function is a theorem of the written policy, and does nothing.
#![tactic(auto)]

pub mod dated;
pub mod frames;
pub mod holds;
pub mod played;
pub mod restarts;
pub mod same_states;
pub mod walks;
