//! Trees: every call leaves trees, within their limits; what calls change of inodes and tasks; what the layers of
//! overlays show, and changes through overlays.
//!
//! A *plain call* is made in a world without overlays, and is no `mount overlay`. A *call on files*
//! (`changes_no_mount`) is no mount call, and none of `pivot_root`, `exit`, `unshare` and `setns`. Numbers are
//! *distinct* if no two are equal.
//!
//! Each public function is a theorem of the written policy, and does nothing.
#![tactic(auto)]

pub mod calls;
pub mod layers;
pub mod overlays;
pub mod runs;
pub mod trees;
