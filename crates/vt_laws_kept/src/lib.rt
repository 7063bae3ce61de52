//! What overlays with an upper layer keep: inodes without a name, and all that they show while calls change other
//! filesystems. Unless a law says otherwise, worlds have all invariants.
//!
//! An inode is *unnamed* (`is_unnamed`) if it is neither the root nor has a name. An overlay *keeps* its unnamed
//! inodes, and the upper objects of these (`objects_kept`).
//!
//! Each public function is a theorem of the written policy, and does nothing.
#![tactic(auto)]

pub mod counts;
pub mod overlaps;
pub mod staying;
