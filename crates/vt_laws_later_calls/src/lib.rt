//! What later calls see of earlier ones, and what calls let go of.
//!
//! Unless a law says otherwise, the world has all invariants, and the numbers handed in are *unused*: the world uses
//! none of them, and no two are equal (`Serves`). A world is *plain* if it has no overlay.
//!
//! Each public function is a theorem of the written policy, and does nothing.
#![tactic(auto)]

pub mod ends;
pub mod exits;
pub mod last_use;
pub mod later;
pub mod limits;
pub mod tables;
pub mod undone;
