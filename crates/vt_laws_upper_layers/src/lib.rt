//! Laws for code that changes overlays with an upper layer, and keeps no merged tree.
//!
//! Each public function is a theorem of the written policy, and does nothing.
#![tactic(auto)]

pub mod births;
pub mod counted;
pub mod lowered;
pub mod rows;
pub mod seen;
