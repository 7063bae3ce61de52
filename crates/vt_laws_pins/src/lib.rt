//! Laws of what overlays with an upper layer pin: uses of upper objects without a name, which come and go.
//!
//! Each public function is a theorem of the written policy, and does nothing.
#![tactic(auto)]

pub mod going;
