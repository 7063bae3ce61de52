//! What overlays keep without a name, as nodes are pinned and unpinned in turn: which nodes are forgotten, and what is
//! counted of those that are not. Each public function is a law, and does nothing.
#![tactic(auto)]

pub mod counting;
pub mod forgetting;
pub mod turns;
