//! Refusals, rules, which calls a permit is given to, and numbers, which do not matter.
//!
//! No law but `same_worlds_are_judged_alike` asks for invariants of a world.
//!
//! Each public function is a theorem of the written policy, and does nothing.
#![tactic(auto)]

pub mod denials;
pub mod given;
pub mod judged;
pub mod numbers;
pub mod rules;
pub mod same;
