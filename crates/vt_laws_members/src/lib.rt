//! Calls of tasks of a sealed set, in the world and in the part of the set.
//!
//! The world has all invariants, a set of tasks is sealed off in it, and the caller has a name of the set. A `setns`
//! names a task of the set (`IsCallOfTheirs`). *Each* call may be granted or refused, on plain filesystems or through
//! overlays; a *granted* one is granted in the world.
//!
//! A call *ends alike* (`EndsAlike`) if it has the same answer in the world and in the part, and both leave the same
//! part, change numbers too. That is the part of the set that the call leaves: with a new child, without a task that
//! ends (`grown`).
//!
//! It ends alike whatever numbers are handed in. It does *by one supply* (`EndsAlikeByOne`) if both runs are handed the
//! same numbers, unused in the world (`Serves`). No law says that the set is sealed off after the call.
//!
//! Each public function is a theorem of the written policy, and does nothing.
#![tactic(auto)]

pub mod attached;
pub mod changes;
pub mod detached;
pub mod each_call;
pub mod judging;
pub mod namespaces;
pub mod new_overlays;
pub mod overlay_names;
pub mod types;
