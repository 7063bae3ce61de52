//! Sealed containers: what calls of their tasks leave to others, and the answers to whole scripts and turns.
//!
//! Words are those of `vt_laws_sealed`, `vt_laws_turns` and `vt_laws_members`. Laws of footholds have the premises of
//! `vt_laws_members` (`IsCallOfTheirs`), and the numbers handed in are unused.
//!
//! A call *gives others no foothold* (`GivesNoFoothold`) if the first three conditions of `sealed` hold of the set that
//! it leaves: `holds_all_tasks`, `shares_no_events`, `no_outsider_on_mounts`. On a filesystem that this set uses,
//! others must have a foothold just if the set used it before and they had one. The set need not be sealed off then.
//!
//! Laws of turns are of states of a scheduler whose world has all invariants. The *part of a state* is the part of its
//! world, the set's calls under way, and all queues (`part_of_sched`). `HasItSealed`: the set is sealed off, and each
//! of its names is the name of a task.
//!
//! A *turn of others* (`IsOutsidersTurn`) is of a task outside the set or of `!`. A call first in its queue enters no
//! namespace of theirs and, if it is a fork, names at most 32 supplementary groups. Numbers handed in, if any, are
//! unused.
//!
//! Each public function is a theorem of the written policy, and does nothing.
#![tactic(auto)]

pub mod footholds;
pub mod members_turns;
pub mod same_sets;
pub mod sealed_scripts;
pub mod sealed_turns;
