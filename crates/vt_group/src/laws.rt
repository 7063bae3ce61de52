//! Laws of the groups of a world.
//!
//! Each public function is a theorem of the written policy, and does nothing.
ghost use Rattle.vt_group.specs.Laws.{HasOneGrouping, JoiningKeepsGroups, LeavingKeepsGroups, OpeningHasNoGroups, RegroupedIsTyped, ShowsMasters, ShowsTypes, SlavesKeepGroups, StartingKeepsGroups};

/// The opening world has no groups.
pub fn the_opening_world_has_no_groups()
    ensures { OpeningHasNoGroups }
{}

/// A world has `one` grouping. It shows the type of each mount (`types`), an unbindable one as private, and the master
/// of each group that has members (`masters`).
pub fn a_world_has_one_grouping()
    ensures one { HasOneGrouping }
    ensures types { ShowsTypes }
    ensures masters { ShowsMasters }
{}

/// Once a world is regrouped, its groups alone give the types of its mounts and the masters, but for which mounts are
/// unbindable. Masters of groups without members do not count.
pub fn a_regrouped_world_is_typed_by_its_groups()
    ensures { RegroupedIsTyped }
{}

/// Groups stay living if a mount leaves (`leave`), becomes a slave (`slave`), joins a group (`join`) or is the first of
/// a new one (`start`). Masters that are given have members; a group joined has members or no master.
///
/// Groups live if the group or master of each mount has members, and so has each group up the masters, which come to an
/// end. After the change, groups without members are handed on.
pub fn groups_live_on()
    ensures leave { LeavingKeepsGroups }
    ensures slave { SlavesKeepGroups }
    ensures join { JoiningKeepsGroups }
    ensures start { StartingKeepsGroups }
{}
