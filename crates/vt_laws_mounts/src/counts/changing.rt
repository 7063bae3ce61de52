//! Changes of a plain tree with the counts of its inodes.
ghost use Rattle.vt_laws_mounts.specs.Counts.Changing.{CountedChangesAreSwept, CountsFollowChanges, NamesKeepAll, OnlyFilesChange, OtherCountsStay};
ghost use Rattle.vt_laws_mounts.specs.Counts.Numbers.{SameNumbersArePermuted};

/// A change and the sweep change `only` the files of that filesystem; its counted inodes are the changed ones
/// (`counts`), those of `others` stay. If it is no `Remove` and no `Move`, the sweep frees nothing (`named`).
///
/// The change is of any of the eight kinds.
pub fn changes_are_counted()
    ensures only { OnlyFilesChange }
    ensures counts { CountsFollowChanges }
    ensures others { OtherCountsStay }
    ensures named { NamesKeepAll }
{}

/// After a change and the sweep the `world` is the same (`SameWorlds`) as the old one with the changed inodes' tree and
/// numbers, each once, in any order.
///
/// Two lists of the same `numbers`, each once, are permutations.
pub fn counted_inodes_are_the_world()
    ensures numbers { SameNumbersArePermuted }
    ensures world { CountedChangesAreSwept }
{}
