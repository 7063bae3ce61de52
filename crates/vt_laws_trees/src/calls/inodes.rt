//! What calls leave of inodes. All but `roots` is of plain calls, and all of a part or an entry of inodes without
//! handed-in numbers.
ghost use Rattle.vt_laws_trees.specs.Calls.Inodes.{CallsChangeTheirOwn, KindsStay, LinkTextsStay, OnlyChmodChangesModes, OnlyChownChangesOwners, OnlyNamingChangesEntries, OnlyOpaqueChangesMarks, OnlyUnusedInodesEnd, OnlyWritesChangeBytes, OtherEntriesStay};
ghost use Rattle.vt_laws_trees.specs.Calls.Reached.{CallsKeepToTheirPaths, RootsStay};

/// A granted call changes no inode but those that its permit names in the filesystem of its location. Any other is as
/// it was or freed (`own`), by the sweep alone (`ends`); no other entry changes (`entries`).
///
/// A permit of `mount plain` names the new root. `entries` is of directories that stay.
pub fn calls_change_their_own()
    ensures own { CallsChangeTheirOwn }
    ensures entries { OtherEntriesStay }
    ensures ends { OnlyUnusedInodesEnd }
{}

/// A call of a task leaves each inode as it was, or freed, but those that its paths and descriptors lead to and one
/// that it makes (`paths`). In every world a remaining filesystem keeps its root (`roots`).
///
/// The call is granted or refused.
pub fn calls_keep_to_their_paths()
    ensures paths { CallsKeepToTheirPaths }
    ensures roots { RootsStay }
{}

/// The `bytes`, `modes`, `owners`, `marks` and `entries` of an inode are changed by their own calls alone, `kinds` and
/// `link_texts` by none. No inode appears but with a handed-in number.
///
/// `write` and `pwrite` change bytes, `chmod` modes, `chown` owners and groups, `opaque` opaque marks, and calls that
/// make, move or remove a name entries.
pub fn parts_change_by_their_own_calls()
    ensures bytes { OnlyWritesChangeBytes }
    ensures modes { OnlyChmodChangesModes }
    ensures owners { OnlyChownChangesOwners }
    ensures entries { OnlyNamingChangesEntries }
    ensures marks { OnlyOpaqueChangesMarks }
    ensures kinds { KindsStay }
    ensures link_texts { LinkTextsStay }
{}
