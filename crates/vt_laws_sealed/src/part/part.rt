//! What the part of a set depends on and what it shows.
ghost use Rattle.vt_laws_sealed.specs.Part.Parts.{DeadMountsAreInNoPart, MountsOverAreThoseOfThePart, OnlyTheirFlagsChangeThePart, PartIsByObservations, PartOfThePartIsThePart, UnusedFilesystemsMayChange};

/// A set has the same part, mounts, used filesystems and lower layers in two worlds in which it sees the same
/// (`SeesTheSame`, `observations`).
///
/// It sees its tasks; mounts, namespaces and filesystems of the part; masters of groups of theirs; and filesystems that
/// it uses directly.
///
/// The part stays if a filesystem is replaced that the set does not use and that holds no lower layer of theirs
/// (`unused`). It stays if mounts go that nothing uses (`dead`).
pub fn a_part_is_what_its_tasks_see()
    ensures observations { PartIsByObservations }
    ensures unused { UnusedFilesystemsMayChange }
    ensures dead { DeadMountsAreInNoPart }
{}

/// The part of the part is the part, if the set uses each filesystem with a lower layer of theirs (`again`). By the
/// invariants of mounts, it has the same mounts `over` locations on mounts of theirs.
///
/// For `over`, a mount may also be a detached one with a root or working directory of theirs. By these invariants, too,
/// setting the `flags` of a mount of theirs and taking the part commute.
pub fn a_part_shows_what_the_world_shows()
    ensures again { PartOfThePartIsThePart }
    ensures over { MountsOverAreThoseOfThePart }
    ensures flags { OnlyTheirFlagsChangeThePart }
{}
