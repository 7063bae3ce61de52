//! The part of a set of tasks by itself.
ghost use Rattle.vt_laws_members.specs.Changes.Parts.{PartIsSettled, PartOfAPart};

/// The part of the part of a set is the part (`again`), and the sweep at a call's end takes nothing from the part of a
/// sealed set (`settled`).
///
/// For `again` the set need not be sealed off, and a filesystem may be in the part by lower layers alone.
pub fn a_part_of_a_part_is_the_part()
    ensures again { PartOfAPart }
    ensures settled { PartIsSettled }
{}
