//! Copies to the upper layer of a whole overlay (`IsWhole`). New numbers are different, and no inode's of that tree.
ghost use Rattle.vt_laws_worlds.specs.Seen.CopySteps.{CopiesAreMadeInTurn, CopiesGoStepByStep, CopiesShowTheSame, PathsHaveTheirCopies};

/// After the copy of a path that leads somewhere, layers show what they showed to be copied (`same`). The copy of one
/// more name, which the upper layer lacks, is one new inode more (`step`).
///
/// Copies may be planned before the first is made, one for each missing prefix, by what is shown then. Made one in the
/// other, they are the copy of the path (`all`). Each path that leads somewhere has such a plan (`planned`).
pub fn copies_go_step_by_step()
    ensures same { CopiesShowTheSame }
    ensures step { CopiesGoStepByStep }
    ensures all { CopiesAreMadeInTurn }
    ensures planned { PathsHaveTheirCopies }
{}
