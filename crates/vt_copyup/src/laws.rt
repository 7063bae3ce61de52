//! Laws of plans.
ghost use Rattle.vt_copyup.specs.ForkLaws.{CopiesArePlannedApart, ForksAreReady, ForksMakeCopies};
ghost use Rattle.vt_copyup.specs.Laws.{PlansMakeCopies, PromisesAreGivenBack};

/// What a plan makes is the definitions' copy of the path with its missing parents, if the copies have the numbers
/// that are handed out.
pub fn plans_make_copies()
    ensures { PlansMakeCopies }
{}

/// A plan that is given back leaves the filesystems as they were before it was made.
pub fn promises_are_given_back()
    ensures { PromisesAreGivenBack }
{}

/// What a fork makes is the definitions' copy of the path of the first object, and then that of the second one's: the copies
/// of the second begin where those of the first have ended.
///
/// The copies have the numbers that are handed out. What is to be copied is planned before anything is: the copies of the
/// first object show the same.
pub fn forks_make_copies()
    ensures { ForksMakeCopies }
{}

/// A fork of two plans that are ready is ready, once inodes and births are promised for all its copies (`ready`). The copies
/// of a directory that its plan does not share with another one are of other nodes than those of that (`apart`).
pub fn forks_are_ready()
    ensures ready { ForksAreReady }
    ensures apart { CopiesArePlannedApart }
{}
