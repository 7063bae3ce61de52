//! What an exit lets go of.
ghost use Rattle.vt_laws_later_calls.specs.Exits.{ExitLeavesOneByOne};

/// If a task first closes any of its descriptors, one by one, with a sweep after each, its exit and the next sweep
/// leave what an exit at once leaves.
///
/// Numbers handed in are any; no change number is raised meanwhile.
pub fn an_exit_leaves_descriptors_one_by_one()
    ensures { ExitLeavesOneByOne }
{}
