//! Numbers in use.
ghost use Rattle.vt_laws_worlds.specs.OneText.InUse.{AnyWorldsHaveNumbersInUse, AnyWorldsKeepToNumbersInUse, UnusedNumbersServe};

/// Each number that the world has anywhere is in use (`named`), and it keeps to all numbers with those in use among
/// them (`kept`).
///
/// If those in use are even or earlier counts, a line may be handed counts from the next one on, with different unused
/// even numbers at given places (`serve`).
pub fn any_worlds_have_numbers_in_use()
    ensures named { AnyWorldsHaveNumbersInUse }
    ensures kept { AnyWorldsKeepToNumbersInUse }
    ensures serve { UnusedNumbersServe }
{}
