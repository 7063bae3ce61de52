//! Numbers in use.
ghost use Rattle.vt_laws_worlds.specs.Permits.InUse.{CountsServeWorlds, HandedNumbersServeWorlds, WorldsHaveNumbersInUse, WorldsKeepToNamedBefore, WorldsKeepToNumbersInUse};

/// Each number that the world has anywhere is in use (`named`), and it keeps to all numbers with those in use among
/// them (`kept`).
///
/// If it keeps to even numbers and earlier counts, it keeps to these without an inode's number that is not in use
/// (`before`).
pub fn worlds_have_numbers_in_use()
    ensures named { WorldsHaveNumbersInUse }
    ensures kept { WorldsKeepToNumbersInUse }
    ensures before { WorldsKeepToNamedBefore }
{}

/// In any world that keeps to even numbers and earlier counts, counts from the next one on are unused (`counts`), also
/// with an unused even number at one place (`inode`).
pub fn counts_serve_worlds()
    ensures counts { CountsServeWorlds }
    ensures inode { HandedNumbersServeWorlds }
{}
