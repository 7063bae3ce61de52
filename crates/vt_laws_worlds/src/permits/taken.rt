//! How many of the numbers handed in a permit takes.
ghost use Rattle.vt_laws_worlds.specs.Permits.Taken.{CountsGoOn, GivenCountsGoOn, GivenPermitsAreLeft, GivenPermitsKeepToTaken, GivenWithAnySupply, HandedCountsGoOn, JudgementsDoNotSeeSupplies, OnlyTheFirstAreTaken, PermitsKeepToTaken};

/// In an ungrouped world a permit of an existing task, given or not, takes only the first of the numbers handed in, as
/// many as its kind takes (`numbers_taken`, `first`).
///
/// What it leaves keeps to the numbers of world and permit and to those taken (`numbers`), also with `counts` and a
/// program's supply (`handed`). Of `mount overlay` this says nothing.
pub fn only_the_first_numbers_are_taken()
    ensures first { OnlyTheFirstAreTaken }
    ensures numbers { PermitsKeepToTaken }
    ensures counts { CountsGoOn }
    ensures handed { HandedCountsGoOn }
{}

/// In worlds with overlays too, a call but `mount overlay` is `judged` alike by any numbers, and a permit that is given
/// is `given` by all unused ones.
pub fn judgements_do_not_see_supplies()
    ensures judged { JudgementsDoNotSeeSupplies }
    ensures given { GivenWithAnySupply }
{}

/// A permit has only numbers to which the world keeps (`permits`, with overlays too). What it leaves of an ungrouped
/// world keeps to those and to the `numbers` taken, also with a program's supply (`counts`).
pub fn given_permits_keep_to_taken()
    ensures permits { GivenPermitsAreLeft }
    ensures numbers { GivenPermitsKeepToTaken }
    ensures counts { GivenCountsGoOn }
{}
