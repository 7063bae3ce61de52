//! Schedules that go on from states that are the same.
ghost use Rattle.vt_laws_schedules.specs.OneText.{EveryProgramsScheduleHasOneText, EveryScheduleHasOneText, WholeSchedulesAreTold};

/// The queues of a script have one text in the order of a schedule, for its grammar and failed allocations (`schedules`).
/// It goes on after each turn from any state that is the same as the definitions', by numbers in hand to which that world
/// does not keep.
///
/// Which numbers are in hand is given: infinitely many are not, and four different ones of the opening world are. So
/// has each schedule one text that hands out any numbers but `4·c + 3` (`programs`).
///
/// An allocation fails in the turns of the given lines alone, and may fail there (`may_fail`). For the whole grammar the
/// text is `turns_text` (`whole`).
pub fn every_schedule_has_one_text()
    ensures schedules { EveryScheduleHasOneText }
    ensures programs { EveryProgramsScheduleHasOneText }
    ensures whole { WholeSchedulesAreTold }
{}
