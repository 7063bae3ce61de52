//! What is freed after a change of mounts with overlays.
ghost use Rattle.vt_laws_mounts.specs.LettingGo.MountingOverlays.{EndingWithOverlaysLetsGo, LazyUnmountsWithOverlaysLetGo, MountsOnDirectoriesWithOverlaysLetGo, MovesWithOverlaysLetGo, MovingWithOverlaysLetsGo, PivotsWithOverlaysLetGo, TakingAwayWithOverlaysLetsGo, UnmountsWithOverlaysLetGo};
ghost use Rattle.vt_laws_mounts.specs.LettingGo.Several.{OneSweepForAllEventsWithOverlays, OneSweepForAllMountsWithOverlays, OneSweepForEventsWithOverlays, OneSweepForMountsWithOverlays};

/// The same (`taken_away`, `ended`, `moved`).
pub fn what_mounts_leave_goes_with_overlays()
    ensures taken_away { TakingAwayWithOverlaysLetsGo }
    ensures ended { EndingWithOverlaysLetsGo }
    ensures moved { MovingWithOverlaysLetsGo }
{}

/// The same (`unmount`, `lazy`, `directory`).
pub fn what_an_unmount_leaves_goes_with_overlays()
    ensures unmount { UnmountsWithOverlaysLetGo }
    ensures lazy { LazyUnmountsWithOverlaysLetGo }
    ensures directory { MountsOnDirectoriesWithOverlaysLetGo }
{}

/// The same of a move (`moves`) and a `pivot`, as calls.
pub fn what_a_move_leaves_goes_with_overlays()
    ensures moves { MovesWithOverlaysLetGo }
    ensures pivot { PivotsWithOverlaysLetGo }
{}

/// The same (`several`, `each`), and of `events_of_unmounts_are_swept_once` (`event`, `events`).
pub fn mounts_that_leave_one_by_one_are_swept_once_with_overlays()
    ensures several { OneSweepForMountsWithOverlays }
    ensures each { OneSweepForAllMountsWithOverlays }
    ensures event { OneSweepForEventsWithOverlays }
    ensures events { OneSweepForAllEventsWithOverlays }
{}
