//! What a permit leaves.
ghost use Rattle.vt_laws_worlds.specs.Given.LeftWorlds.{GivenPermitsAreUnderWayAnywhere, GivenPermitsLeaveEveryWorld};

/// A given permit, also for `mount overlay`, leaves a world with all invariants (`worlds`), and before the sweep a
/// world `under_way`.
pub fn given_permits_leave_every_world()
    ensures worlds { GivenPermitsLeaveEveryWorld }
    ensures under_way { GivenPermitsAreUnderWayAnywhere }
{}
