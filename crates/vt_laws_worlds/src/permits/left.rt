//! What a permit leaves.
ghost use Rattle.vt_laws_worlds.specs.Permits.Left.{GivenPermitsAreUnderWay, GivenPermitsLeaveWorlds, SameIsAWorldToo};

/// A permit leaves a plain world with all invariants (`worlds`), and so is each that is the `same`; before the sweep it
/// is one `under_way`.
pub fn given_permits_leave_worlds()
    ensures worlds { GivenPermitsLeaveWorlds }
    ensures under_way { GivenPermitsAreUnderWay }
    ensures same { SameIsAWorldToo }
{}
