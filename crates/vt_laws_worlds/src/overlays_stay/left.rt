//! What a permit leaves where no overlay has an upper layer.
ghost use Rattle.vt_laws_worlds.specs.OverlaysStay.Left.{GivenPermitsAreUnderWayWithoutUpper, GivenPermitsGiveNoUpper, GivenPermitsKeepNames, GivenPermitsLeaveLowers, SameGivesNoUpper};

/// If no overlay has an upper layer, a permit leaves such a world with all invariants (`worlds`), and so is each that
/// is the `same`. Before the sweep it is one `under_way`.
///
/// If all are `named`, they are before the sweep and after it.
pub fn given_permits_give_no_upper_layer()
    ensures worlds { GivenPermitsGiveNoUpper }
    ensures under_way { GivenPermitsAreUnderWayWithoutUpper }
    ensures named { GivenPermitsKeepNames }
    ensures same { SameGivesNoUpper }
{}

/// Every overlay, with an upper layer or without, that exists after a permit has its layers. Paths lead from lower ones
/// where they led, and what lies or counts under these keeps kind, owner, mode, names, bytes and mark.
pub fn given_permits_leave_lower_layers()
    ensures { GivenPermitsLeaveLowers }
{}
