//! What goes with the last location on it, and with the last mount of an overlay, counted in the lowered world.
ghost use Rattle.vt_laws_pins.specs.Above.{ExchangesHaveNoOrder, UsesGoAbove, UsesGoBesidePins};
ghost use Rattle.vt_laws_pins.specs.Counted.{LetGoAreCounted};
ghost use Rattle.vt_laws_pins.specs.Gone.{PinsGoWithTheirInodes};

/// In a world under way, with the invariants of overlays, what overlays pin is what they pin after the sweep, and the upper
/// objects of unnamed inodes on which the sweep leaves no location.
pub fn pins_go_with_their_inodes()
    ensures { PinsGoWithTheirInodes }
{}

/// Where mounts and tasks change alone in a world with all invariants, and the sweep takes what nothing uses then, uses go
/// so in the lowered worlds (`uses`): what mounts and tasks exchange, pins with their inodes, layers with their overlays.
/// What is exchanged where overlays pin nothing, up to what is in use, is exchanged beside the pins (`beside`).
///
/// It is said of a plain filesystem that stays, in whatever `order` uses come and go. So `uses_above_are_counted` says what
/// is counted then.
pub fn uses_go_above()
    ensures uses { UsesGoAbove }
    ensures beside { UsesGoBesidePins }
    ensures order { ExchangesHaveNoOrder }
{}

/// Where mounts and tasks change alone, an unnamed inode of an overlay is let go just if it loses as many uses as locations
/// were on it and came to it.
///
/// So its last use is seen by a count, as code keeps it.
pub fn what_is_let_go_is_counted()
    ensures { LetGoAreCounted }
{}
