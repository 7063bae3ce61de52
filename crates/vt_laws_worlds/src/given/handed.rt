//! Numbers that a program hands to a call.
ghost use Rattle.vt_laws_worlds.specs.Given.NumbersHanded.{NumbersAtPlacesServe, NumbersAtPlacesServeNamed};

/// A program hands a line counts from the next one on, with different even numbers at some places. These serve
/// (`ServesInHand`) any world that keeps to the other even numbers and earlier counts (`serve`), or has no others
/// (`named`).
pub fn numbers_at_places_serve()
    ensures serve { NumbersAtPlacesServe }
    ensures named { NumbersAtPlacesServeNamed }
{}
