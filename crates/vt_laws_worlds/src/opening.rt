//! The opening world.
ghost use Rattle.vt_laws_worlds.specs.Worlds.Calls.{OpeningIsAWorld};

/// The opening world is plain and has all invariants, if no two of its numbers are equal.
pub fn the_opening_world_has_the_invariants()
    ensures { OpeningIsAWorld }
{}
