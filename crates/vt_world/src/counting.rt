//! Counts of uses in the world of the code, which are those of the lowered world.
ghost use Rattle.vt_world.specs.Counting.{ReadOnlyWorldsAreLowered};

/// A world with all invariants in which no overlay has an upper layer is itself lowered, whatever its overlays pin
/// without a name. So its counts are those of the world.
pub fn read_only_worlds_are_lowered()
    ensures { ReadOnlyWorldsAreLowered }
{}
