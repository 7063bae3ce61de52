//! Rows of pins and unpins, while overlays go: what an event does to nodes that are kept without a name.
ghost use Rattle.vt_kept_nodes.specs.Turns.{LocationsAfterSteps, StepsAreCounted, StepsAreJoined};

/// Rows are put together (`joined`). After a row of pins and unpins, of nodes that are there, the overlays that are left count
/// the locations after it, and have their layers with some of their nodes (`counted`).
///
/// After pins, and unpins behind them, as many locations are on an inode as were on it, came to it and went (`located`).
pub fn rows_of_pins_are_counted()
    ensures joined { StepsAreJoined }
    ensures counted { StepsAreCounted }
    ensures located { LocationsAfterSteps }
{}
