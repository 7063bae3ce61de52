//! Plain changes of an upper layer's tree, and uses that come and go, counted in the lowered world.
ghost use Rattle.vt_laws_upper_layers.specs.CountedAbove.{ExchangesAreLowered, RowsAreCounted, UpperChangesAreCounted, UpperRowsAreCounted, UsesAboveAreSwept};

/// In a world with all invariants, `changes_in_use_are_counted` holds in the lowered world, in which overlays pin what
/// has no name, of each change that fits the counted inodes of a plain filesystem (`change`).
///
/// So does `rows_are_counted` of a row of changes that fit, each in its turn (`swept`). What loses its last name in the
/// row, and stays in use, is pinned before it: overlays may pin any of their upper objects.
///
/// In a world without upper layers in which all is in use, after a row of changes that take no name the changed inodes
/// are counted, and all is in use still (`rows`). Each is proper in the tree, and fits the counted inodes, when its turn
/// comes: copies, new objects, bytes, owner and mode, marks.
pub fn changes_above_are_counted()
    ensures change { UpperChangesAreCounted }
    ensures swept { UpperRowsAreCounted }
    ensures rows { RowsAreCounted }
{}

/// Where mounts and tasks change alone, the uses that they exchange are exchanged in the lowered worlds, whatever overlays
/// pin (`exchanged`).
///
/// Let a world have all invariants, and its lowered world exchange uses with that of a world under way, in which overlays
/// pin what has no name after the sweep. Then what was counted in the lowered world is counted in the one that the sweep
/// leaves (`swept`).
pub fn uses_above_are_counted()
    ensures exchanged { ExchangesAreLowered }
    ensures swept { UsesAboveAreSwept }
{}
