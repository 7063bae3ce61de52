//! Overlays after a given permit and the sweep, with an upper layer or without. But for the last law, the permit
//! changes nothing through the overlay (`LeavesAlone`), which is left, and may be for `mount overlay`.
ghost use Rattle.vt_laws_kept.specs.Staying.{LayersAreLeft, LeftAreSeen, NamesAreLeft, OverlaysStayInOrder, ShownIsLeft, TreesAreLeft};

/// Such an overlay keeps its `layers`, and shows at each path what it showed (`shown`). It is as it was without the
/// unnamed inodes that no location is on any more (`tree`).
///
/// Paths lead from its upper, work and lower layers where they led, to what is as it was.
pub fn overlays_stay_with_their_layers()
    ensures layers { LayersAreLeft }
    ensures tree { TreesAreLeft }
    ensures shown { ShownIsLeft }
{}

/// If such an overlay was named by some numbers and what is held, it is `named` by these, with what is held where
/// locations are on it. So it is found along the paths of its layers as they are then (`seen`).
pub fn overlays_stay_named()
    ensures named { NamesAreLeft }
    ensures seen { LeftAreSeen }
{}

/// After any permit but one for `mount overlay`, and the sweep, the overlays are those that are mounted then, in their
/// order.
pub fn overlays_stay_in_order()
    ensures { OverlaysStayInOrder }
{}
