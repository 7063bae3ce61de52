//! What permits and the sweep leave of overlays.
ghost use Rattle.vt_laws_worlds.specs.OverlaysStay.Kept.{MountedOverlayStays, MountedOverlaysStay, NumbersRiseStill, PermitsLeaveOverlays, PlainWorldsHaveNoOverlays, SameWorldsHaveNoUpperAlike, SeenTreesStay, SweepsGiveNoUpper, SweepsKeepNames};

/// In a world without an upper layer, a permit leaves all overlays as they were, before the sweep (`unswept`). If all
/// are named, the sweep leaves those that are `mounted` as they were.
///
/// So each that is left is as it was (`one`). Its tree and real objects are found along the paths of its layers as they
/// were, however they are numbered (`seen`).
pub fn overlays_without_an_upper_layer_stay()
    ensures unswept { PermitsLeaveOverlays }
    ensures mounted { MountedOverlaysStay }
    ensures one { MountedOverlayStays }
    ensures seen { SeenTreesStay }
{}

/// If numbers of filesystems rise in their list, and one that a permit makes has the greatest, they rise after the
/// permit, before the sweep and after it.
///
/// Overlays may have upper layers.
pub fn numbers_of_filesystems_rise_still()
    ensures { NumbersRiseStill }
{}

/// The sweep of any world gives it no upper layer (`upper`), and leaves all named, if they were (`named`).
pub fn sweeps_give_no_upper_layer()
    ensures upper { SweepsGiveNoUpper }
    ensures named { SweepsKeepNames }
{}

/// Any `plain` world has no upper layer, and all are named. Nor has one that is the same as a world without one
/// (`alike`).
pub fn worlds_without_upper_layers()
    ensures plain { PlainWorldsHaveNoOverlays }
    ensures alike { SameWorldsHaveNoUpperAlike }
{}
