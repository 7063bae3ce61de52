//! What layers show after a whole change, with the copies that it needs.
ghost use Rattle.vt_laws_trees.specs.Overlays.WholeChanges.{CallsKeepOtherOverlays, ChangedOverlayIsMerged, ChangesKeepShown, HiddenStaysHidden};
ghost use Rattle.vt_laws_trees.specs.Overlays.WholeChanges.{OtherOverlaysStayMerged, OverlaysAreWhole, ShownIsMerged};

/// After a good change the overlay shows its layers (`changes`), and what was hidden in lower layers stays so
/// (`hidden`). In a world it and all others are merged then (`world`, `others`, `calls`).
///
/// - `merged`, `whole`: an overlay of a world that shows its layers is merged (`IsMerged`). In a world with all
///   invariants each with an upper layer is whole.
/// - `world`: after a good change in a world the overlay is merged, its lower layers as they are then.
/// - `others`: every other overlay stays and is merged, if what the change names exists.
/// - `calls`: after a task's call on files, each that it does not go through stays and is merged.
pub fn changes_keep_what_is_shown()
    ensures changes { ChangesKeepShown }
    ensures hidden { HiddenStaysHidden }
    ensures merged { ShownIsMerged }
    ensures whole { OverlaysAreWhole }
    ensures world { ChangedOverlayIsMerged }
    ensures others { OtherOverlaysStayMerged }
    ensures calls { CallsKeepOtherOverlays }
{}
