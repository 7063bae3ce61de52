//! Overlays without an upper layer. *Writers have layers* (`WritersHaveLayers`) if no descriptor is open for writing in
//! one.
ghost use Rattle.vt_laws_worlds.specs.OverlaysRead.Writers.{ChangesHaveLayers, EveryCallKeepsWriters, OpensCopyNothing, PermitsKeepWriters, PlainOnesAreChanged, PlainWorldsHaveLayers, SameWorldsHaveLayersAlike, ScriptsChangeNone, ScriptsKeepWriters, SweepsKeepWriters};

/// In any world in which writers have layers no given permit changes an overlay without an upper layer (`layers`). If
/// no overlay has one, permits change `plain` trees alone, and `open` copies nothing up (`copied`).
///
/// For `plain` and `copied`, permits are not for `mount overlay`.
pub fn overlays_without_an_upper_layer_are_read_only()
    ensures layers { ChangesHaveLayers }
    ensures plain { PlainOnesAreChanged }
    ensures copied { OpensCopyNothing }
{}

/// Writers that have layers still have them after a given permit, before the sweep and after it (`permits`), after each
/// call (`calls`), and after the sweep of any world (`sweeps`).
///
/// The permit may be for `mount overlay`.
pub fn writers_keep_their_layers()
    ensures permits { PermitsKeepWriters }
    ensures sweeps { SweepsKeepWriters }
    ensures calls { EveryCallKeepsWriters }
{}

/// Writers have layers in any `plain` world, and in one that is the same as a world in which they have (`alike`).
pub fn worlds_whose_writers_have_layers()
    ensures plain { PlainWorldsHaveLayers }
    ensures alike { SameWorldsHaveLayersAlike }
{}

/// In every world that a script leads to `writers` have layers, and no given permit changes an overlay without an upper
/// layer (`none`).
pub fn scripts_leave_overlays_without_an_upper_layer()
    ensures writers { ScriptsKeepWriters }
    ensures none { ScriptsChangeNone }
{}
