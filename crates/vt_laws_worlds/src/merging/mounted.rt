//! Overlays that are mounted; numbers handed in are different, and no filesystem's (`AreNewNumbers`).
ghost use Rattle.vt_laws_worlds.specs.Merging.MountedAnew.{LayersAreReached, MountedAnewLinksTheSame, MountedAnewShowsTheSame, MountedLayersAreReached, MountedOverTheSameLayers, MountingLeavesAWorld, MountingLeavesOverlays, MountingLeavesTrees, MountingLetsNothingGo, PolicyMountsAWorld, RaisingKeepsWorlds};

/// After `mount overlay` of an existing task, granted or refused, by unused numbers, all invariants hold (`world`), and
/// the sweep frees `nothing`.
///
/// `trees`, `overlays` and `nothing` need no unused numbers and no existing task. The world after the last step of the
/// policy has all invariants, too (`policy`); `raised` change numbers keep them.
///
/// Names lead from the roots of their trees to the layers that the words of `mount overlay` lead to (`reached`). So
/// they do in the world that the policy leaves, if the call is granted (`reached_later`).
pub fn mounting_an_overlay_leaves_the_invariants()
    ensures reached { LayersAreReached }
    ensures reached_later { MountedLayersAreReached }
    ensures nothing { MountingLetsNothingGo }
    ensures trees { MountingLeavesTrees }
    ensures overlays { MountingLeavesOverlays }
    ensures world { MountingLeavesAWorld }
    ensures raised { RaisingKeepsWorlds }
    ensures policy { PolicyMountsAWorld }
{}

/// The remount law: a granted `mount overlay` shows the tree that an overlay of another world showed, if its `layers`
/// lead at every path to the same, but for numbers.
///
/// The new overlay is in the world that the policy leaves. The law holds over the `same` layers, on unchanged trees.
///
/// Over the same upper layer (or none in both) and lower ones, on unchanged trees, two paths lead to one inode just if
/// they did in the old one (`links`).
pub fn an_overlay_mounted_anew_shows_the_same()
    ensures layers { MountedAnewShowsTheSame }
    ensures same { MountedOverTheSameLayers }
    ensures links { MountedAnewLinksTheSame }
{}
