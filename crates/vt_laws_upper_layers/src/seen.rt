//! Overlays after calls that change them, for code that keeps no merged tree. A task is given the permit of a call that
//! changes an overlay with an upper layer.
ghost use Rattle.vt_laws_upper_layers.specs.SeenAfter.{BirthsFollowCalls, KeptFollowCalls, LayersOfOverlaysStay, OverlaysAreSeenAfterCalls};

/// If the overlay is still there after the sweep, it has the `layers` that it had. Its `births` are those that it had
/// and those of what was copied, of the inodes that are left. What is `kept` is what was or lost its name, if a
/// location of a task, a root or a mount point is on it.
///
/// So its tree and real objects are those that are found by its layers then, births and what is kept (`tree`), as
/// `merged_trees_are_seen` says.
pub fn overlays_are_seen_after_calls()
    ensures layers { LayersOfOverlaysStay }
    ensures births { BirthsFollowCalls }
    ensures kept { KeptFollowCalls }
    ensures tree { OverlaysAreSeenAfterCalls }
{}
