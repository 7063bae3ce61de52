//! What the sweep leaves.
ghost use Rattle.vt_laws_worlds.specs.Worlds.Kept.{SettlingLeavesAWorld};
ghost use Rattle.vt_laws_worlds.specs.Worlds.Swept.{ExitsAreSweptOnce, LazyUnmountsAreSweptOnce};

/// The sweep of a plain world under way leaves a plain one with all invariants.
pub fn what_is_left_is_a_world()
    ensures { SettlingLeavesAWorld }
{}

/// A sweep before and after each exit (`exits`), or event of a `lazy` unmount, leaves what one at the end leaves. The
/// world is fit for overlays and has the invariants of mounts.
///
/// Else the world is any. The events of a `lazy` unmount detach its mounts.
pub fn one_sweep_serves_for_several()
    ensures exits { ExitsAreSweptOnce }
    ensures lazy { LazyUnmountsAreSweptOnce }
{}
