//! What a granted call on an overlay keeps.
ghost use Rattle.vt_laws_worlds.specs.OverlayPermits.Kept.{PermitsKeepOverlayInvariants, PermitsMakeTheirChange};

/// Before the sweep, a permit leaves the filesystems that its `change` makes, in any world. A granted call that changes
/// an overlay with an upper layer keeps all invariants of overlays and of trees (`kept`).
pub fn permits_keep_overlay_invariants()
    ensures change { PermitsMakeTheirChange }
    ensures kept { PermitsKeepOverlayInvariants }
{}
