//! What granted calls make of an overlay that they change. It has an upper layer.
ghost use Rattle.vt_laws_worlds.specs.OverlayPermits.Changed.{AskedChangesCanBeMade, GrantedCallsAreByLayers, GrantedCallsLeaveBelow, PermitsCanChange};

/// A change of the overlay that is asked well by new numbers (`asked`), or that a permit asks for (`permits`), leaves
/// the merged and the upper layer's tree trees (`CanChange`).
///
/// New numbers are different, and no inode's of the upper layer's filesystem.
pub fn permits_can_change_overlays()
    ensures asked { AskedChangesCanBeMade }
    ensures permits { PermitsCanChange }
{}

/// Before the sweep, layers alone say what a granted call makes of the upper layer, at some places (`changed_above`).
pub fn granted_calls_change_the_upper_layer_by_layers()
    ensures { GrantedCallsAreByLayers }
{}

/// Before the sweep, a granted call leaves what lower layers show at paths that go on from no removed name and no name
/// of a move. At other paths they show nothing.
///
/// The lower layers are those before the call, and the upper layer is left out at the path.
pub fn granted_calls_leave_what_is_below()
    ensures { GrantedCallsLeaveBelow }
{}
