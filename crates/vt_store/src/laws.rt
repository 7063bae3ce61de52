//! Laws of stores.
//!
//! Each public function is a theorem of the written policy, and does nothing.
ghost use Rattle.vt_store.specs.Laws.{MountsAreNotSeen, MountsLeaveLayers, NewOverlaysAreLast, NodesAreLikeObjects, OverlaysStandStill, OverlaysStayWithLayers, WorldsStandOnLayers};

/// The overlays of a store stand on layers if its filesystems are those of a world with all invariants, inodes have
/// numbers of their own filesystem, and what overlays with an upper layer keep is right (`worlds`). They do still while
/// their layers' trees stay, and of one with an upper layer as many numbers beside them (`still`).
pub fn overlays_stand_on_layers()
    ensures worlds { WorldsStandOnLayers }
    ensures still { OverlaysStandStill }
{}

/// A node has the owner, group, mode, kind and bytes of the object that `object` of `Store` lends for it, in a store
/// whose overlays stand on layers.
pub fn nodes_are_like_their_objects()
    ensures { NodesAreLikeObjects }
{}

/// An overlay whose layers are directories of plain trees shows what it showed while the trees of its layers are as
/// they were, with as many numbers beside them, and so is what it keeps beside its layers.
///
/// No other tree matters, and no other overlay.
pub fn overlays_stay_with_their_layers()
    ensures { OverlaysStayWithLayers }
{}

/// If overlays of a store stand on layers, a change of how many mounts show a filesystem leaves filesystems as they are
/// seen (`seen`), and overlays on their layers (`standing`).
pub fn mounts_are_not_seen()
    ensures seen { MountsAreNotSeen }
    ensures standing { MountsLeaveLayers }
{}

/// An overlay whose number is above all others comes after them.
pub fn new_overlays_are_last()
    ensures { NewOverlaysAreLast }
{}
