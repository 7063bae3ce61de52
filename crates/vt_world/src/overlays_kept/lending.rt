//! What is lent for nodes of overlays that are kept.
ghost use Rattle.vt_world.specs.OverlaysKept.Lending.{RealObjectsAreLent};

/// If the layers of an overlay are directories of plain trees, what is lent for a node is its real object: what its
/// path leads to in its layer.
///
/// Entries and parent are by slots of that layer.
pub fn real_objects_are_lent()
    ensures { RealObjectsAreLent }
{}
