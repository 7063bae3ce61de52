//! Laws of the tree of an overlay.
ghost use Rattle.vt_overlay.specs.Alike.{ObjectsAreAlike};

/// The owner, group, mode, kind and bytes of a node of an overlay are those of its real object.
pub fn nodes_are_like_their_real_objects()
    ensures { ObjectsAreAlike }
{}
