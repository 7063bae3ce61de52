//! Overlays without an upper layer stay, and none gets one. A world *has no upper layer* (`OverlaysHaveNoUpper`) if
//! none of its overlays has one. *All are named* (`OverlaysAreNamed`) if each inode of each overlay is the root or has
//! a name. Permits are given, and not for `mount overlay`.

pub mod in_use;
pub mod kept;
pub mod left;
pub mod named;
pub mod weaving;
