//! Overlays for reading: the kernel's overlayfs document. No merged tree is kept: a node is named by where it was born,
//! and what it is is looked up in the trees of the layers.
#![tactic(auto)]

mod laws;
mod merge;
mod nodes;
mod overlays;
mod paths;

pub use laws::nodes_are_like_their_real_objects;
pub use merge::{
    Front, LayerEntry, LayerRef, MOST_LAYERS, MergedDirectory, Names, Real, Under, Way, WayDown,
    entry_in, first_entry, has_names, is_whiteout, led_to, merged_names, real_of, shown, slot_of,
    starts_with, way_down,
};
pub use nodes::Entry;
pub use overlays::Overlay;
