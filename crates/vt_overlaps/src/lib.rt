//! Whether a directory overlaps layers of overlays: the kernel's overlayfs document, "sharing and copying layers".
#![tactic(auto)]

mod directories;
mod laws;
mod overlaps;

pub use directories::{overlaps_one_of, overlaps_written};
pub use laws::{
    directories_overlap_as_in_the_world, overlaps_are_with_live_layers,
    what_lies_in_layers_is_locked,
};
pub use overlaps::overlaps_live;
