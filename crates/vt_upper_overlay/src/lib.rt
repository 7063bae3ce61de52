//! Overlays with an upper layer: the kernel's overlayfs document. No merged tree is kept. A node is named by where it
//! was born, also after it was copied up, and its inode is looked up in the trees of the layers.
#![tactic(auto)]

mod laws;
mod looking;
mod names;
mod nodes;
mod overlay;
mod paths;
mod showing;

pub use laws::{looks_see_merged_trees, merged_trees_stand_above, objects_above_are_alike};
pub use names::has_name;
pub use overlay::UpperOverlay;
