//! Where paths lead, through mounts and symbolic links: path_resolution(7).
#![tactic(auto)]

mod here;
mod places;
mod steps;
mod upward;
mod walks;
mod words;

pub use places::{
    file_walk, new_leaf_walk, new_walk, old_leaf_walk, old_walk, place_walk, rename_new_walk,
};
pub use walks::{
    ObjectFound, destination_walk, directory_walk, object_found_walk, object_walk, source_walk,
    symlink_walk,
};
