//! Worked examples of the written policy, each a theorem by computation.
#![tactic(auto)]

pub mod answers;
pub mod container_runtimes;
pub mod corners_of_files;
pub mod corners_of_mounts;
pub mod corners_of_overlays;
pub mod corners_of_pivot_root;
pub mod corners_of_propagation;
pub mod corners_of_the_grammar;
pub mod corners_of_turns;
pub mod credentials_links_descriptors;
pub mod first_path;
pub mod grammar;
pub mod mounts;
pub mod namespaces;
pub mod order_of_rules;
pub mod overlay_reading;
pub mod overlay_writing;
pub mod parts_of_sealed_containers;
pub mod paths;
pub mod pivot_root;
pub mod propagation;
pub mod rights;
pub mod script_2;
pub mod sealed;
pub mod turns;
