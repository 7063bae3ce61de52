//! The lists of mounts and of peer groups: mountinfo of proc(5), mount_namespaces(7).
#![tactic(auto)]

mod mount_lines;
mod peer_lines;
mod places_by;
mod spots;
mod table;

pub use table::MountTable;
