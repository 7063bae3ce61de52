//! Peer groups of mounts: mount_namespaces(7), and the kernel's document sharedsubtree.
#![tactic(auto)]

mod additions;
mod by_number;
mod counts;
mod groups;
mod handing;
mod id;
mod index;
pub mod laws;
mod listed;
mod name_list;
mod names;
mod propagation;
mod set;
mod sets;
mod types;

pub use groups::{Groups, NewGroup, Receivers};
pub use listed::Listed;
pub use propagation::type_after_end;
