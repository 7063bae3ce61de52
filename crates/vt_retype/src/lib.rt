//! Types of mounts that change with their peer groups: mount_namespaces(7).
#![tactic(auto)]

mod handing;
mod retyping;

pub use retyping::{leave, leave_all, make_slaves, set_types, share};
