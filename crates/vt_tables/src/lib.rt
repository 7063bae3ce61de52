//! Tables of mounts, as of /proc/PID/mountinfo, become a script: the tasks that have them, and the calls that lead to them.
#![tactic(auto)]

mod attaching;
mod building;
mod comparing;
mod devices;
mod groups;
mod mount;
mod settling;
mod staging;
mod tables;

pub use building::{Converted, script_of};
pub use comparing::{Compared, differences};
pub use tables::Tables;
