//! A bundle of the OCI runtime specification becomes a script: the steps by which runc makes its container.
#![tactic(auto)]

mod bundle;
mod entry;
mod fields;
mod folders;
mod process;
mod root;
mod saying;

pub use bundle::{BundleFault, script_of};
