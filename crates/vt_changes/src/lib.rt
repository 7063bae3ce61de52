//! Change numbers of tasks, namespaces and filesystems, beside the world that has them.
#![tactic(auto)]

mod changed;
mod dated;
mod mounts;
mod numbers;
mod raising;

pub use dated::Dated;
