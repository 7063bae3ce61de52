//! Texts of paths and names.
#![tactic(auto)]

pub mod link;
pub mod path;

pub use vt_spec::errors::{Deny, Errno, Rule};
