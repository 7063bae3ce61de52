//! What a system has, read from files, becomes a script: the command `vtree from`.
#![tactic(auto)]

mod bundles;
mod conversion;
mod reading;
mod tables;
mod telling;
mod traces;

pub use conversion::{Conversion, Kind, convert};
