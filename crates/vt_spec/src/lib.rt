//! The written policy of the machine: what every other crate is proved against.
//!
//! The definitions stand in `specs/`; the types that code and definitions share, and one public
//! function for each law of the definitions, stand here.
#![tactic(auto)]

pub mod attributes;
pub mod errors;
pub mod laws;
