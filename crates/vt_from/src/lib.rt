//! What a system has becomes a script: each call beside the line or the field that it comes from.
#![tactic(auto)]

pub mod flags;
pub mod folders;
pub mod lines;
pub mod script;
pub mod words;
