//! The lines of a script, read and answered: what a line asks for, and how its answer is printed.
#![tactic(auto)]

mod calls;
mod directives;
pub mod fault;
mod hex;
pub mod line;
mod listing;
mod names;
mod number;
mod peers;
pub mod print;
mod refusal;
mod token;
pub mod version;
pub mod who;
mod words;
