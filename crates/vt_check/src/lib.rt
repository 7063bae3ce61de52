//! What is wrong with the lines of a script, told before it is run: where, why, and what to write in its place.
#![tactic(auto)]

pub mod answers;
pub mod bytes;
pub mod check;
pub mod diagnose;
pub mod draft;
pub mod faults;
pub mod finding;
pub mod grammar;
mod history;
mod json;
mod nearest;
pub mod object;
mod repair;
pub mod report;
mod rewrites;
mod text;
mod unmodelled;
pub mod words;
