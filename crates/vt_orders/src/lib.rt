//! Every order of the lines of a small script that keeps each task's own: which answers differ, and one order for each
//! way in which the lines are answered.
//!
//! By the law `turns_are_whole_calls` these are the answers of all schedules of turns that answer every line.
#![tactic(auto)]

mod count;
mod json;
mod orders;
mod outcomes;
pub mod queues;
pub mod report;
pub mod schedule;
mod text;
mod told;
