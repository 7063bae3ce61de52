//! A script whose lines are answered in turns, in the order of a schedule.
#![tactic(auto)]

mod lines;
mod playing;
mod reading;
mod running;

pub use playing::{Played, play_script};
pub use running::{turns_run, write_replies};
