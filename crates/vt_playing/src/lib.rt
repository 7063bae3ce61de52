//! The command that answers a script in turns, in the order of a schedule.
#![tactic(auto)]

mod playing;

pub use playing::{ScheduleAsked, play};
