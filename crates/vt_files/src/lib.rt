//! The files of a command: they are read whole, named on the error output, and written. And the version of the
//! language that a script's first line names.
#![tactic(auto)]

mod reading;
mod telling;
mod version;
mod writing;

pub use reading::{readable, told};
pub use telling::{count_refused, refuse, refuse_text};
pub use version::spoken;
pub use writing::{hand_on, hand_on_text, put, replace};
