//! The command that shows the world to which a script leads, and which script of a file it is about.
#![tactic(auto)]

mod ended;
mod noting;
mod showing;

pub use noting::{ScriptRead, note_second};
pub use showing::{WorldAsked, script_at, scripts_in, show};
