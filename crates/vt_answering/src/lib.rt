//! The command that answers a script: as text, or as JSON. What is to be said of it beside that goes to the error output.
#![tactic(auto)]

mod answering;
mod noting;

pub use answering::{Form, ScriptAsked, answer};
