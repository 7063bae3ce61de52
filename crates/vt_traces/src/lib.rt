//! A trace of strace(1) becomes a script: a task for each process, its calls, and their results as wanted answers.
#![tactic(auto)]

mod call;
mod effects;
mod forking;
mod lines;
mod mounting;
mod needs;
mod process;
mod rows;
mod saying;
mod texts;
mod trace;

pub use trace::{Trace, script_of};
