//! Sealed sets of tasks in a world that answers calls, as `Kernel` does. Laws say what a call leaves of a set that is
//! sealed off, and what a script writes for its calls.
//!
//! Laws of calls hold also where an allocation fails. A world of the definitions stands for that of the code
//! (`Calls`).
#![tactic(auto)]

pub mod members;
pub mod outsiders;
pub mod scripts;
