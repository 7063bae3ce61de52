//! The commands of the program `vtree`: its words are read, files are opened, and what a command finds is written. A fault
//! names what failed, and gives the exit status.
#![tactic(auto)]

mod command;
mod cookbook;
mod explaining;
mod line;
mod order;
mod rules;
mod turning;

pub use command::words;
pub use explaining::{Explainer, LineAsked};
pub use order::obey;
pub use vt_run::fault::{Fault, status};
pub use vt_run::running::Pace;
