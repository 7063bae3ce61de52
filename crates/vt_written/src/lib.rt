//! The answers of a run on their way out: lines that are refused by S1 are counted, and answers become JSON.
#![tactic(auto)]

mod counted;
mod denial;
mod json;
mod objects;
mod text;

pub use counted::Counted;
pub use objects::Objects;
