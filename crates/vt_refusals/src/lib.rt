//! Why a rule refuses a call: the cause of each rule.
#![tactic(auto)]

mod causes;
mod entries;
mod layers;
mod mounts;
mod paths;
mod refusal;
mod tasks;

pub use causes::cause_of;
pub use refusal::Refusal;
