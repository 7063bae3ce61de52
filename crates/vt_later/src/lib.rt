//! The later rules that a refused call would fail too: those that refuse it where the rules before them are let pass.
#![tactic(auto)]

mod attributes;
mod descriptors;
mod laws;
mod looking;
mod making;
mod mounting;
mod passing;
mod pivoting;
mod refusing;
mod removing;
mod tasks;
mod walks;

pub use laws::{mounters_stay_asked, past_no_rule_calls_are_judged};
pub use passing::is_among;
pub use refusing::refusal;
