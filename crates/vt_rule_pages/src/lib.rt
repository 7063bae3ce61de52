//! The rules of the policy, told: of a rule, of an error, of a call, and all of them.
#![tactic(auto)]

pub mod markdown;
pub mod told;

pub use vt_check::answers::meant;
pub use vt_rule_table::pages;
