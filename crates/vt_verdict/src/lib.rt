//! What decides whether a script is bad, and whether it fails: the exit statuses of `vtree check` and `vtree test`.
#![tactic(auto)]

pub mod compare;
pub mod counts;
