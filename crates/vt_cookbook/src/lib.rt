//! The examples of the cookbook, scripts that hold the answers that they want.
#![tactic(auto)]

pub mod examples;
