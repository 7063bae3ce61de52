//! The rules of the policy as a table: when each refuses, its manual page, and its script.
#![tactic(auto)]

pub mod pages;
