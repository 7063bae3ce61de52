//! Scripts that hold the answers that they want, run and compared.
#![tactic(auto)]

pub mod compare;
mod json;
mod junit;
mod rewrite;
pub mod suite;
pub mod test;
pub mod text;

pub use rewrite::{Rewritten, with_given_answers};
