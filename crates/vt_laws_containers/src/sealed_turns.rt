//! Turns beside a sealed set.

pub mod members;
pub mod outsiders;
