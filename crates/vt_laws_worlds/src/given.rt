//! Permits that calls are given.

pub mod handed;
pub mod left;
