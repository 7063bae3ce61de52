//! Sealed sets are answered as if nobody else were there.

pub mod footholds;
pub mod scripts;
