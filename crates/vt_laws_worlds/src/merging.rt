//! Overlays for code that keeps no merged tree.

pub mod mounted;
pub mod upper;
