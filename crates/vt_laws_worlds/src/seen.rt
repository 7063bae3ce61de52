//! Overlays for code that keeps no merged tree.

pub mod copied;
pub mod swept;
pub mod used;
