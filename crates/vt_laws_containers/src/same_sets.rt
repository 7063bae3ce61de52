//! Worlds are *the same* (`SameWorlds`) but for change numbers and the order of the numbers beside trees.

pub mod members;
pub mod outsiders;
pub mod sets;
pub mod turns;
