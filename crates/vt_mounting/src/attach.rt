//! Mounts that are attached, and the copies that a bind and a new namespace attach, over mounts and filesystems whose
//! uses are counted.

pub mod attaching;
pub mod bound;
pub mod copying;
pub mod grafted;
pub mod laws;
pub mod moved;
pub mod overlaid;
pub mod planned;
