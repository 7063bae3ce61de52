//! Laws of stores over the events of a world: what is kept of an overlay shows the same, whatever a call has changed.

pub mod events;
pub mod inodes;
pub mod lending;
