//! A list in one piece that is cheap to shorten at both ends.
#![tactic(auto, unfolding(crate::specs::SliceDeque::items, crate::specs::SliceDeque::room))]

pub mod slice_deque;

pub use slice_deque::SliceDeque;
