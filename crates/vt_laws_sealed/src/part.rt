//! The part of the world of a sealed set of tasks.

pub mod groups;
pub mod locks;
pub mod part;
pub mod seals;
pub mod walks;
