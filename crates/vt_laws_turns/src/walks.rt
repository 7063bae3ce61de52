//! Walks of calls under way.

pub mod alike;
pub mod by_words;
