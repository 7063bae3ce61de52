//! Why tasks are not sealed off from all others.
#![tactic(auto)]

mod sealing;

pub use sealing::why_unsealed;
