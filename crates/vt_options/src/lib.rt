//! The options of a mount of an overlay, as mount(8) takes them.
#![tactic(auto)]

mod options;

pub use options::{LayerOptions, Parts};
