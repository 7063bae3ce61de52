//! Granted calls of existing tasks, by unused numbers. The copy of an `open` is a change, too.

pub mod asked;
pub mod changed;
pub mod kept;
pub mod through;
pub mod worlds;
