//! What names of directories lead to, kept for walks: a cache that says only what it was told.
#![tactic(auto)]

mod cached;
mod kept;
mod laws;
#[cfg(test)]
mod tests;

pub use cached::Names;
pub use kept::Kept;
pub use laws::{
    kept_names_say_what_worlds_show, mounts_of_a_filesystem_show_the_same,
    only_what_was_kept_is_answered,
};
