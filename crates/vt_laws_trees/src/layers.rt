//! What the layers of an overlay show, and what locks them. Changes and calls are before the sweep.
//!
//! An overlay *has layers* (`AreLayers`): one at least, each a directory of a plain tree. A layer is *cut* at a path if
//! a higher one has a whiteout, a non-directory or an opaque directory there, or at a non-empty prefix. An inode is
//! *kept* (`IsKept`) if kind, owner and mode, names, bytes or text, and mark are; *alike* (`IsAlike`), if all these but
//! names are.

pub mod directories;
pub mod layers;
pub mod locked;
pub mod mounting;
pub mod views;
