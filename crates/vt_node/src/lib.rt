//! Inodes of a tree: what each holds, and the entries of a directory.
#![tactic(auto)]

mod copies;
mod entries;
mod new_nodes;
mod nodes;
mod numbers;
mod rooms;

pub use copies::copied_bytes;
pub(crate) use entries::DirectoryEntries;
pub use new_nodes::NewNode;
pub use nodes::{LARGEST_FILE, Node};
pub use numbers::NodeId;
pub use rooms::EntryRoom;
pub use vt_spec::attributes::{Attr, Kind, Mode};
