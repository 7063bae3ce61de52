//! How mounts and unmounts propagate between peer groups: mount_namespaces(7), and the kernel's document sharedsubtree.
#![tactic(auto)]

mod attaching;
mod copying;
mod detaching;
mod falling;
mod filling;
mod groups;
mod indexes;
pub mod laws;
mod lazily;
mod numbering;
mod pushing;
mod reach;
mod receiving;
mod through;
mod unmounting;

pub use attaching::{Plan, attachment};
pub use copying::{Counts, Graft};
pub use detaching::{Detachment, unmount};
pub use filling::{Load, has_room_everywhere, overfills};
pub use lazily::unmount_lazily;
pub use reach::Reach;
pub use receiving::parts;
pub use unmounting::{Going, going, is_busy};
