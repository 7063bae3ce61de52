//! The part of the world of a sealed set of tasks, and calls of others beside it.
//!
//! *Others* are the tasks outside the set. A mount is *theirs* if it is in a namespace of a task of the set. So is a
//! lower layer of an overlay on which such a mount or a location of the set is. Others have a *foothold* on a
//! filesystem if they have a mount of another namespace or a location on it, or on an overlay with a layer in it.
//! Numbers handed in are *unused* if the world uses none of them and no two are equal (`Serves`).
//!
//! Wrong definitions were tried by hand, on scripts with `unshare`, `pivot_root` and `lazy`. These made a law here
//! false: a `sealed` that always holds; a part without detached mounts under members' directories; a `wholly_locked`
//! that forgets inodes without a name; mounts that share events by masters alone.
//!
//! With two others no law was seen false: a foothold that forgets lower layers of overlays of others, and an
//! `is_locked` that forgets upper inodes without a name.
//!
//! Each public function is a theorem of the written policy, and does nothing.
#![tactic(auto)]

pub mod outsiders;
pub mod part;
