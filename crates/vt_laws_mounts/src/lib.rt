//! Where mounts stand, which receive events, what mount calls change, and what is freed with its last use.
//!
//! The *invariants of mounts* (`MountInvariants`) are five. Mounts are *numbered*: no two have one number. They are
//! *standing*: the chain of parents of each ends in its namespace. They are *apart*: no two have one mount point. They
//! are *nowhere outside*: one in no namespace has no mount point and is private. Groups *live* (`GroupsLive`): the
//! group or master of each mount has members, as has each group up the masters, which come to an end.
//!
//! A change *keeps* what holds after it if it held before. But for whole calls, it comes before the sweep at a call's
//! end. *New numbers* are handed in, unused in the world, for a new mount in its filesystem too, and no two equal
//! (`Serves`).
//!
//! A *detached* mount loses namespace, mount point and group alone. An *ended* group lost its last member. *All else
//! stays*: filesystems, namespaces, tasks and the change number do; of masters this says nothing.
//!
//! Each public function is a theorem of the written policy, and does nothing.
#![tactic(auto)]

pub mod attached;
pub mod counts;
pub mod ends;
pub mod letting_go;
pub mod mounts;
pub mod moves;
pub mod namespaces;
pub mod propagation;
