//! Whether tasks are sealed off from all others: their namespaces, mounts and filesystems are theirs alone
//! (mount_namespaces(7)), but for trees that no other task can change, since they are layers of an overlay.
#![tactic(auto)]

mod events;
mod filesystems;
mod layers;
mod members;
mod places;
mod sealing;

pub use sealing::Sealing;
