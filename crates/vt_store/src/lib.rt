//! All filesystems: plain trees and overlays over them, looked at alike, counted alike, and changed.
#![tactic(auto)]

mod counting;
mod entering;
mod laws;
mod layer_counts;
mod layers;
mod locks;
mod looking;
mod naming;
mod overlays;
mod paths;
mod pinning;
mod store;
mod tally;

pub use store::Store;
pub use vt_overlay::Entry;
