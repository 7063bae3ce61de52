//! Overlays of both kinds, read-only and with an upper layer, as one type: the kernel's overlayfs document.
#![tactic(auto)]

mod laws;
mod layered;
mod looking;
mod pinning;

pub use laws::{
    kept_uses_are_locations, layered_objects_are_alike, layered_overlays_stay,
    uses_of_kept_nodes_are_not_seen,
};
pub use layered::Layered;
