//! The judgement of a mount of an overlay: the walks to the layers that its options name, and the rules of layers.
#![tactic(auto)]

mod judging;
mod looks;
mod rules;
mod walks;

pub use judging::{OverlayWords, layers_named, mount_overlay};
pub use looks::LookAtLayers;
pub use rules::{MOST_LOWERS, may_be_layers};
pub use walks::{KEPT_LOWERS, LayerLocations, Lower, Lowers, layers_walked};
