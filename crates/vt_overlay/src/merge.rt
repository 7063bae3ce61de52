//! What the layers of an overlay show: the kernel's overlayfs document. Nothing is kept of it: it is looked up in the
//! trees of the layers.

mod climbing;
mod entries;
mod following;
mod layers;
mod merging;
mod naming;
mod showing;
mod ways;

pub use climbing::{Under, WayDown, way_down};
pub use entries::{is_whiteout, slot_of};
pub use following::led_to;
pub use layers::{LayerEntry, LayerRef, MergedDirectory, Real};
pub use merging::{MOST_LAYERS, entry_in, first_entry};
pub use naming::{has_names, merged_names};
pub use showing::{real_of, shown};
pub use ways::{Front, Names, Way, starts_with};
