//! Who is in the way of a refused call: who holds a busy mount, who mounted an overlay, who locks a layer, each with the
//! line that made it so; and since which line a cause holds.
#![tactic(auto)]

mod earlier;
pub mod holders;
pub mod locks;
pub mod mounters;

pub use earlier::{Earlier, earlier_lines};
