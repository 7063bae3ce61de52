//! A line of a script explained: who calls, where its paths lead, which rule answers, who holds a busy mount, who mounted
//! an overlay or locks a layer, and which mounts come, go and change.
#![tactic(auto)]

mod causes;
mod explaining;
mod head;
mod later;
mod lines;
mod refused;
mod sealed;

pub use explaining::explain;
pub use head::Numbered;
pub use lines::{is_spoken, line_at, nearest_call};
pub use vt_check::check::Format;
