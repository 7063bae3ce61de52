//! What `explain` shows of a call, in words, as tables or as objects of JSON: why it is refused, where its paths lead,
//! and which mounts come, go and change.
#![tactic(auto)]

pub mod causes;
pub mod changes;
pub mod layers;
pub mod mounts;
pub mod report;
pub mod rights;
pub mod walked;
