//! Changes of overlays with an upper layer: what a call makes of the upper layer's tree, and of the births that the
//! overlay keeps. A change is planned with all its memory, and then made where nothing may fail.
#![tactic(auto)]

mod changing;
mod copying;
mod keeping;
mod last_name;
mod laws;
mod leaving;
mod linking;
mod losing;
mod lowers;
mod making;
mod removing;

pub use changing::{ChangePlan, ChangedObject, ObjectChange};
pub use keeping::KeptChangePlan;
pub use last_name::is_last_name;
pub use laws::{
    changes_are_made, kept_changes_are_made, last_names_leave_none, links_are_made,
    losers_are_held, new_objects_are_made, removals_are_made, removals_keep_copies,
};
pub use linking::{FurtherName, LinkPlan};
pub use losing::{RemovalPlan, RemovedName};
pub use making::{NamedNode, NewObject, NewPlan};
