//! For code that applies permits by changes of its own. Unless a law says otherwise, the world is plain, and permits
//! are given (`IsGiven`). It is *ungrouped* if no mount is shared or a slave.

pub mod in_use;
pub mod left;
pub mod named;
pub mod same;
pub mod sees;
pub mod steps;
pub mod taken;
