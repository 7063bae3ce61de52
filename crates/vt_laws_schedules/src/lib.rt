//! Schedules of scripts have one text, whatever unused numbers their turns are handed.
//!
//! *Unused* numbers are those that the world does not keep to (`vt_laws_worlds`). A call under way may hold a number of a
//! filesystem that is gone, and that is handed out again: then the number that it holds of its task or of its namespace is
//! overtaken.
//!
//! Each public function is a theorem of the written policy, and does nothing.
#![tactic(auto)]

pub mod one_text;
