//! What is done with each of several files: their scripts are checked, or tested, or written anew with the answers that are
//! given. Of a folder all scripts are taken.
#![tactic(auto)]

mod folders;
mod working;

pub use working::{Job, Work, work_on_all};
