//! The words of a call's paths, one after the other, and the filesystems that each of them meets.
#![tactic(auto)]

mod aims;
mod entry;
mod here;
mod meeting;
mod next;
mod over;
mod paths;
mod places;
mod walked;
mod words;

pub use entry::may_begin;
pub use here::Steps;
pub use next::call_words;
pub use over::LookOver;
pub use paths::{Route, routes};
