//! Files of scripts: their lines beside the answers that they want, and the version of the language that they name.
#![tactic(auto)]

pub mod entry;
pub mod header;
