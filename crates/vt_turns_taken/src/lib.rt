//! How many turns a call takes where no other task has one between them: one for each word that its walks pass, also in
//! the texts of symlinks, and one in which it is judged and done.
#![tactic(auto)]

mod aims;
mod routes;
mod words;

pub use routes::turns_of;
