//! What calls leave as it was. The world before them has all invariants, and numbers handed in are unused (`IsCallIn`,
//! `IsBeside`).

pub mod frames;
pub mod in_turn;
