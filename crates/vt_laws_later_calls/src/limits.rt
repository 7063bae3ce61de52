//! A namespace holds at most 4,096 mounts (`most_mounts`), its root mount among them. The *parts* of an attachment are
//! the destination's mount and the receivers that take part.

pub mod full_namespace;
pub mod room;
