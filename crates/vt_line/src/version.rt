//! The versions of the language.

/// A version of the language of scripts. It is no part of a script: who runs one says which version it is in.
///
/// A line that version 1 takes says the same in version 2.
#[derive(Clone, Copy, Debug, PartialEq, Eq)]
pub enum Version {
    One,
    /// Knows `nosymfollow` among the flags of a mount, and the call `pivot_root`.
    Two,
}
