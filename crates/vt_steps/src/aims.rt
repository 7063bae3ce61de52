//! What a call takes its paths for.

/// What a path is walked for.
#[derive(Clone, Copy, Debug)]
pub(crate) enum Aim {
    /// An object, a final symlink followed.
    Object,
    /// An object, a final symlink not followed unless a slash follows it.
    Symlink,
    Directory,
    /// A directory that is not removed.
    Source,
    /// That, and then the root of the topmost mount over it.
    Destination,
    /// A file that exists, or a name for it; a final symlink is followed.
    File,
    /// A name, whether it exists or not.
    New,
    /// So, but no slash follows a missing name.
    NewLeaf,
    /// A name that exists.
    Old,
    /// So; a slash after it asks for a directory.
    OldLeaf,
    /// The new name of a rename: a slash after it asks that a directory is renamed.
    Renamed { directory: bool },
}
