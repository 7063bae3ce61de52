//! Numbers of mounts, peer groups, filesystems and mount namespaces: one counter counts them all, and no number is
//! reused.
ghost use Rattle.std.specs.Prelude.{◌≡◌};

/// The number of a mount: its count. It is only ever compared.
#[derive(Clone, Copy, Debug, Default, PartialEq, Eq, Hash)]
pub struct MountId {
    pub count: u64,
}

impl MountId {
    /// The identifier with this count.
    pub fn new(count: u64) -> Self
        ensures { result ≡ record { count = count } }
    {
        MountId { count }
    }
}

/// The number of a peer group: its count. It is only ever compared.
#[derive(Clone, Copy, Debug, PartialEq, Eq, Hash)]
pub struct GroupId {
    pub count: u64,
}

impl GroupId {
    /// The identifier with this count.
    pub fn new(count: u64) -> Self
        ensures { result ≡ record { count = count } }
    {
        GroupId { count }
    }
}

/// The number of a filesystem: its count. It is only ever compared.
#[derive(Clone, Copy, Debug, PartialEq, Eq, Hash)]
pub struct FilesystemId {
    pub count: u64,
}

impl FilesystemId {
    /// The identifier with this count.
    pub fn new(count: u64) -> Self
        ensures { result ≡ record { count = count } }
    {
        FilesystemId { count }
    }
}

/// The number of a mount namespace: its count. It is only ever compared.
#[derive(Clone, Copy, Debug, PartialEq, Eq, Hash)]
pub struct NamespaceId {
    pub count: u64,
}

impl NamespaceId {
    /// The identifier with this count.
    pub fn new(count: u64) -> Self
        ensures { result ≡ record { count = count } }
    {
        NamespaceId { count }
    }
}
