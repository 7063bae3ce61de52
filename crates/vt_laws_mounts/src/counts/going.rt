//! Mounts and filesystems that are freed with their last use.
ghost use Rattle.vt_laws_mounts.specs.Counts.Going.{FilesystemGoesAtZero, LocationsUseMounts, MountGoesAtZero, MountTakesItsCount, MountsUseFilesystems};

/// If mounts are numbered, a look frees a `mount` if it is in no namespace and its count is zero. It frees a
/// `filesystem`, among plain ones, if its count is zero.
///
/// A mount that is freed is one less in the `count` of its filesystem.
pub fn things_go_at_zero()
    ensures mount { MountGoesAtZero }
    ensures filesystem { FilesystemGoesAtZero }
    ensures count { MountTakesItsCount }
{}

/// `locations` that come and go are as many more and less in the counts of mounts, and `mounts` in those of
/// filesystems.
pub fn mounts_and_filesystems_count_their_uses()
    ensures locations { LocationsUseMounts }
    ensures mounts { MountsUseFilesystems }
{}
