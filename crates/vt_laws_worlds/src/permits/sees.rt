//! What a permit that a call is given guarantees.
ghost use Rattle.vt_laws_worlds.specs.Permits.Sees.{GivenChangesAreProper, GivenChangesFit, GivenPermitsAreSeenTo};

/// What a permit names fits (`permits`, `SeesTo`), with overlays too. Each change of a tree by it is `proper` and
/// within limits, and fits counted inodes with that tree (`alone`).
///
/// Names are free and of a legal length, kinds fit, a directory does not go under itself, limits are kept. Of `stat`,
/// `exec`, `chdir`, `chroot`, `exit`, `unshare`, `setns` and mounts this says nothing.
pub fn given_permits_are_seen_to()
    ensures permits { GivenPermitsAreSeenTo }
    ensures proper { GivenChangesAreProper }
    ensures alone { GivenChangesFit }
{}
