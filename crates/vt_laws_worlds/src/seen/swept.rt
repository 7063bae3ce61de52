//! What may go before the sweep at the end of a call.
ghost use Rattle.vt_laws_worlds.specs.Seen.SweptBefore.{AnyMayGoBefore, AnyOrderIsTheSweep, FilesystemsMayGoBefore, GroupsMayGoBefore, InodesMayGoBefore, MountsMayGoBefore};

/// In any world `mounts`, `filesystems` and `groups` that nothing uses may go before the sweep, which leaves the same
/// world. So may `inodes`, if it is fit for overlays, and without unused mounts no more is located.
pub fn what_nothing_uses_may_go_before()
    ensures mounts { MountsMayGoBefore }
    ensures filesystems { FilesystemsMayGoBefore }
    ensures inodes { InodesMayGoBefore }
    ensures groups { GroupsMayGoBefore }
{}

/// In any world fit for overlays with all mounts in use, unused filesystems, inodes and groups may go `before` the
/// sweep, in any order; it leaves the same world.
///
/// Some or all may go. Once all that is left is in use, this is the world that the sweep leaves (`whole`).
pub fn things_go_in_any_order()
    ensures before { AnyMayGoBefore }
    ensures whole { AnyOrderIsTheSweep }
{}
