//! Where a tree of mounts is attached: at its destination, and at the receivers of the mount there.
ghost use Rattle.std.specs.Prelude.{◌≡◌, ◌∷◌, IfOk, filter, map, nat_eq, not, true, ℕ};
ghost use Rattle.std.specs.List.{list_any};
ghost use Rattle.vt_spec.specs.Machine.Attach.{parts_of, receivers_of};
ghost use Rattle.vt_spec.specs.Machine.Mounts as meant;
ghost use Rattle.vt_spec.specs.Machine.World.{World};
ghost use Rattle.vt_group.specs.Grouping.{Has};
ghost use Rattle.vt_location.specs.Locations.{location_of, number_of};
ghost use Rattle.vt_location.specs.MountValue.{mount_of, propagation_of};
ghost use Rattle.vt_location.specs.Numbers.{filesystem_number, mount_number};
ghost use Rattle.vt_mount.specs.MountsValue.{mounts_in};
ghost use Rattle.vt_propagate.specs.Seen.{IsSeen, ReachesAs, is_mounted, joins, mounts_numbered};
ghost use Rattle.vt_laws_mounts.specs.Mounts.Attaching.{numbers_of};
ghost use Rattle.vt_laws_mounts.specs.Mounts.Receivers.{AllGroupsLive};

use crate::reach::Reach;
use smallvec::SmallVec;
use std::alloc::{AllocError, Global};
use vt_group::{Groups, Receivers};
use vt_location::{Location, Mount, MountId, NodeRef, Propagation};
use vt_mount::Mounts;

/// The mounts at which a tree of mounts is attached: the destination's mount, then the receivers that take part, in
/// order of attachment. A receiver takes part if it is attached and shows the destination.
pub fn parts<R: Reach>(
    mounts: &Mounts,
    groups: &Groups,
    directories: &R,
    place: Location,
) -> Result<Vec<Mount>, AllocError>
    requires { is_mounted mounts.now (mount_number place.mount) ≡ true }
    ensures ok { IfOk result (λ parts. (world : World ℕ) → IsSeen world mounts.now groups.now
        → ReachesAs world (R.under directories.now)
        → map mount_of parts.items ≡ parts_of nat_eq world (location_of place)) }
{
    let alloc = mounts.alloc();
    let parent = mounts.get(place.mount).unwrap();
    let receivers = receivers_of(alloc, groups, parent.propagation)?;
    with_receivers(mounts, directories, place, parent, &receivers)
}

/// The mounts that receive what happens on a mount of this type, in order of attachment.
pub(crate) fn receivers_of(
    alloc: Global,
    groups: &Groups,
    propagation: Propagation,
) -> Result<Receivers, AllocError>
    ensures ok { IfOk result (λ ids. (world : World ℕ) (mount : meant.Mount ℕ) → Has world groups.now → AllGroupsLive world
        → mount.propagation ≡ propagation_of propagation
        → map mount_number ids.items ≡ numbers_of (receivers_of nat_eq world mount)) }
{
    match propagation {
        Propagation::Shared(group) => groups.receivers(group),
        Propagation::Slave(_) | Propagation::Private | Propagation::Unbindable => {
            Ok(SmallVec::new(alloc))
        }
    }
}

// A mount, and those of its receivers that take part. Most receivers have the root of the mount itself: whether that
// shows the destination is checked once.
fn with_receivers<R: Reach>(
    mounts: &Mounts,
    directories: &R,
    place: Location,
    parent: Mount,
    receivers: &[MountId],
) -> Result<Vec<Mount>, AllocError>
    ensures { IfOk result (λ parts. map mount_of parts.items
        ≡ mount_of parent ∷ filter (joins (R.under directories.now) (location_of place) (mount_of parent))
        (mounts_numbered (mounts_in mounts.now) (map mount_number receivers.now))) }
{
    let mut parts = Vec::with_capacity(mounts.alloc(), receivers.len().saturating_add(1))?;
    parts.push(parent)?;
    if !has_other(place.mount, receivers) {
        return Ok(parts);
    }
    let shown = directories.is_under(parent.root, place.node);
    for id in receivers {
        if let Some(mount) = mounts.get(*id) {
            if takes_part(directories, place, &parent, shown, &mount) {
                parts.push(mount)?;
            }
        }
    }
    Ok(parts)
}

// Whether there is a mount beside this one among these.
fn has_other(mount: MountId, ids: &[MountId]) -> bool
    ensures { result ≡ list_any (λ id. not (nat_eq mount.count id.count)) ids.now }
{
    ids.iter().any(|id| *id != mount)
}

// Whether a receiver takes part: it is attached, shows the same filesystem, and its root is the destination or above
// it. Of the root of the mount at the destination that is known.
fn takes_part<R: Reach>(
    directories: &R,
    place: Location,
    parent: &Mount,
    shown: bool,
    mount: &Mount,
) -> bool
    requires { shown ≡ R.under directories.now (filesystem_number parent.now.root.filesystem)
        (number_of parent.now.root) (number_of place.node) }
    ensures { result ≡ joins (R.under directories.now) (location_of place) (mount_of parent.now) (mount_of mount.now) }
{
    mount.number != place.mount
        && mount.namespace.is_some()
        && mount.root.filesystem == parent.root.filesystem
        && shows(directories, place.node, parent.root, shown, mount.root)
}

// Whether a directory is this root or lies under it, where that is known of one root.
fn shows<R: Reach>(
    directories: &R,
    directory: NodeRef,
    known: NodeRef,
    shown: bool,
    root: NodeRef,
) -> bool
    requires { shown ≡ R.under directories.now (filesystem_number known.filesystem) (number_of known)
        (number_of directory) }
    ensures { result ≡ R.under directories.now (filesystem_number root.filesystem) (number_of root)
        (number_of directory) }
{
    if root.is_same(known) {
        return shown;
    }
    directories.is_under(root, directory)
}
