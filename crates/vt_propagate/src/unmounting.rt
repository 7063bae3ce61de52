//! Which mounts an unmount detaches: umount(2), and the kernel's document sharedsubtree, "Unmount semantics".
ghost use Rattle.std.specs.Prelude.{◌≡◌, ◌∷◌, [], IfOk, find, map, nat_eq, nat_lt, option_map, ℕ};
ghost use Rattle.std.specs.List.{list_any};
ghost use Rattle.vt_spec.specs.Lists.{holds_of};
ghost use Rattle.vt_spec.specs.Machine.Detach.{going as going_of, is_busy as is_busy_of};
ghost use Rattle.vt_spec.specs.Machine.World.{World, mount_numbered};
ghost use Rattle.vt_location.specs.Locations.{location_of, number_of};
ghost use Rattle.vt_location.specs.Numbers.{group_number, mount_number};
ghost use Rattle.vt_mount.specs.MountsValue.{mounts_in, uses_of};
ghost use Rattle.vt_propagate.specs.Going.{CountsUses, free_at, free_on, group_at as group_at_place, is_free, shared_point};
ghost use Rattle.vt_propagate.specs.Seen.{IsSeen};

use smallvec::SmallVec;
use std::alloc::{AllocError, Global};
use vt_group::Groups;
use vt_location::{GroupId, Location, MountId, NodeRef, Propagation};
use vt_mount::Mounts;

/// Mounts that an event detaches. Up to four, as most events have, take no memory.
pub type Going = SmallVec<MountId, 4>;

/// Whether an unmount is refused: the mount has a child, or a mount that would be detached is in use: EBUSY of
/// umount(2).
pub fn is_busy(
    alloc: Global,
    mounts: &Mounts,
    groups: &Groups,
    id: MountId,
) -> Result<bool, AllocError>
    ensures ok { IfOk result (λ busy. (world : World ℕ) → IsSeen world mounts.now groups.now
        → CountsUses world mounts.now
        → busy ≡ is_busy_of nat_eq world (mount_number id)) }
{
    if mounts.has_child(id) {
        return Ok(true);
    }
    let going = going(alloc, mounts, groups, id)?;
    Ok(are_used(mounts, &going))
}

// Whether one of these mounts is in use.
fn are_used(mounts: &Mounts, ids: &[MountId]) -> bool
    ensures { result ≡ list_any (λ number. nat_lt 0 (uses_of mounts.now number))
        (map mount_number ids.now) }
{
    ids.iter().any(|id| mounts.uses(*id) > 0)
}

/// The mounts that one unmount detaches. If the mount's parent is shared, they are the mounts at the same mount point
/// of all receivers of the parent's group, without those that have a child, unless it is a single one that covers the
/// root. Else it is the mount alone, which then need not exist.
pub fn going(
    alloc: Global,
    mounts: &Mounts,
    groups: &Groups,
    id: MountId,
) -> Result<Going, AllocError>
    ensures ok { IfOk result (λ going. (world : World ℕ) → IsSeen world mounts.now groups.now
        → map mount_number going.items
        ≡ going_of nat_eq world (mount_numbered nat_eq world (mount_number id))) }
{
    let Some((point, group)) = shared_point(mounts, id) else {
        return alone(alloc, id);
    };
    // Then no receiver but the parent itself has a mount there.
    if !mounts.has_others_on(point.node, id) {
        return free_on(alloc, mounts, point.node, &[point.mount]);
    }
    let receivers = groups.receivers(group)?;
    free_on(alloc, mounts, point.node, &receivers)
}

/// The list of one mount.
pub(crate) fn alone(alloc: Global, id: MountId) -> Result<Going, AllocError>
    ensures ok { IfOk result (λ list. list.items ≡ id ∷ []) }
{
    let mut list = SmallVec::new(alloc);
    list.push(id)?;
    Ok(list)
}

// The mount point of a mount whose parent is shared, and the parent's group.
fn shared_point(mounts: &Mounts, id: MountId) -> Option<(Location, GroupId)>
    ensures { option_map (λ found. (location_of found.0, group_number found.1)) result
        ≡ shared_point (mounts_in mounts.now) (mount_number id) }
{
    group_at(mounts, mounts.get(id)?.mount_point?)
}

/// A mount point on a shared mount, and that one's group.
pub(crate) fn group_at(mounts: &Mounts, point: Location) -> Option<(Location, GroupId)>
    ensures { option_map (λ found. (location_of found.0, group_number found.1)) result
        ≡ group_at_place (mounts_in mounts.now) (location_of point) }
{
    match mounts.get(point.mount)?.propagation {
        Propagation::Shared(group) => Some((point, group)),
        Propagation::Slave(_) | Propagation::Private | Propagation::Unbindable => None,
    }
}

// The mounts on an inode of these receivers that may go.
fn free_on(
    alloc: Global,
    mounts: &Mounts,
    node: NodeRef,
    receivers: &[MountId],
) -> Result<Going, AllocError>
    ensures { IfOk result (λ going. map mount_number going.items
        ≡ map (λ mount. mount.number) (free_on (mounts_in mounts.now) (number_of node)
        (map mount_number receivers.now))) }
{
    let mut going = SmallVec::with_capacity(alloc, receivers.len())?;
    for receiver in receivers {
        let place = Location {
            mount: *receiver,
            node,
        };
        if let Some(child) = free_at(mounts, place) {
            going.push(child)?;
        }
    }
    Ok(going)
}

// The mount at a location, if it may go.
fn free_at(mounts: &Mounts, place: Location) -> Option<MountId>
    ensures { option_map mount_number result
        ≡ option_map (λ mount. mount.number) (free_at (mounts_in mounts.now) (location_of place)) }
{
    let child = mounts.child_at(place)?;
    // Mostly nothing stands on it, so that the mount itself is not looked at.
    if mounts.children(child).is_empty() {
        return Some(child);
    }
    is_free(mounts, child).then_some(child)
}

// Whether a mount may go: it has no child, or a single one, which covers its root.
fn is_free(mounts: &Mounts, id: MountId) -> bool
    ensures { result ≡ holds_of (is_free (mounts_in mounts.now))
        (find (λ mount. nat_eq (mount_number id) mount.number) (mounts_in mounts.now)) }
{
    let Some(mount) = mounts.get(id) else {
        return false;
    };
    match mounts.children(id).len() {
        0 => true,
        1 => mounts.child_at(mount.root_location()).is_some(),
        _ => false,
    }
}
