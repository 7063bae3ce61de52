//! Which mounts an unmount event detaches once earlier events detached mounts. The mounts and groups are those before
//! all events: they are looked at through the mounts that are gone. What stood on the root of such a mount has fallen
//! into its place, and from its group nothing is received there.
ghost use Rattle.std.specs.Prelude.{◌≡◌, IfOk, find, is_some, map, nat_eq, not, option_map, ℕ};
ghost use Rattle.vt_spec.specs.Lists.{holds_of};
ghost use Rattle.vt_spec.specs.Machine.World.{World};
ghost use Rattle.vt_location.specs.Locations.{location_of, number_of};
ghost use Rattle.vt_location.specs.MountValue.{mount_of};
ghost use Rattle.vt_location.specs.Numbers.{group_number, mount_number};
ghost use Rattle.vt_mount.specs.MountsValue.{mounts_in};
ghost use Rattle.vt_propagate.specs.Falling.{IsKnown};
ghost use Rattle.vt_propagate.specs.Seen.{IsSeen};
ghost use Rattle.vt_propagate.specs.Through.{free_at_receiver, free_at_then, free_on_then, going_then as going_then_of};
ghost use Rattle.vt_propagate.specs.Through.{is_free_by_number, rests_on_root, shared_point_then as shared_point_then_of};
ghost use Rattle.vt_propagate.specs.Through.{standing_over as standing_over_of};

use crate::falling::{Gone, is_gone, place_left};
use crate::pushing::stands_at;
use crate::unmounting::{Going, alone, group_at};
use smallvec::SmallVec;
use std::alloc::{AllocError, Global};
use vt_group::Groups;
use vt_location::{GroupId, Location, Mount, MountId, NodeRef};
use vt_mount::Mounts;

/// The mounts that an event detaches once these are gone.
pub(crate) fn going_then(
    alloc: Global,
    mounts: &Mounts,
    groups: &Groups,
    gone: &Gone,
    id: MountId,
) -> Result<Going, AllocError>
    requires { IsKnown gone.now.set.now.keys gone.now.ids.now }
    ensures ok { IfOk result (λ going. (world : World ℕ) → IsSeen world mounts.now groups.now
        → map mount_number going.items
        ≡ going_then_of world (map mount_number gone.now.ids.now) (mount_number id)) }
{
    let Some((point, group)) = shared_point_then(mounts, gone, id) else {
        return alone(alloc, id);
    };
    let receivers = groups.receivers(group)?;
    free_on_then(alloc, mounts, gone, point.node, &receivers)
}

// The mount point of a mount whose parent is shared then, and the parent's group.
fn shared_point_then(mounts: &Mounts, gone: &Gone, id: MountId) -> Option<(Location, GroupId)>
    requires { IsKnown gone.now.set.now.keys gone.now.ids.now }
    ensures { option_map (λ found. (location_of found.0, group_number found.1)) result
        ≡ shared_point_then_of (mounts_in mounts.now) (map mount_number gone.now.ids.now)
        (mount_number id) }
{
    let point = place_left(mounts, gone, mounts.get(id)?.mount_point?);
    if is_gone(gone, point.mount) {
        return None;
    }
    group_at(mounts, point)
}

// The mounts on an inode of these receivers that may go then.
fn free_on_then(
    alloc: Global,
    mounts: &Mounts,
    gone: &Gone,
    node: NodeRef,
    receivers: &[MountId],
) -> Result<Going, AllocError>
    requires { IsKnown gone.now.set.now.keys gone.now.ids.now }
    ensures { IfOk result (λ going. map mount_number going.items
        ≡ free_on_then (mounts_in mounts.now) (map mount_number gone.now.ids.now) (number_of node)
        (map mount_number receivers.now)) }
{
    let mut going = SmallVec::with_capacity(alloc, receivers.len())?;
    for receiver in receivers {
        if let Some(child) = free_at_receiver(mounts, gone, node, *receiver) {
            going.push(child)?;
        }
    }
    Ok(going)
}

// The mount on an inode of a receiver, if it may go then. What is gone receives nothing.
fn free_at_receiver(
    mounts: &Mounts,
    gone: &Gone,
    node: NodeRef,
    receiver: MountId,
) -> Option<MountId>
    requires { IsKnown gone.now.set.now.keys gone.now.ids.now }
    ensures { option_map mount_number result
        ≡ free_at_receiver (mounts_in mounts.now) (map mount_number gone.now.ids.now) (number_of node)
        (mount_number receiver) }
{
    if is_gone(gone, receiver) {
        return None;
    }
    let place = Location {
        mount: receiver,
        node,
    };
    free_at_then(mounts, gone, place)
}

// The mount at a location then, if it may go.
fn free_at_then(mounts: &Mounts, gone: &Gone, place: Location) -> Option<MountId>
    requires { IsKnown gone.now.set.now.keys gone.now.ids.now }
    ensures { option_map mount_number result
        ≡ free_at_then (mounts_in mounts.now) (map mount_number gone.now.ids.now) (location_of place) }
{
    let child = standing_over(mounts, gone, place)?;
    // Mostly nothing stands on it, so that the mount itself is not looked at.
    if mounts.children(child).is_empty() {
        return Some(child);
    }
    is_free_then(mounts, gone, child).then_some(child)
}

// Whether a mount may go: nothing stands on it then, but on its root.
fn is_free_then(mounts: &Mounts, gone: &Gone, id: MountId) -> bool
    requires { IsKnown gone.now.set.now.keys gone.now.ids.now }
    ensures { result ≡ is_free_by_number (mounts_in mounts.now) (map mount_number gone.now.ids.now)
        (mount_number id) }
{
    let Some(mount) = mounts.get(id) else {
        return false;
    };
    for child in mounts.children(id) {
        if !rests_on_root(mounts, gone, &mount, *child) {
            return false;
        }
    }
    true
}

// Whether what stands then at the place of a child stands on the mount's root, or nothing does.
fn rests_on_root(mounts: &Mounts, gone: &Gone, mount: &Mount, child: MountId) -> bool
    requires { IsKnown gone.now.set.now.keys gone.now.ids.now }
    ensures { result ≡ holds_of (rests_on_root (mounts_in mounts.now) (map mount_number gone.now.ids.now)
        (mount_of mount.now))
        (find (λ mount. nat_eq (mount_number child) mount.number) (mounts_in mounts.now)) }
{
    match mounts.get(child) {
        Some(child) => stands_at(&child, mount.root_location())
            || is_empty_then(mounts, gone, &child),
        None => false,
    }
}

// Whether nothing stands then at the place of a mount.
fn is_empty_then(mounts: &Mounts, gone: &Gone, mount: &Mount) -> bool
    requires { IsKnown gone.now.set.now.keys gone.now.ids.now }
    ensures { result ≡ not (holds_of (λ place. is_some (standing_over_of (mounts_in mounts.now)
        (map mount_number gone.now.ids.now) place)) (mount_of mount.now).mount_point) }
{
    match mount.mount_point {
        Some(place) => standing_over(mounts, gone, place).is_none(),
        None => true,
    }
}

// The mount that stands at a place then: what stood on the root of one that is gone has fallen into its place.
fn standing_over(mounts: &Mounts, gone: &Gone, place: Location) -> Option<MountId>
    requires { IsKnown gone.now.set.now.keys gone.now.ids.now }
    ensures { option_map mount_number result
        ≡ standing_over_of (mounts_in mounts.now) (map mount_number gone.now.ids.now)
        (location_of place) }
{
    let mut here = place;
    for _ in 0..mounts.len() {
        let child = mounts.child_at(here)?;
        if !is_gone(gone, child) {
            return Some(child);
        }
        here = mounts.get(child)?.root_location();
    }
    None
}
