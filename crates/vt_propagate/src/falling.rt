//! Where mounts stand once others are detached: umount(2), and the kernel's document sharedsubtree, "Unmount
//! semantics".
ghost use Rattle.std.specs.Prelude.{◌≡◌, ◌++◌, All, IfOk, OnOk, filter_map, map, nat_eq, option_map, ℕ};
ghost use Rattle.std.specs.List.{list_any};
ghost use Rattle.vt_spec.specs.Machine.Detach.{is_going, inherited_mount_point, mount_point_of_parent};
ghost use Rattle.vt_spec.specs.Machine.Mounts.{stands_on};
ghost use Rattle.vt_spec.specs.Machine.World.{World};
ghost use Rattle.vt_location.specs.Locations.{location_of};
ghost use Rattle.vt_location.specs.Numbers.{mount_number};
ghost use Rattle.vt_mount.specs.MountsValue.{mounts_in};
ghost use Rattle.vt_propagate.specs.Falling.{FallsTo, IsKnown, LeavesBy, all_points_left, of_mounts, point_left_of};
ghost use Rattle.vt_propagate.specs.Falling.{HasMore, point_of};

use indexmap::IndexSet;
use std::alloc::{AllocError, Global};
use vt_location::{Location, MountId};
use vt_mount::{Mounts, NewPoint};

/// So many mounts are passed over sooner than one is looked for in a set.
pub(crate) const FEW: usize = 8;

/// The mounts that go, and the same as a set, which is empty while they are few.
#[derive(Clone, Copy, Debug)]
pub(crate) struct Gone<'a> {
    pub(crate) ids: &'a [MountId],
    pub(crate) set: &'a IndexSet<MountId>,
}

/// The new mount points of the mounts that stay where these are detached. A mount on one of them takes that one's mount
/// point; if that is on one of them too, the mount point of that, and so on.
pub(crate) fn points_left(mounts: &Mounts, gone: &[MountId]) -> Result<Vec<NewPoint>, AllocError>
    ensures ok { IfOk result (λ points. (world : World ℕ) → mounts_in mounts.now ≡ world.mounts
        → LeavesBy world (map mount_number gone.now) (map point_of points.items)) }
    ensures each { IfOk result (λ points. (world : World ℕ) → mounts_in mounts.now ≡ world.mounts
        → All (FallsTo world (map mount_number gone.now)) (map point_of points.items)) }
{
    all_left(mounts.alloc(), mounts, gone)
}

/// The same, where the set of the mounts that go is known.
pub(crate) fn points_left_by(mounts: &Mounts, gone: &Gone) -> Result<Vec<NewPoint>, AllocError>
    requires { IsKnown gone.now.set.now.keys gone.now.ids.now }
    ensures ok { IfOk result (λ points. (world : World ℕ) → mounts_in mounts.now ≡ world.mounts
        → LeavesBy world (map mount_number gone.now.ids.now) (map point_of points.items)) }
    ensures each { IfOk result (λ points. (world : World ℕ) → mounts_in mounts.now ≡ world.mounts
        → All (FallsTo world (map mount_number gone.now.ids.now)) (map point_of points.items)) }
{
    all_left_by(mounts.alloc(), mounts, gone)
}

// The new mount points of all mounts on these.
fn all_left(alloc: Global, mounts: &Mounts, gone: &[MountId]) -> Result<Vec<NewPoint>, AllocError>
    ensures { IfOk result (λ points. map point_of points.items
        ≡ all_points_left (mounts_in mounts.now) (map mount_number gone.now)) }
{
    if !have_children(mounts, gone) {
        return Ok(Vec::new(alloc));
    }
    let set = set_of(alloc, gone)?;
    let gone = Gone {
        ids: gone,
        set: &set,
    };
    all_left_by(alloc, mounts, &gone)
}

// The same, where the set of the mounts that go is known.
fn all_left_by(alloc: Global, mounts: &Mounts, gone: &Gone) -> Result<Vec<NewPoint>, AllocError>
    requires { IsKnown gone.now.set.now.keys gone.now.ids.now }
    ensures { IfOk result (λ points. map point_of points.items
        ≡ all_points_left (mounts_in mounts.now) (map mount_number gone.now.ids.now)) }
{
    let mut points = Vec::new(alloc);
    for id in gone.ids {
        push_left(mounts, gone, mounts.children(*id), &mut points)?;
    }
    Ok(points)
}

// Whether one of these mounts has a child.
fn have_children(mounts: &Mounts, ids: &[MountId]) -> bool
    ensures { result ≡ list_any (λ number. list_any (stands_on nat_eq number) (mounts_in mounts.now))
        (map mount_number ids.now) }
{
    ids.iter().any(|id| mounts.has_child(*id))
}

// The set of these mounts, if they are more than a few.
fn set_of(alloc: Global, ids: &[MountId]) -> Result<IndexSet<MountId>, AllocError>
    ensures { IfOk result (λ set. IsKnown set.keys ids.now) }
{
    let mut set = IndexSet::new(alloc);
    if ids.len() <= FEW {
        return Ok(set);
    }
    set.reserve(ids.len())?;
    note_in_set(&mut set, ids)?;
    Ok(set)
}

/// Adds these mounts to a set.
pub(crate) fn note_in_set(set: &mut IndexSet<MountId>, ids: &[MountId]) -> Result<(), AllocError>
    ensures { OnOk result (HasMore set.old.keys ids.now set.new.keys) }
{
    for id in ids {
        set.insert(*id)?;
    }
    Ok(())
}

// Adds the new mount points of these mounts.
fn push_left(
    mounts: &Mounts,
    gone: &Gone,
    children: &[MountId],
    points: &mut Vec<NewPoint>,
) -> Result<(), AllocError>
    requires { IsKnown gone.now.set.now.keys gone.now.ids.now }
    ensures { OnOk result (map point_of points.new.items ≡ map point_of points.old.items
        ++ filter_map (point_left_of (mounts_in mounts.now) (map mount_number gone.now.ids.now))
        (map mount_number children.now)) }
{
    for child in children {
        if let Some(point) = point_left(mounts, gone, *child) {
            points.push(point)?;
        }
    }
    Ok(())
}

// The new mount point of a mount that stays.
fn point_left(mounts: &Mounts, gone: &Gone, id: MountId) -> Option<NewPoint>
    requires { IsKnown gone.now.set.now.keys gone.now.ids.now }
    ensures { option_map point_of result
        ≡ point_left_of (mounts_in mounts.now) (map mount_number gone.now.ids.now) (mount_number id) }
{
    if is_gone(gone, id) {
        return None;
    }
    let mount = mounts.get(id)?;
    Some(NewPoint {
        mount: id,
        place: place_left(mounts, gone, mount.mount_point?),
    })
}

/// Where a mount point is left.
pub(crate) fn place_left(mounts: &Mounts, gone: &Gone, place: Location) -> Location
    requires { IsKnown gone.now.set.now.keys gone.now.ids.now }
    ensures { location_of result
        ≡ inherited_mount_point nat_eq (of_mounts (mounts_in mounts.now)) (map mount_number gone.now.ids.now)
        (location_of place) }
{
    let mut here = place;
    for _ in 0..mounts.len() {
        let Some(below) = below_gone(mounts, gone, here) else {
            return here;
        };
        here = below;
    }
    here
}

// The mount point of the mount that a mount point is on, if that mount goes.
fn below_gone(mounts: &Mounts, gone: &Gone, place: Location) -> Option<Location>
    requires { IsKnown gone.now.set.now.keys gone.now.ids.now }
    ensures { option_map location_of result
        ≡ mount_point_of_parent nat_eq (of_mounts (mounts_in mounts.now)) (map mount_number gone.now.ids.now)
        (location_of place) }
{
    if !is_gone(gone, place.mount) {
        return None;
    }
    mounts.get(place.mount)?.mount_point
}

/// Whether a mount is one of these.
pub(crate) fn is_gone(gone: &Gone, id: MountId) -> bool
    requires { IsKnown gone.now.set.now.keys gone.now.ids.now }
    ensures { result ≡ is_going nat_eq (map mount_number gone.now.ids.now) (mount_number id) }
{
    if gone.ids.len() <= FEW {
        return gone.ids.iter().any(|one| id == *one);
    }
    gone.set.contains(&id)
}
