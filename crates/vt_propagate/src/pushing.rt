//! Which mounts move onto a copied tree: a mount that stood at a receiver's place goes onto the topmost mount of the
//! copies there.
ghost use Rattle.std.specs.Prelude.{◌≡◌, ◌*◌, ◌++◌, [], IfOk, OnOk, length, map, nat_eq, option_map, ℕ};
ghost use Rattle.std.specs.List.{cons_option};
ghost use Rattle.vt_spec.specs.Lists.{holds_of};
ghost use Rattle.vt_spec.specs.Machine.Attach.{parts_of, top_of_copies};
ghost use Rattle.vt_spec.specs.Machine.Mounts.{child_at, root_of, stands_at as stands_at_place, topmost as topmost_of};
ghost use Rattle.vt_spec.specs.Machine.World.{World};
ghost use Rattle.vt_location.specs.Locations.{location_of};
ghost use Rattle.vt_location.specs.MountValue.{mount_of};
ghost use Rattle.vt_location.specs.Numbers.{mount_number};
ghost use Rattle.vt_mount.specs.MountsValue.{mounts_in};
ghost use Rattle.vt_propagate.specs.declared.copying.Counts.{Counts};
ghost use Rattle.vt_propagate.specs.Falling.{point_of};
ghost use Rattle.vt_propagate.specs.Planned.{planned_copies};
ghost use Rattle.vt_propagate.specs.Pushing.{KeepsLeaver, MovesOnce, OneChild, PushesBy, leaver, pushed_at, pushes_from};
ghost use Rattle.vt_laws_mounts.specs.Mounts.Attaching.{OneNumberAMount};

use crate::copying::Graft;
use std::alloc::{AllocError, Global};
use vt_location::{Location, Mount, MountId};
use vt_mount::{Mounts, NewPoint};

/// The new mount points of the mounts that stand at the places of receivers: each goes onto the topmost mount of the
/// copies there, which are given as `copies` returns them. Where a tree moves, its first mount leaves its place before.
pub(crate) fn pushes(
    mounts: &Mounts,
    graft: &Graft,
    copies: &[Mount],
) -> Result<Vec<NewPoint>, AllocError>
    requires { length copies.now ≡ length graft.now.parts.now * length graft.now.tree.now }
    ensures ok { IfOk result (λ points. (world : World ℕ) (counts : Counts) → mounts_in mounts.now ≡ world.mounts
        → OneChild world
        → map mount_of graft.now.parts.now ≡ parts_of nat_eq world (location_of graft.now.place)
        → map mount_of copies.now ≡ planned_copies world graft.now counts
        → PushesBy world graft.now counts (map point_of points.items)) }
    ensures leaver { IfOk result (λ points. KeepsLeaver graft.now (map point_of points.items)) }
    ensures once { IfOk result (λ points. OneNumberAMount (map mount_of graft.now.parts.now)
        → MovesOnce (mounts_in mounts.now) (map point_of points.items)) }
{
    all_pushes(mounts.alloc(), mounts, graft, copies)
}

// The new mount points at all parts.
fn all_pushes(
    alloc: Global,
    mounts: &Mounts,
    graft: &Graft,
    copies: &[Mount],
) -> Result<Vec<NewPoint>, AllocError>
    requires { length copies.now ≡ length graft.now.parts.now * length graft.now.tree.now }
    ensures { IfOk result (λ points. map point_of points.items
        ≡ pushes_from (mounts_in mounts.now) (leaver graft.now) (location_of graft.now.place)
        (length graft.now.tree.now)
        (map mount_of graft.now.parts.now) (map mount_of copies.now)) }
{
    let mut points = Vec::new(alloc);
    let mut rest = copies;
    for part in graft.parts {
        let (here, later) = rest.split_at(graft.tree.len());
        add_push(mounts, graft, part.number, here, &mut points)?;
        rest = later;
    }
    Ok(points)
}

// Adds the new mount point of the mount at the place of a receiver, if one stands there.
fn add_push(
    mounts: &Mounts,
    graft: &Graft,
    part: MountId,
    copies: &[Mount],
    points: &mut Vec<NewPoint>,
) -> Result<(), AllocError>
    ensures { OnOk result (map point_of points.new.items ≡ map point_of points.old.items
        ++ cons_option (pushed_at (mounts_in mounts.now) (leaver graft.now) (location_of graft.now.place)
        (mount_number part)
        (map mount_of copies.now)) []) }
{
    if let Some(point) = push_at(mounts, graft, part, copies) {
        points.push(point)?;
    }
    Ok(())
}

// The new mount point of the mount at the place of a receiver, if one stands there.
fn push_at(mounts: &Mounts, graft: &Graft, part: MountId, copies: &[Mount]) -> Option<NewPoint>
    ensures { option_map point_of result
        ≡ pushed_at (mounts_in mounts.now) (leaver graft.now) (location_of graft.now.place) (mount_number part)
        (map mount_of copies.now) }
{
    if part == graft.place.mount {
        return None;
    }
    let child = mounts.child_at(Location {
        mount: part,
        node: graft.place.node,
    })?;
    if leaves(graft, child) {
        return None;
    }
    Some(NewPoint {
        mount: child,
        place: top_of(copies, graft.place),
    })
}

// Whether a mount leaves its place: it is the first of a tree that moves.
fn leaves(graft: &Graft, id: MountId) -> bool
    ensures { result ≡ holds_of (nat_eq (mount_number id)) (leaver graft.now) }
{
    if !graft.moves {
        return false;
    }
    match graft.tree.first() {
        Some(top) => id == top.number,
        None => false,
    }
}

// The root of the topmost mount over the root of the first of these copies. Without copies it is the place.
fn top_of(copies: &[Mount], place: Location) -> Location
    ensures { location_of result ≡ top_of_copies nat_eq (map mount_of copies.now) (location_of place) }
{
    match copies.first() {
        Some(first) => topmost(copies, first.root_location()),
        None => place,
    }
}

// The root of the topmost of these copies over a location, or the location.
fn topmost(copies: &[Mount], place: Location) -> Location
    ensures { location_of result ≡ topmost_of nat_eq (map mount_of copies.now) (location_of place) }
{
    let mut here = place;
    for _ in 0..copies.len() {
        let Some(root) = root_over(copies, here) else {
            return here;
        };
        here = root;
    }
    here
}

// The root of the copy that stands at a location.
fn root_over(copies: &[Mount], place: Location) -> Option<Location>
    ensures { option_map location_of result
        ≡ option_map root_of (child_at nat_eq (map mount_of copies.now) (location_of place)) }
{
    for copy in copies {
        if stands_at(copy, place) {
            return Some(copy.root_location());
        }
    }
    None
}

/// Whether a mount stands at a location.
pub(crate) fn stands_at(mount: &Mount, place: Location) -> bool
    ensures { result ≡ stands_at_place nat_eq (location_of place) (mount_of mount.now) }
{
    match mount.mount_point {
        Some(point) => place.is_same(point),
        None => false,
    }
}
