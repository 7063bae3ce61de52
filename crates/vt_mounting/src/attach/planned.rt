//! Planned attachments: mounts get other mount points while others come, with their groups.
ghost use Rattle.std.specs.List.{list_all};
ghost use Rattle.std.specs.Prelude.{List, ◌≡◌, ◌++◌, ◌+◌, ◌-◌, ◌*◌, ◌≤◌, IfOk, OnErr, OnOk, length, map, Some, true};
ghost use Rattle.vt_fs.specs.FilesystemsValue.{shown};
ghost use Rattle.vt_group.specs.Together.{GrowsTo, new_group, typed};
ghost use Rattle.vt_location.specs.declared.locations.Location.{Location};
ghost use Rattle.vt_location.specs.Locations.{location_of};
ghost use Rattle.vt_location.specs.MountValue.{mount_of};
ghost use Rattle.vt_mount.specs.MountsValue.{ComeAfter, mounts_in};
ghost use Rattle.vt_spec.specs.Lists.{folded};
ghost use Rattle.vt_location.specs.Numbers.{most_counted};
ghost use Rattle.vt_mounting.specs.Attach.Planned.{AreMoves, is_small, left_of, pinned_by, points_left, points_taken};
ghost use Rattle.vt_mounting.specs.Attach.Planned.{taken_of, unpinned_by, with_planned, with_points};
ghost use Rattle.vt_mounting.specs.Attach.Room.{has_room, has_small_nodes, merged_has_room, point_has_room};
ghost use Rattle.vt_mounting.specs.Detach.Stored.{CountNoUses, OverlaysStay, kept, merged_of};
ghost use Rattle.vt_mounting.specs.Detach.Uses.{shown_by, unused_entry};

use crate::attach::attaching::{have_room, hold_overlays, overlays_have_room, show_all};
use crate::detach::detaching::unpin_point;
use std::alloc::AllocError;
use vt_group::{Groups, NewGroup};
use vt_location::Mount;
use vt_mount::{Mounts, Moved, NewPoint};
use vt_store::Store;

/// What is attached, and what moves for it.
#[derive(Clone, Copy, Debug)]
pub struct Planned<'a> {
    /// The mounts that come, after all others.
    pub copies: &'a [Mount],
    /// The groups that they form.
    pub groups: &'a [NewGroup],
    /// New mount points of mounts that are there. Of two for one mount the first one stays.
    pub points: &'a [NewPoint],
}

/// Attaches mounts after all others, with the groups that they form, and moves others: all or nothing. The roots and
/// the mount points of the mounts that come are in use then, their filesystems are shown, and the mount points that
/// were left are in use once less. It costs what the mounts that come and move cost, however many others there are.
///
/// It fails too where an inode or a filesystem would have more than 2^64 - 1 uses. Nothing has changed then.
pub fn attach_planned(
    mounts: &mut Mounts,
    groups: &mut Groups,
    store: &mut Store,
    plan: &Planned,
) -> Result<(), AllocError>
    requires ascending { ComeAfter (map mount_of plan.now.copies.now) (mounts_in mounts.old) }
    requires none { CountNoUses store.old }
    ensures ok { OnOk result ((left : List Location)
        × (map location_of left ≡ points_left plan.now.points.now mounts.old)
        × (list_all is_small left ≡ true)
        × (kept mounts.new store.new
        ≡ with_planned plan.now.copies.now plan.now.points.now left (kept mounts.old store.old))) }
    ensures groups_ok { OnOk result
        (GrowsTo groups.old groups.new (map typed plan.now.copies.now) (map new_group plan.now.groups.now)) }
    ensures slots { OnOk result (list_all has_small_nodes plan.now.copies.now ≡ true) }
    ensures places { OnOk result (list_all is_small (points_taken plan.now.points.now mounts.old) ≡ true) }
    ensures overlays { OverlaysStay store.old.overlays store.new.overlays }
    ensures still { CountNoUses store.new }
    ensures err_mounts { OnErr result (mounts.new ≡ mounts.old) }
    ensures err_groups { OnErr result (groups.new ≡ groups.old) }
    ensures err_store { OnErr result (store.new ≡ store.old) }
{
    attach_grouped(mounts, groups, store, plan, plan.copies)
}

// A planned attachment, in which the groups get the types of these mounts: those that come, and maybe those that move.
// The mounts that move keep their types in `mounts`.
pub(crate) fn attach_grouped(
    mounts: &mut Mounts,
    groups: &mut Groups,
    store: &mut Store,
    plan: &Planned,
    types: &[Mount],
) -> Result<(), AllocError>
    requires ascending { ComeAfter (map mount_of plan.now.copies.now) (mounts_in mounts.old) }
    requires none { CountNoUses store.old }
    ensures ok { OnOk result ((left : List Location)
        × (map location_of left ≡ points_left plan.now.points.now mounts.old)
        × (list_all is_small left ≡ true)
        × (kept mounts.new store.new
        ≡ with_planned plan.now.copies.now plan.now.points.now left (kept mounts.old store.old))) }
    ensures groups_ok { OnOk result
        (GrowsTo groups.old groups.new (map typed types.now) (map new_group plan.now.groups.now)) }
    ensures slots { OnOk result (list_all has_small_nodes plan.now.copies.now ≡ true) }
    ensures places { OnOk result (list_all is_small (points_taken plan.now.points.now mounts.old) ≡ true) }
    ensures overlays { OverlaysStay store.old.overlays store.new.overlays }
    ensures still { CountNoUses store.new }
    ensures err_mounts { OnErr result (mounts.new ≡ mounts.old) }
    ensures err_groups { OnErr result (groups.new ≡ groups.old) }
    ensures err_store { OnErr result (store.new ≡ store.old) }
{
    if !plan_has_room(store, plan, 0) {
        return Err(AllocError);
    }
    let moved = enter_planned(mounts, groups, plan, types)?;
    exchange_uses(store, &moved, plan.copies);
    hold_overlays(store, plan.copies);
    Ok(())
}

// The inodes at new mount points are used once more, those that mounts come with too, and those at the mount points that
// were left once less.
pub(crate) fn exchange_uses(store: &mut Store, moved: &[Moved], copies: &[Mount])
    requires none { CountNoUses store.old }
    requires points { list_all (λ point. point_has_room (most_counted - length moved.now) (shown store.old.plain)
        (Some point)) (taken_of moved.now) ≡ true }
    requires copies { list_all (has_room (most_counted - 2 * length copies.now)
        (folded pinned_by (shown store.old.plain) (taken_of moved.now))) copies.now ≡ true }
    ensures uses { shown store.new.plain ≡ folded unpinned_by
        (folded shown_by (folded pinned_by (shown store.old.plain) (taken_of moved.now)) copies.now)
        (left_of moved.now) }
    ensures overlays { store.new.overlays ≡ store.old.overlays }
    ensures still { CountNoUses store.new }
{
    pin_all(store, moved);
    show_all(store, copies);
    unpin_all(store, moved);
}

// Whether all uses that come can be counted: two of an inode for each copy, and one for each mount that moves, at the
// most, and so many beside.
pub(crate) fn plan_has_room(store: &Store, plan: &Planned, beside: u64) -> bool
    requires { CountNoUses store.now }
    ensures fits { result ≡ true
        → 2 * length plan.now.copies.now + length plan.now.points.now + beside ≤ most_counted }
    ensures copies { result ≡ true → list_all
        (has_room (most_counted - (2 * length plan.now.copies.now + length plan.now.points.now + beside))
        (shown store.now.plain))
        plan.now.copies.now ≡ true }
    ensures overlays { result ≡ true → list_all
        (merged_has_room (most_counted - (2 * length plan.now.copies.now + length plan.now.points.now + beside))
        (map merged_of store.now.overlays))
        plan.now.copies.now ≡ true }
    ensures points { result ≡ true → list_all
        (λ point. point_has_room (most_counted - (2 * length plan.now.copies.now + length plan.now.points.now + beside))
        (shown store.now.plain) (Some point.place)) plan.now.points.now ≡ true }
    ensures slots { result ≡ true → list_all has_small_nodes plan.now.copies.now ≡ true }
{
    let most = u64::MAX - 2 * plan.copies.len() as u64;
    let moves = plan.points.len() as u64;
    if moves > most || beside > most - moves {
        return false;
    }
    let left = most - moves - beside;
    have_room(store, plan.copies, left)
        && overlays_have_room(store, plan.copies, left)
        && places_have_room(store, plan.points, left)
}

// Whether the inodes at new mount points have no more uses than so many.
fn places_have_room(store: &Store, points: &[NewPoint], most: u64) -> bool
    requires { CountNoUses store.now }
    ensures { result ≡ true → list_all
        (λ point. point_has_room most (shown store.now.plain) (Some point.place)) points.now ≡ true }
{
    for point in points {
        if store.uses(point.place.node) > most {
            return false;
        }
    }
    true
}

// Mounts come and move with their groups, all or none. What moved is returned.
pub(crate) fn enter_planned(
    mounts: &mut Mounts,
    groups: &mut Groups,
    plan: &Planned,
    types: &[Mount],
) -> Result<Vec<Moved>, AllocError>
    requires { ComeAfter (map mount_of plan.now.copies.now) (mounts_in mounts.old) }
    ensures mounts_ok { OnOk result
        (mounts.new ≡ with_points plan.now.points.now mounts.old ++ map unused_entry plan.now.copies.now) }
    ensures moves { IfOk result (λ moved.
        AreMoves plan.now.points.now mounts.old (taken_of moved.items) (left_of moved.items)) }
    ensures groups_ok { OnOk result
        (GrowsTo groups.old groups.new (map typed types.now) (map new_group plan.now.groups.now)) }
    ensures err_mounts { OnErr result (mounts.new ≡ mounts.old) }
    ensures err_groups { OnErr result (groups.new ≡ groups.old) }
{
    mounts.attach_all_then(plan.copies, plan.points, groups, |groups| {
        groups.add(types, plan.groups)
    })
}

// The nodes at the mount points that mounts got are used once more.
fn pin_all(store: &mut Store, moved: &[Moved])
    requires none { CountNoUses store.old }
    requires room { list_all (λ point. point_has_room (most_counted - length moved.now) (shown store.old.plain)
        (Some point)) (taken_of moved.now) ≡ true }
    ensures uses { shown store.new.plain ≡ folded pinned_by (shown store.old.plain) (taken_of moved.now) }
    ensures overlays { store.new.overlays ≡ store.old.overlays }
    ensures still { CountNoUses store.new }
{
    for one in moved {
        // It does not fail: there is room.
        let _ = store.pin(one.to.node);
    }
}

// The nodes at the mount points that mounts left are used once less.
fn unpin_all(store: &mut Store, moved: &[Moved])
    requires { CountNoUses store.old }
    ensures uses { shown store.new.plain ≡ folded unpinned_by (shown store.old.plain) (left_of moved.now) }
    ensures overlays { store.new.overlays ≡ store.old.overlays }
    ensures still { CountNoUses store.new }
{
    for one in moved {
        unpin_point(store, one.from);
    }
}
