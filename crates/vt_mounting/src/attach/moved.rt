//! A tree of mounts that moves to a destination, with copies of it at the receivers there: mount(2) with `MS_MOVE`, and
//! the kernel's document sharedsubtree.
ghost use Rattle.std.specs.Prelude.{◌≡◌, ◌++◌, OnErr, OnOk};
ghost use Rattle.vt_propagate.specs.Copying.{HasRoomFor};
ghost use Rattle.vt_mounting.specs.Attach.Moved.{IsMovedBy, MayMoveTree, top_point};
ghost use Rattle.vt_mounting.specs.Detach.Stored.{CountNoUses, OverlaysStay, kept};

use crate::attach::planned::{Planned, attach_grouped};
use std::alloc::{AllocError, Global};
use vt_group::Groups;
use vt_mount::{Mounts, NewPoint};
use vt_propagate::{Counts, Graft, attachment};
use vt_retype::set_types;
use vt_store::Store;

/// Moves a tree to its destination and attaches copies of it at the receivers there, with the groups that they form.
/// The mounts that stood at the receivers' places move onto the copies. All or nothing.
///
/// It fails too where an inode or a filesystem would have more than 2^64 - 1 uses. Nothing has changed then.
pub fn move_tree(
    alloc: Global,
    mounts: &mut Mounts,
    groups: &mut Groups,
    store: &mut Store,
    graft: &Graft,
    counts: Counts,
) -> Result<(), AllocError>
    requires room { HasRoomFor graft.now counts }
    requires may { MayMoveTree mounts.old groups.old graft.now counts }
    requires none { CountNoUses store.old }
    ensures ok { OnOk result (IsMovedBy graft.now counts (kept mounts.old store.old) groups.old
        (kept mounts.new store.new) groups.new) }
    ensures overlays { OverlaysStay store.old.overlays store.new.overlays }
    ensures err_mounts { OnErr result (mounts.new ≡ mounts.old) }
    ensures err_groups { OnErr result (groups.new ≡ groups.old) }
    ensures err_store { OnErr result (store.new ≡ store.old) }
{
    let mut plan = attachment(alloc, mounts, groups, graft, counts)?;
    add_top(&mut plan.points, graft)?;
    let planned = Planned {
        copies: &plan.copies[graft.tree.len()..],
        groups: &plan.groups,
        points: &plan.points,
    };
    attach_grouped(mounts, groups, store, &planned, &plan.copies)?;
    set_types(mounts, &plan.copies);
    Ok(())
}

// The first mount of a tree that moves gets the destination as its mount point.
fn add_top(points: &mut Vec<NewPoint>, graft: &Graft) -> Result<(), AllocError>
    ensures points { OnOk result (points.new.items ≡ points.old.items ++ top_point graft.now) }
{
    let Some(top) = graft.tree.first() else {
        return Ok(());
    };
    let point = NewPoint {
        mount: top.number,
        place: graft.place,
    };
    points.push(point)?;
    Ok(())
}
