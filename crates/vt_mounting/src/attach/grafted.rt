//! Copies of a tree of mounts that are attached at a destination and at its receivers: mount(2), and the kernel's
//! document sharedsubtree.
ghost use Rattle.std.specs.Prelude.{◌≡◌, OnErr, OnOk};
ghost use Rattle.vt_propagate.specs.Copying.{HasRoomFor};
ghost use Rattle.vt_mounting.specs.Attach.Grafted.{IsGrafted, MayGraft};
ghost use Rattle.vt_mounting.specs.Detach.Stored.{CountNoUses, OverlaysStay, kept};

use crate::attach::planned::{Planned, attach_planned};
use std::alloc::{AllocError, Global};
use vt_group::Groups;
use vt_mount::Mounts;
use vt_propagate::{Counts, Graft, attachment};
use vt_store::Store;

/// Attaches copies of a tree at all parts, with the groups that they form, and moves the mounts that stood there onto
/// them: all or nothing.
///
/// It fails too where an inode or a filesystem would have more than 2^64 - 1 uses. Nothing has changed then.
pub fn attach_graft(
    alloc: Global,
    mounts: &mut Mounts,
    groups: &mut Groups,
    store: &mut Store,
    graft: &Graft,
    counts: Counts,
) -> Result<(), AllocError>
    requires room { HasRoomFor graft.now counts }
    requires may { MayGraft mounts.old groups.old graft.now counts }
    requires none { CountNoUses store.old }
    ensures ok { OnOk result (IsGrafted graft.now counts (kept mounts.old store.old) groups.old
        (kept mounts.new store.new) groups.new) }
    ensures overlays { OverlaysStay store.old.overlays store.new.overlays }
    ensures err_mounts { OnErr result (mounts.new ≡ mounts.old) }
    ensures err_groups { OnErr result (groups.new ≡ groups.old) }
    ensures err_store { OnErr result (store.new ≡ store.old) }
{
    let plan = attachment(alloc, mounts, groups, graft, counts)?;
    let planned = Planned {
        copies: &plan.copies,
        groups: &plan.groups,
        points: &plan.points,
    };
    attach_planned(mounts, groups, store, &planned)?;
    Ok(())
}
