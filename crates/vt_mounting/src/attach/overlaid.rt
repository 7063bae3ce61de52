//! A new overlay, with copies of a mount of it: mount(2), and overlayfs.
ghost use Rattle.std.specs.List.{list_all};
ghost use Rattle.std.specs.Prelude.{List, ◌≡◌, ◌++◌, ◌∷◌, [], OnErr, OnOk, false, map, nat_lt, true};
ghost use Rattle.vt_fs.specs.FilesystemsValue.{shown};
ghost use Rattle.vt_group.specs.Together.{GrowsTo, new_group, typed};
ghost use Rattle.vt_location.specs.declared.locations.Location.{Location};
ghost use Rattle.vt_location.specs.Locations.{location_of};
ghost use Rattle.vt_location.specs.MountValue.{mount_of};
ghost use Rattle.vt_mount.specs.MountsValue.{ComeAfter, mounts_in};
ghost use Rattle.vt_propagate.specs.Copying.{HasRoomFor};
ghost use Rattle.vt_store.specs.StoreValue.{StoreValue};
ghost use Rattle.vt_mounting.specs.Attach.Grafted.{IsGrafted, MayGraft};
ghost use Rattle.vt_mounting.specs.Attach.Planned.{is_small, points_left, points_taken, with_planned};
ghost use Rattle.vt_mounting.specs.Attach.Room.{has_small_nodes};
ghost use Rattle.vt_mounting.specs.Attach.Overlaid.{IsWithOverlay, new_entry};
ghost use Rattle.vt_mounting.specs.Detach.Stored.{CountNoUses, OverlaysStay, has_count, kept};

use crate::attach::attaching::hold_overlays;
use crate::attach::planned::{Planned, enter_planned, exchange_uses, plan_has_room};
use std::alloc::AllocError;
use vt_cred::Cred;
use vt_group::Groups;
use vt_location::FilesystemId;
use vt_mount::Mounts;
use vt_overlay::LayerRef;
use vt_propagate::{Counts, Graft, attachment};
use vt_store::Store;

/// An overlay that is to be mounted: its number, its lower layers, the highest first, who mounts it, and the counts of
/// its mounts.
#[derive(Debug, Drop)]
pub struct NewOverlay {
    pub filesystem: FilesystemId,
    pub lowers: Vec<LayerRef>,
    pub mounter: Cred,
    pub counts: Counts,
}

/// Makes an overlay, and attaches copies of a tree at all parts, as `attach_graft` does: all or nothing. The tree is a
/// mount of the overlay. Each layer pins its directory, and counts as a mount of its filesystem. The overlay's number must
/// be above those of all other overlays, and no plain filesystem has it.
///
/// It fails too where an inode or a filesystem would have more than 2^64 - 1 uses. Nothing has changed then.
pub fn attach_overlay(
    mounts: &mut Mounts,
    groups: &mut Groups,
    store: &mut Store,
    new: NewOverlay,
    graft: &Graft,
) -> Result<(), AllocError>
    requires room { HasRoomFor graft.now new.counts }
    requires may { MayGraft mounts.old groups.old graft.now new.counts }
    requires above { list_all (λ entry. nat_lt entry.count new.filesystem.count) store.old.overlays ≡ true }
    requires apart { has_count new.filesystem.count (shown store.old.plain) ≡ false }
    requires none { CountNoUses store.old }
    ensures ok { OnOk result ((held : StoreValue) × IsWithOverlay (new_entry new) store.old held
        × IsGrafted graft.now new.counts (kept mounts.old held) groups.old (kept mounts.new store.new) groups.new) }
    ensures overlays { OnOk result
        (OverlaysStay (store.old.overlays ++ new_entry new ∷ []) store.new.overlays) }
    ensures err_mounts { OnErr result (mounts.new ≡ mounts.old) }
    ensures err_groups { OnErr result (groups.new ≡ groups.old) }
    ensures err_store { OnErr result (store.new ≡ store.old) }
{
    let plan = attachment(mounts.alloc(), mounts, groups, graft, new.counts)?;
    let planned = Planned {
        copies: &plan.copies,
        groups: &plan.groups,
        points: &plan.points,
    };
    attach_with_overlay(mounts, groups, store, new, &planned)?;
    Ok(())
}

// The overlay is put in first, and its layers are held once nothing can fail any more.
fn attach_with_overlay(
    mounts: &mut Mounts,
    groups: &mut Groups,
    store: &mut Store,
    new: NewOverlay,
    plan: &Planned,
) -> Result<(), AllocError>
    requires ascending { ComeAfter (map mount_of plan.now.copies.now) (mounts_in mounts.old) }
    requires above { list_all (λ entry. nat_lt entry.count new.filesystem.count) store.old.overlays ≡ true }
    requires apart { has_count new.filesystem.count (shown store.old.plain) ≡ false }
    requires none { CountNoUses store.old }
    ensures ok { OnOk result ((held : StoreValue) × IsWithOverlay (new_entry new) store.old held
        × (left : List Location)
        × (map location_of left ≡ points_left plan.now.points.now mounts.old)
        × (list_all is_small left ≡ true)
        × (kept mounts.new store.new
        ≡ with_planned plan.now.copies.now plan.now.points.now left (kept mounts.old held))) }
    ensures groups_ok { OnOk result
        (GrowsTo groups.old groups.new (map typed plan.now.copies.now) (map new_group plan.now.groups.now)) }
    ensures slots { OnOk result (list_all has_small_nodes plan.now.copies.now ≡ true) }
    ensures places { OnOk result (list_all is_small (points_taken plan.now.points.now mounts.old) ≡ true) }
    ensures overlays { OnOk result
        (OverlaysStay (store.old.overlays ++ new_entry new ∷ []) store.new.overlays) }
    ensures err_mounts { OnErr result (mounts.new ≡ mounts.old) }
    ensures err_groups { OnErr result (groups.new ≡ groups.old) }
    ensures err_store { OnErr result (store.new ≡ store.old) }
{
    let NewOverlay {
        filesystem,
        lowers,
        mounter,
        counts: _,
    } = new;
    if !plan_has_room(store, plan, lowers.len() as u64) || !store.layers_have_room(&lowers) {
        return Err(AllocError);
    }
    store.enter_overlay(filesystem, lowers, mounter)?;
    match enter_planned(mounts, groups, plan, plan.copies) {
        Ok(moved) => {
            store.hold_layers_of(filesystem);
            exchange_uses(store, &moved, plan.copies);
            hold_overlays(store, plan.copies);
            Ok(())
        }
        Err(refused) => {
            store.withdraw_overlay(filesystem);
            Err(refused)
        }
    }
}
