//! All that an attachment makes, planned at once.
ghost use Rattle.std.specs.Prelude.{◌≡◌, IfOk, map, nat_eq, ℕ};
ghost use Rattle.vt_spec.specs.Machine.Attach.{parts_of};
ghost use Rattle.vt_spec.specs.Machine.World.{World};
ghost use Rattle.vt_location.specs.Locations.{location_of};
ghost use Rattle.vt_location.specs.MountValue.{mount_of};
ghost use Rattle.vt_mount.specs.MountsValue.{mounts_in};
ghost use Rattle.vt_propagate.specs.Attaching.{AttachesBy};
ghost use Rattle.vt_propagate.specs.Copying.{HasRoomFor, new_group};
ghost use Rattle.vt_propagate.specs.Falling.{point_of};
ghost use Rattle.vt_propagate.specs.Pushing.{KeepsLeaver, MovesOnce, OneChild};
ghost use Rattle.vt_propagate.specs.Seen.{IsSeen};
ghost use Rattle.vt_laws_mounts.specs.Mounts.Attaching.{OneNumberAMount};

use crate::copying::{Counts, Graft, copies, new_groups};
use crate::indexes::Indexes;
use crate::pushing::pushes;
use std::alloc::{AllocError, Global};
use vt_group::{Groups, NewGroup};
use vt_location::Mount;
use vt_mount::{Mounts, NewPoint};

/// The plan of an attachment.
#[derive(Debug, Drop)]
pub struct Plan {
    /// The copies at the destination, then those at each receiver, as `copies` returns them.
    pub copies: Vec<Mount>,
    /// The groups that they form.
    pub groups: Vec<NewGroup>,
    /// The new mount points of the mounts that stood at the places of receivers.
    pub points: Vec<NewPoint>,
}

/// Plans an attachment. It changes nothing: the mounts that stood at receivers' places are to be moved, the copies to
/// be attached, and their types and groups to be added to the groups. Where a tree moves, the first copies are its own
/// mounts, one each: these are to be moved to the namespace and the mount point that they have there.
pub fn attachment(
    alloc: Global,
    mounts: &Mounts,
    groups: &Groups,
    graft: &Graft,
    counts: Counts,
) -> Result<Plan, AllocError>
    requires { HasRoomFor graft.now counts }
    ensures ok { IfOk result (λ plan. (world : World ℕ) → IsSeen world mounts.now groups.now → OneChild world
        → map mount_of graft.now.parts.now ≡ parts_of nat_eq world (location_of graft.now.place)
        → AttachesBy world graft.now counts (map mount_of plan.copies.items) (map new_group plan.groups.items)
        (map point_of plan.points.items)) }
    ensures leaver { IfOk result (λ plan. KeepsLeaver graft.now (map point_of plan.points.items)) }
    ensures once { IfOk result (λ plan. OneNumberAMount (map mount_of graft.now.parts.now)
        → MovesOnce (mounts_in mounts.now) (map point_of plan.points.items)) }
{
    let mut indexes = Indexes::empty();
    indexes.note(alloc, graft)?;
    let copies = copies(mounts, groups, graft, counts, &indexes)?;
    let new = new_groups(mounts, groups, graft, counts, &indexes)?;
    let points = pushes(mounts, graft, &copies)?;
    Ok(Plan {
        copies,
        groups: new,
        points,
    })
}
