//! All that one unmount does, planned at once: umount(2), and the kernel's document sharedsubtree, "Unmount semantics".
ghost use Rattle.std.specs.Prelude.{◌≡◌, All, IfOk, map, nat_eq, ℕ};
ghost use Rattle.vt_spec.specs.Machine.Detach.{going, unmounted};
ghost use Rattle.vt_spec.specs.Machine.Receives.{regrouped};
ghost use Rattle.vt_spec.specs.Machine.World.{World, mount_numbered, with_mounts};
ghost use Rattle.vt_location.specs.Numbers.{mount_number};
ghost use Rattle.vt_mount.specs.MountsValue.{mounts_in};
ghost use Rattle.vt_propagate.specs.Falling.{FallsTo, LeavesBy, left_by, point_of};
ghost use Rattle.vt_propagate.specs.Seen.{IsSeen};

use crate::falling::points_left;
use crate::unmounting::{Going, going};
use std::alloc::{AllocError, Global};
use vt_group::Groups;
use vt_location::MountId;
use vt_mount::{Mounts, NewPoint};

/// The plan of an unmount.
#[derive(Debug, Drop)]
pub struct Detachment {
    /// The mounts that are detached.
    pub gone: Going,
    /// The new mount points of the mounts that stay.
    pub points: Vec<NewPoint>,
}

/// Plans one unmount event. It changes nothing: the mounts that stay are to be moved, those that go to be detached, and
/// these to leave their groups at once.
pub fn unmount(
    alloc: Global,
    mounts: &Mounts,
    groups: &Groups,
    id: MountId,
) -> Result<Detachment, AllocError>
    ensures gone { IfOk result (λ plan. (world : World ℕ) → IsSeen world mounts.now groups.now
        → map mount_number plan.gone.items
        ≡ going nat_eq world (mount_numbered nat_eq world (mount_number id))) }
    ensures left { IfOk result (λ plan. (world : World ℕ) → mounts_in mounts.now ≡ world.mounts
        → LeavesBy world (map mount_number plan.gone.items) (map point_of plan.points.items)) }
    ensures each { IfOk result (λ plan. (world : World ℕ) → mounts_in mounts.now ≡ world.mounts
        → All (FallsTo world (map mount_number plan.gone.items)) (map point_of plan.points.items)) }
    ensures ok { IfOk result (λ plan. (world : World ℕ) → IsSeen world mounts.now groups.now
        → unmounted nat_eq world (mount_number id)
        ≡ regrouped nat_eq (with_mounts world
        (map (left_by (map mount_number plan.gone.items) (map point_of plan.points.items)) world.mounts))) }
{
    let gone = going(alloc, mounts, groups, id)?;
    let points = points_left(mounts, &gone)?;
    Ok(Detachment { gone, points })
}
