//! Which mounts a lazy unmount detaches: umount(2) with `MNT_DETACH`, and the kernel's document sharedsubtree, "Unmount
//! semantics".
//!
//! A lazy unmount is an unmount event for each mount of a tree, the deepest first. What an event detaches depends on
//! those before it, so that each looks at the mounts through those that are gone.
ghost use Rattle.std.specs.Prelude.{◌≡◌, ◌++◌, ◌∷◌, [], All, IfOk, OnOk, is_some, length, map, nat_eq, reverse, ℕ};
ghost use Rattle.vt_spec.specs.Machine.Invariants.{MountInvariants};
ghost use Rattle.vt_spec.specs.Machine.Mounts.{mount_in};
ghost use Rattle.vt_spec.specs.Machine.World.{World};
ghost use Rattle.vt_location.specs.Numbers.{mount_number};
ghost use Rattle.vt_mount.specs.MountsValue.{mounts_in};
ghost use Rattle.vt_propagate.specs.Falling.{FallsTo, IsKnown, LeavesBy, point_of};
ghost use Rattle.vt_propagate.specs.LazyEvents.{children_of, levels_from};
ghost use Rattle.vt_propagate.specs.LazyUnmounts.{gone_lazily, lazy_events};
ghost use Rattle.vt_propagate.specs.Seen.{IsSeen};
ghost use Rattle.vt_propagate.specs.Through.{going_then_if_there};

use crate::detaching::Detachment;
use crate::falling::{FEW, Gone, is_gone, note_in_set, points_left_by};
use crate::through::going_then;
use crate::unmounting::Going;
use indexmap::IndexSet;
use smallvec::SmallVec;
use std::alloc::{AllocError, Global};
use vt_group::Groups;
use vt_location::MountId;
use vt_mount::Mounts;

/// For how many mounts of a tree there is room at first.
const SOME: usize = 8;

// Mounts that are as deep in a tree. Up to four take no memory.
type Level = SmallVec<MountId, 4>;

/// Plans a lazy unmount of a mount and its descendants. It changes nothing: the mounts that stay are to be moved, those
/// that go to be detached, and these to leave their groups at once.
pub fn unmount_lazily(
    alloc: Global,
    mounts: &Mounts,
    groups: &Groups,
    id: MountId,
) -> Result<Detachment, AllocError>
    ensures gone { IfOk result (λ plan. (world : World ℕ) → IsSeen world mounts.now groups.now
        → MountInvariants nat_eq world
        → map mount_number plan.gone.items ≡ gone_lazily world (mount_number id)) }
    ensures left { IfOk result (λ plan. (world : World ℕ) → mounts_in mounts.now ≡ world.mounts
        → LeavesBy world (map mount_number plan.gone.items) (map point_of plan.points.items)) }
    ensures each { IfOk result (λ plan. (world : World ℕ) → mounts_in mounts.now ≡ world.mounts
        → All (FallsTo world (map mount_number plan.gone.items)) (map point_of plan.points.items)) }
{
    let (gone, set) = going_lazily(alloc, mounts, groups, id)?;
    let points = points_left_by(
        mounts,
        &Gone {
            ids: &gone,
            set: &set,
        },
    )?;
    Ok(Detachment {
        gone: SmallVec::from_vec(gone),
        points,
    })
}

// The mounts that all events detach, and the same as a set.
fn going_lazily(
    alloc: Global,
    mounts: &Mounts,
    groups: &Groups,
    id: MountId,
) -> Result<(Vec<MountId>, IndexSet<MountId>), AllocError>
    ensures ok { IfOk result (λ gone. (world : World ℕ) → IsSeen world mounts.now groups.now
        → MountInvariants nat_eq world
        → map mount_number gone.0.items ≡ gone_lazily world (mount_number id)) }
    ensures set { IfOk result (λ gone. IsKnown gone.1.keys gone.0.items) }
{
    let events = deepest_first(alloc, mounts, id)?;
    all_gone(alloc, mounts, groups, &events)
}

// The mounts that these events, which are those of a lazy unmount, detach one after the other, and the same as a set.
fn all_gone(
    alloc: Global,
    mounts: &Mounts,
    groups: &Groups,
    events: &[MountId],
) -> Result<(Vec<MountId>, IndexSet<MountId>), AllocError>
    ensures ok { IfOk result (λ gone. (world : World ℕ) (number : ℕ) → IsSeen world mounts.now groups.now
        → MountInvariants nat_eq world
        → map mount_number events.now ≡ map (λ mount. mount.number) (lazy_events world number)
        → map mount_number gone.0.items ≡ gone_lazily world number) }
    ensures set { IfOk result (λ gone. IsKnown gone.1.keys gone.0.items) }
{
    // Mostly each event detaches a mount at one peer too.
    let some = events.len().saturating_mul(2);
    let mut ids = Vec::with_capacity(alloc, some)?;
    let mut set = IndexSet::new(alloc);
    for id in events {
        let gone = Gone {
            ids: &ids,
            set: &set,
        };
        let going = going_if_there(alloc, mounts, groups, &gone, *id)?;
        note_all(&mut ids, &mut set, &going)?;
    }
    Ok((ids, set))
}

// The mounts that an event detaches once these are gone. It is skipped where an earlier one detached its mount.
fn going_if_there(
    alloc: Global,
    mounts: &Mounts,
    groups: &Groups,
    gone: &Gone,
    id: MountId,
) -> Result<Going, AllocError>
    requires { IsKnown gone.now.set.now.keys gone.now.ids.now }
    ensures ok { IfOk result (λ going. (world : World ℕ) → IsSeen world mounts.now groups.now
        → map mount_number going.items
        ≡ going_then_if_there world (map mount_number gone.now.ids.now) (mount_number id)) }
{
    if is_gone(gone, id) || !is_attached(mounts, id) {
        return Ok(SmallVec::new(alloc));
    }
    going_then(alloc, mounts, groups, gone, id)
}

// Notes that more mounts are gone, in a list, and in a set once they are more than a few.
fn note_all(
    ids: &mut Vec<MountId>,
    set: &mut IndexSet<MountId>,
    more: &[MountId],
) -> Result<(), AllocError>
    ensures ids { OnOk result (map mount_number ids.new.items
        ≡ map mount_number ids.old.items ++ map mount_number more.now) }
    ensures set { OnOk result (IsKnown set.old.keys ids.old.items → IsKnown set.new.keys ids.new.items) }
{
    let had = ids.len();
    ids.extend_from_slice(more)?;
    if ids.len() <= FEW {
        return Ok(());
    }
    if had <= FEW {
        return note_in_set(set, ids);
    }
    note_in_set(set, more)
}

// Whether a mount is in a namespace.
fn is_attached(mounts: &Mounts, id: MountId) -> bool
    ensures { result ≡ is_some (mount_in nat_eq (mounts_in mounts.now) (mount_number id)).namespace }
{
    match mounts.get(id) {
        Some(mount) => mount.namespace.is_some(),
        None => false,
    }
}

// A mount and all its descendants, the deepest first. Of those as deep the last one of the tree comes first.
fn deepest_first(alloc: Global, mounts: &Mounts, id: MountId) -> Result<Vec<MountId>, AllocError>
    ensures ok { IfOk result (λ events. map mount_number events.items
        ≡ reverse (levels_from (length (mounts_in mounts.now)) (mounts_in mounts.now) (mount_number id ∷ []))) }
{
    let mut events = levels(alloc, mounts, id)?;
    events.reverse();
    Ok(events)
}

// A mount, its children, the children of these, and so on, level by level.
fn levels(alloc: Global, mounts: &Mounts, id: MountId) -> Result<Vec<MountId>, AllocError>
    ensures { IfOk result (λ all. map mount_number all.items
        ≡ levels_from (length (mounts_in mounts.now)) (mounts_in mounts.now) (mount_number id ∷ [])) }
{
    let mut all = Vec::with_capacity(alloc, SOME)?;
    let mut level = SmallVec::new(alloc);
    level.push(id)?;
    for _ in 0..mounts.len() {
        if level.is_empty() {
            return Ok(all);
        }
        all.extend_from_slice(&level)?;
        level = children_of(alloc, mounts, &level)?;
    }
    all.extend_from_slice(&level)?;
    Ok(all)
}

// The children of these mounts.
fn children_of(alloc: Global, mounts: &Mounts, level: &[MountId]) -> Result<Level, AllocError>
    ensures { IfOk result (λ children. map mount_number children.items
        ≡ children_of (mounts_in mounts.now) (map mount_number level.now)) }
{
    let mut children = SmallVec::new(alloc);
    for id in level {
        children.extend_from_slice(mounts.children(*id))?;
    }
    Ok(children)
}
