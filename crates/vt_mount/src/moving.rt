//! Mounts get other mount points: mount(2) with `MS_MOVE`, and the kernel's document sharedsubtree.
//!
//! The room for all moves is reserved before the first of them. While mounts move, lists that get empty stay: a later
//! one may move there.
ghost use Rattle.std.specs.Prelude.{List, ◌≡◌, ◌+◌, ◌++◌, ◌∷◌, ◌<◌, ◌≤◌, [], OnOk, length, map, true, vec_capacity, vec_len};
ghost use Rattle.std.specs.List.{list_all};
ghost use Rattle.indexmap.specs.IndexMap.{spare};
ghost use Rattle.vt_location.specs.declared.locations.Location.{Location};
ghost use Rattle.vt_location.specs.declared.numbers.MountId.{MountId};
ghost use Rattle.vt_location.specs.declared.numbers.NamespaceId.{NamespaceId};
ghost use Rattle.vt_mount.specs.declared.mounted.Mounted.{Mounted};
ghost use Rattle.vt_mount.specs.Reserved.{Reserves, moved_places};
ghost use Rattle.vt_mount.specs.Indexed.{IsIndexed};
ghost use Rattle.vt_mount.specs.Moving.{all_moves, is_small, move_of, moved_to, moves_by, with_points};
ghost use Rattle.vt_mount.specs.MountsValue.{entries_of, in_order};

use crate::indexes::Indexes;
use crate::mounted::Mounted;
use indexmap::IndexMap;
use std::alloc::AllocError;
use vt_location::{Location, MountId};

/// A mount, and the mount point that it gets.
#[derive(Clone, Copy, Debug, PartialEq, Eq)]
pub struct NewPoint {
    pub mount: MountId,
    pub place: Location,
}

/// A mount that moved, the mount point that it left, and the one that it got.
#[derive(Clone, Copy, Debug, PartialEq, Eq)]
pub struct Moved {
    pub mount: MountId,
    pub from: Option<Location>,
    pub to: Location,
}

/// Reserves room for mounts at the mount points that they are to get. If it fails, some of that room may be reserved.
pub(crate) fn reserve_moves(indexes: &mut Indexes, points: &[NewPoint]) -> Result<(), AllocError>
    ensures same { (kept : List (MountId × Mounted)) → IsIndexed indexes.old kept → IsIndexed indexes.new kept }
    ensures ok { OnOk result ((namespaces : List NamespaceId) (places : List Location)
        → Reserves indexes.old namespaces places → Reserves indexes.new namespaces (moved_places points.now ++ places)) }
{
    for point in points {
        indexes.reserve(None, Some(point.place))?;
    }
    Ok(())
}

/// Gives up the room that is reserved at these mount points. It does not allocate.
pub(crate) fn release_moves(indexes: &mut Indexes, points: &[NewPoint])
    ensures { (kept : List (MountId × Mounted)) → IsIndexed indexes.old kept → IsIndexed indexes.new kept }
{
    for point in points {
        indexes.release(None, Some(point.place));
    }
}

/// Moves mounts, the last one of the list first, and notes where each stood. It does not allocate: there is room.
pub(crate) fn move_all(
    by_number: &mut IndexMap<MountId, Mounted>,
    indexes: &mut Indexes,
    points: &[NewPoint],
    moved: &mut Vec<Moved>,
)
    requires indexed { IsIndexed indexes.old (in_order by_number.old.entries) }
    requires reserves { Reserves indexes.old [] (moved_places points.now) }
    requires room { vec_len moved.old + length points.now ≤ vec_capacity moved.old }
    ensures indexed { IsIndexed indexes.new (in_order by_number.new.entries) }
    ensures mounts { entries_of by_number.new.entries ≡ with_points points.now (entries_of by_number.old.entries) }
    ensures moves { map move_of moved.new.items
        ≡ map move_of moved.old.items ++ all_moves points.now (entries_of by_number.old.entries) }
    ensures small { list_all is_small moved.old.items ≡ true → list_all is_small moved.new.items ≡ true }
    ensures reserves { (namespaces : List NamespaceId) (places : List Location)
        → Reserves indexes.old namespaces (moved_places points.now ++ places) → Reserves indexes.new namespaces places }
    ensures spare { spare by_number.new ≡ spare by_number.old }
{
    for point in points.iter().rev() {
        move_one(by_number, indexes, *point, moved);
    }
}

// Moves a mount, if it exists, and notes where it stood.
fn move_one(
    by_number: &mut IndexMap<MountId, Mounted>,
    indexes: &mut Indexes,
    point: NewPoint,
    moved: &mut Vec<Moved>,
)
    requires indexed { IsIndexed indexes.old (in_order by_number.old.entries) }
    requires reserves { Reserves indexes.old [] (point.place ∷ []) }
    requires room { vec_len moved.old < vec_capacity moved.old }
    ensures indexed { IsIndexed indexes.new (in_order by_number.new.entries) }
    ensures mounts { entries_of by_number.new.entries ≡ moved_to point (entries_of by_number.old.entries) }
    ensures moves { map move_of moved.new.items
        ≡ map move_of moved.old.items ++ moves_by point (entries_of by_number.old.entries) }
    ensures small { list_all is_small moved.old.items ≡ true → list_all is_small moved.new.items ≡ true }
    ensures reserves { (namespaces : List NamespaceId) (places : List Location)
        → Reserves indexes.old namespaces (point.place ∷ places) → Reserves indexes.new namespaces places }
    ensures room { vec_len moved.new ≤ vec_len moved.old + 1 }
    ensures capacity { vec_capacity moved.old ≤ vec_capacity moved.new }
    ensures spare { spare by_number.new ≡ spare by_number.old }
{
    let Some(kept) = by_number.get_mut(&point.mount) else {
        return;
    };
    // It cannot fail: there is room.
    let _ = moved.push(Moved {
        mount: point.mount,
        from: kept.mount_point,
        to: point.place,
    });
    indexes.shift(kept.mount_point, point.place, point.mount);
    kept.mount_point = Some(point.place);
}

/// Drops the lists of mount points that mounts left, where they are empty.
pub(crate) fn drop_left(indexes: &mut Indexes, moved: &[Moved])
    ensures { (kept : List (MountId × Mounted)) → IsIndexed indexes.old kept → IsIndexed indexes.new kept }
{
    for one in moved {
        indexes.drop_empty(one.from);
    }
}
