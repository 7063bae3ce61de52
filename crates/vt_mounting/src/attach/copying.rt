//! Copies of a namespace's mounts: unshare(2) with `CLONE_NEWNS`.
ghost use Rattle.std.specs.Prelude.{List, ℕ, ◌+◌, ◌*◌, ◌<◌, ◌≡◌, IfOk, OnErr, OnOk, false, find, length, map, nat_eq, nat_lt, option_map, slice_index_or, true};
ghost use Rattle.std.specs.List.{list_all};
ghost use Rattle.vt_location.specs.Locations.{location_of};
ghost use Rattle.vt_location.specs.MountValue.{mount_of};
ghost use Rattle.vt_location.specs.Numbers.{counted, mount_number, namespace_number};
ghost use Rattle.vt_mount.specs.MountsValue.{mounts_in, uses_of, writers_of};
ghost use Rattle.vt_spec.specs.Lists.{holds_of};
ghost use Rattle.vt_spec.specs.Machine.Mounts as meant;
ghost use Rattle.vt_spec.specs.Machine.Namespaces.{location_on_copy};
ghost use Rattle.vt_mount.specs.Attached.{AreOf, are_rising, attached_in};
ghost use Rattle.vt_mounting.specs.Attach.Copying.{CopiesAttached, copied_by, copies_of, copy_numbers, moved_in, with_use_moved};
ghost use Rattle.vt_mounting.specs.Detach.Stored.{CountNoUses, OverlaysStay, kept};

use crate::attach::planned::{Planned, attach_planned};
use std::alloc::{AllocError, Global};
use vt_group::Groups;
use vt_location::{Location, Mount, MountId, NamespaceId};
use vt_mount::Mounts;
use vt_store::Store;

/// Attaches copies of the mounts of a namespace in the one that is counted `next`, after all others; or nothing. The
/// copy of a shared mount is in its peer group, that of a slave has its master.
///
/// It fails too where an inode or a filesystem would have more than 2^64 - 1 uses.
pub fn attach_copies(
    alloc: Global,
    mounts: &mut Mounts,
    groups: &mut Groups,
    store: &mut Store,
    namespace: NamespaceId,
    next: u64,
) -> Result<(), AllocError>
    requires room { next + 2 * length (attached_in (namespace_number namespace) mounts.old) + 1 < u64.MAX }
    requires before { list_all (λ mount. nat_lt mount.number (counted next)) (mounts_in mounts.old) ≡ true }
    requires none { CountNoUses store.old }
    ensures ok { OnOk result (CopiesAttached next (namespace_number namespace) (kept mounts.old store.old) groups.old
        (kept mounts.new store.new) groups.new) }
    ensures overlays { OverlaysStay store.old.overlays store.new.overlays }
    ensures still { CountNoUses store.new }
    ensures err_mounts { OnErr result (mounts.new ≡ mounts.old) }
    ensures err_groups { OnErr result (groups.new ≡ groups.old) }
    ensures err_store { OnErr result (store.new ≡ store.old) }
{
    let added = copies(alloc, mounts, namespace, next)?;
    let plan = Planned {
        copies: &added,
        groups: &[],
        points: &[],
    };
    attach_planned(mounts, groups, store, &plan)?;
    Ok(())
}

// Copies of the mounts of a namespace in the one that is counted `next`, in their order: the copy of the i-th, from 0,
// is counted `next + 2·i + 1`, and its mount point is on the copy of its parent.
fn copies(
    alloc: Global,
    mounts: &Mounts,
    namespace: NamespaceId,
    next: u64,
) -> Result<Vec<Mount>, AllocError>
    requires { next + 2 * length (attached_in (namespace_number namespace) mounts.now) + 1 < u64.MAX }
    ensures { IfOk result (λ copies. map mount_of copies.items
        ≡ copies_of next (attached_in (namespace_number namespace) mounts.now)) }
{
    let originals = mounts.attached_in(namespace);
    let mut copies = Vec::with_capacity(alloc, originals.len())?;
    for id in originals {
        if let Some(mount) = mounts.get(*id) {
            copies.push(copied(mount, originals, next, copies.len()))?;
        }
    }
    Ok(copies)
}

/// Where a root or a working directory is once its namespace is copied: on the copy of its mount, if that was copied.
pub fn moved(mounts: &Mounts, namespace: NamespaceId, at: Location, next: u64) -> Location
    requires { next + 2 * length (attached_in (namespace_number namespace) mounts.now) + 1 < u64.MAX }
    ensures { location_of result ≡ moved_in next (attached_in (namespace_number namespace) mounts.now) (location_of at) }
{
    let originals = mounts.attached_in(namespace);
    if is_in(mounts, at.mount, namespace) {
        on_copy(at, originals, next)
    } else {
        at
    }
}

// Whether a mount is attached in this namespace.
fn is_in(mounts: &Mounts, id: MountId, namespace: NamespaceId) -> bool
    ensures { result ≡ holds_of (λ mount. holds_of (nat_eq (namespace_number namespace)) mount.namespace)
        (find (λ mount. nat_eq (mount_number id) mount.number) (mounts_in mounts.now)) }
{
    match mounts.get(id) {
        Some(mount) => mount.namespace == Some(namespace),
        None => false,
    }
}

// The copy of a mount, which is likely at this place among the originals.
fn copied(mount: Mount, originals: &[MountId], next: u64, likely: usize) -> Mount
    requires order { are_rising originals.now ≡ true }
    requires room { next + 2 * length originals.now + 1 < u64.MAX }
    ensures { (all : List (meant.Mount ℕ)) → AreOf originals.now all
        → mount_of result ≡ copied_by next all (mount_of mount) }
{
    Mount {
        number: copy_number(mount.number, originals, next, likely),
        namespace: Some(NamespaceId::new(next)),
        mount_point: point_on_copy(mount.mount_point, originals, next),
        ..mount
    }
}

// The mount point of the copy of a mount.
fn point_on_copy(point: Option<Location>, originals: &[MountId], next: u64) -> Option<Location>
    requires order { are_rising originals.now ≡ true }
    requires room { next + 2 * length originals.now + 1 < u64.MAX }
    ensures { (all : List (meant.Mount ℕ)) → AreOf originals.now all
        → option_map location_of result
        ≡ option_map (location_on_copy (copy_numbers next all)) (option_map location_of point) }
{
    Some(on_copy(point?, originals, next))
}

// A location on the copy of its mount.
fn on_copy(at: Location, originals: &[MountId], next: u64) -> Location
    requires order { are_rising originals.now ≡ true }
    requires room { next + 2 * length originals.now + 1 < u64.MAX }
    ensures { (all : List (meant.Mount ℕ)) → AreOf originals.now all
        → location_of result ≡ location_on_copy (copy_numbers next all) (location_of at) }
{
    // Most mounts are on the root mount, which is mostly the first.
    Location {
        mount: copy_number(at.mount, originals, next, 0),
        node: at.node,
    }
}

// The number of the copy of a mount, which is likely at this place among the originals.
fn copy_number(id: MountId, originals: &[MountId], next: u64, likely: usize) -> MountId
    requires order { are_rising originals.now ≡ true }
    requires room { next + 2 * length originals.now + 1 < u64.MAX }
    ensures { (all : List (meant.Mount ℕ)) → AreOf originals.now all
        → mount_number result ≡ copy_numbers next all (mount_number id) }
{
    if is_at(originals, likely, id) {
        return MountId::new(next + 2 * likely as u64 + 1);
    }
    let place = originals
        .binary_search_by_key(&id.count, |other| other.count)
        .unwrap_or(0);
    MountId::new(next + 2 * place as u64 + 1)
}

// Whether a mount is at this place of a list.
fn is_at(ids: &[MountId], place: usize, id: MountId) -> bool
    ensures inside { result ≡ true → place < length ids.now }
    ensures same { result ≡ true → (d : MountId) → nat_eq (slice_index_or ids.now place d).count id.count ≡ true }
{
    match ids.get(place) {
        Some(other) => other.count == id.count,
        None => false,
    }
}

/// A use of a mount goes to another one, which has room for it. It does not allocate.
pub fn move_use(mounts: &mut Mounts, from: MountId, to: MountId)
    requires uses { nat_eq from.count to.count ≡ false → uses_of mounts.old (mount_number to) < u64.MAX }
    requires writers { nat_eq from.count to.count ≡ false → writers_of mounts.old (mount_number to) < u64.MAX }
    ensures { mounts.new ≡ with_use_moved (mount_number from) (mount_number to) mounts.old }
{
    if from == to {
        return;
    }
    // It cannot fail: there is room.
    let _ = mounts.hold(to, false);
    mounts.release(from, false);
}
