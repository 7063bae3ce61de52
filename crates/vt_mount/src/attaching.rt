//! Mounts are attached, and others move for them, all or none: mount(2).
//!
//! Where mounts move, all memory is reserved before the first change, so that no move has to be taken back. Where none
//! does, mounts that came are taken out again if an allocation fails.
ghost use Rattle.std.specs.Prelude.{List, Err, Ok, Some, ◌≡◌, ◌+◌, ◌++◌, ◌∷◌, ◌<◌, ◌≤◌, ◌⊎◌, [], IfErr, IfOk, OnErr, OnOk, if◌then◌else◌, length, map, nat_lt, option_to_list, true, vec_capacity, vec_len};
ghost use Rattle.std.specs.Fn.{FnOnceReturnsAtMut};
ghost use Rattle.std.specs.List.{list_all};
ghost use Rattle.indexmap.specs.IndexMap.{spare};
ghost use Rattle.std.specs.Map.{lookup};
ghost use Rattle.vt_location.specs.declared.locations.Location.{Location};
ghost use Rattle.vt_location.specs.declared.numbers.MountId.{MountId};
ghost use Rattle.vt_location.specs.declared.numbers.NamespaceId.{NamespaceId};
ghost use Rattle.vt_location.specs.MountValue.{mount_of};
ghost use Rattle.vt_location.specs.Numbers.{mount_number, same_id};
ghost use Rattle.vt_mount.specs.declared.mounted.Mounted.{Mounted};
ghost use Rattle.vt_mount.specs.Reserved.{Reserves, mount_points_of, moved_places, namespaces_of};
ghost use Rattle.vt_mount.specs.Indexed.{IsIndexed};
ghost use Rattle.vt_mount.specs.Moving.{all_moves, is_small, move_of, with_points};
ghost use Rattle.vt_mount.specs.MountsValue.{ComeAfter, MountEntry, are_ascending, entries_of, in_order, mounts_in, unused_entry, without};

use crate::indexes::Indexes;
use crate::mounted::Mounted;
use crate::mounts::Mounts;
use crate::moving::{Moved, NewPoint, drop_left, move_all, release_moves, reserve_moves};
use indexmap::IndexMap;
use indexmap::map::Entry;
use std::alloc::AllocError;
use vt_location::{Mount, MountId};

impl Mounts {
    /// Attaches a mount, after all others, with no uses yet: mount(2). Its number is greater than theirs.
    #[inline(always)]
    pub fn attach(&mut self, mount: &Mount) -> Result<(), AllocError>
        requires { list_all (λ entry. nat_lt entry.mount.number (mount_number mount.now.number)) self.old ≡ true }
        ensures ok { OnOk result (self.new ≡ self.old ++ unused_entry mount.now ∷ []) }
        // taken out again, the mounts are as they were
        ensures undone { OnOk result (without (mount_number mount.now.number) self.new ≡ self.old) }
        ensures err { OnErr result (self.new ≡ self.old) }
    {
        if self.indexes.add(mount).is_err()
            || keep(&mut self.by_number, mount.number, Mounted::unused(mount)).is_err()
        {
            self.indexes
                .leave(mount.namespace, mount.mount_point, mount.number);
            return Err(AllocError);
        }
        Ok(())
    }

    // Attaches mounts after all others, with no uses yet.
    fn attach_all(&mut self, new: &[Mount]) -> Result<(), AllocError>
        requires { are_ascending (mounts_in self.old ++ map mount_of new.now) ≡ true }
        ensures ok { OnOk result (self.new ≡ self.old ++ map unused_entry new.now) }
        ensures err { OnErr result (self.new ≡ self.old) }
    {
        for (index, mount) in new.iter().enumerate() {
            if self.attach(mount).is_err() {
                self.withdraw(&new[..index]);
                return Err(AllocError);
            }
        }
        Ok(())
    }

    // Takes out the mounts that came last, with no uses yet. It does not allocate.
    fn withdraw(&mut self, new: &[Mount])
        ensures { (old : List MountEntry) → are_ascending (mounts_in old ++ map mount_of new.now) ≡ true
            → self.old ≡ old ++ map unused_entry new.now → self.new ≡ old }
    {
        for mount in new.iter().rev() {
            self.remove(mount.number);
        }
    }

    // Attaches mounts after all others, with no uses yet, and takes one more step, which may fail and change something
    // else.
    fn attach_then<S, F: FnOnce(&mut S) -> Result<(), AllocError>>(
        &mut self,
        new: &[Mount],
        other: &mut S,
        last: F,
    ) -> Result<(), AllocError>
        requires callable { F.IsAlwaysCallable last }
        requires order { are_ascending (mounts_in self.old ++ map mount_of new.now) ≡ true }
        ensures ok { OnOk result (self.new ≡ self.old ++ map unused_entry new.now) }
        ensures last_ok { OnOk result (FnOnceReturnsAtMut F.FnOnce last other.old (Ok tt) other.new) }
        ensures last_err { IfErr result (λ refused. (other.new ≡ other.old)
            ⊎ FnOnceReturnsAtMut F.FnOnce last other.old (Err refused) other.new) }
        ensures err { OnErr result (self.new ≡ self.old) }
    {
        self.attach_all(new)?;
        if let Err(error) = last(other) {
            self.withdraw(new);
            return Err(error);
        }
        Ok(())
    }

    /// Attaches mounts after all others, with no uses yet, and moves mounts that were there to other mount points, the
    /// last one of that list first: of two for one mount the first one stays. Once no allocation can fail any more, it
    /// takes one more step, which may fail and change something else. It returns what moved, in the order of the moves.
    /// Linear in the mounts attached and moved.
    ///
    /// If an allocation fails, that step has not been taken.
    pub fn attach_all_then<S, F: FnOnce(&mut S) -> Result<(), AllocError>>(
        &mut self,
        new: &[Mount],
        points: &[NewPoint],
        other: &mut S,
        last: F,
    ) -> Result<Vec<Moved>, AllocError>
        requires callable { F.IsAlwaysCallable last }
        requires order { ComeAfter (map mount_of new.now) (mounts_in self.old) }
        ensures ok { OnOk result (self.new ≡ with_points points.now self.old ++ map unused_entry new.now) }
        ensures moved { IfOk result (λ moved. map move_of moved.items ≡ all_moves points.now self.old) }
        ensures small { IfOk result (λ moved. list_all is_small moved.items ≡ true) }
        ensures last_ok { OnOk result (FnOnceReturnsAtMut F.FnOnce last other.old (Ok tt) other.new) }
        ensures last_err { IfErr result (λ refused. (other.new ≡ other.old)
            ⊎ FnOnceReturnsAtMut F.FnOnce last other.old (Err refused) other.new) }
        ensures err { OnErr result (self.new ≡ self.old) }
    {
        let mut moved = Vec::new(*self.by_number.allocator());
        // Each list is looked for once then, and not for its room before.
        if points.is_empty() {
            self.attach_then(new, other, last)?;
            return Ok(moved);
        }
        if make_room(
            &mut self.by_number,
            &mut self.indexes,
            new,
            points,
            &mut moved,
        )
        .is_err()
        {
            release_all(&mut self.indexes, new, points);
            return Err(AllocError);
        }
        if let Err(refused) = last(other) {
            release_all(&mut self.indexes, new, points);
            return Err(refused);
        }
        move_all(&mut self.by_number, &mut self.indexes, points, &mut moved);
        enter_all(&mut self.by_number, &mut self.indexes, new);
        release_moves(&mut self.indexes, points);
        drop_left(&mut self.indexes, &moved);
        Ok(moved)
    }
}

// Reserves all memory for mounts that come and move. If it fails, some of that room may be reserved.
fn make_room(
    by_number: &mut IndexMap<MountId, Mounted>,
    indexes: &mut Indexes,
    new: &[Mount],
    points: &[NewPoint],
    moved: &mut Vec<Moved>,
) -> Result<(), AllocError>
    ensures mounts { by_number.new.entries ≡ by_number.old.entries }
    ensures indexed { (kept : List (MountId × Mounted)) → IsIndexed indexes.old kept → IsIndexed indexes.new kept }
    ensures moved { moved.new.items ≡ moved.old.items }
    ensures spare { OnOk result (length new.now ≤ spare by_number.new) }
    ensures room { OnOk result (vec_len moved.new + length points.now ≤ vec_capacity moved.new) }
    ensures reserves { OnOk result
        (Reserves indexes.new (namespaces_of new.now) (moved_places points.now ++ mount_points_of new.now)) }
{
    by_number.reserve(new.len())?;
    moved.reserve(points.len())?;
    reserve_mounts(indexes, new)?;
    reserve_moves(indexes, points)
}

// Reserves room in the lists for mounts that come. If it fails, some of that room may be reserved.
fn reserve_mounts(indexes: &mut Indexes, new: &[Mount]) -> Result<(), AllocError>
    ensures same { (kept : List (MountId × Mounted)) → IsIndexed indexes.old kept → IsIndexed indexes.new kept }
    ensures ok { OnOk result ((namespaces : List NamespaceId) (places : List Location)
        → Reserves indexes.old namespaces places
        → Reserves indexes.new (namespaces_of new.now ++ namespaces) (mount_points_of new.now ++ places)) }
{
    for mount in new.iter().rev() {
        indexes.reserve(mount.namespace, mount.mount_point)?;
    }
    Ok(())
}

// Gives up the room that is reserved for these. It does not allocate.
fn release_all(indexes: &mut Indexes, new: &[Mount], points: &[NewPoint])
    ensures { (kept : List (MountId × Mounted)) → IsIndexed indexes.old kept → IsIndexed indexes.new kept }
{
    for mount in new {
        indexes.release(mount.namespace, mount.mount_point);
    }
    release_moves(indexes, points);
}

// Mounts come after all others. It does not allocate: there is room.
fn enter_all(by_number: &mut IndexMap<MountId, Mounted>, indexes: &mut Indexes, new: &[Mount])
    requires indexed { IsIndexed indexes.old (in_order by_number.old.entries) }
    requires order { are_ascending (mounts_in (entries_of by_number.old.entries) ++ map mount_of new.now) ≡ true }
    requires spare { length new.now ≤ spare by_number.old }
    requires reserves { Reserves indexes.old (namespaces_of new.now) (mount_points_of new.now) }
    ensures indexed { IsIndexed indexes.new (in_order by_number.new.entries) }
    ensures mounts { entries_of by_number.new.entries
        ≡ entries_of by_number.old.entries ++ map unused_entry new.now }
{
    for mount in new {
        enter(by_number, indexes, *mount);
    }
}

// A mount comes after all others. It does not allocate: there is room.
fn enter(by_number: &mut IndexMap<MountId, Mounted>, indexes: &mut Indexes, mount: Mount)
    requires indexed { IsIndexed indexes.old (in_order by_number.old.entries) }
    requires order { list_all (λ entry. nat_lt entry.mount.number (mount_number mount.number))
        (entries_of by_number.old.entries) ≡ true }
    requires spare { 0 < spare by_number.old }
    requires reserves { Reserves indexes.old (option_to_list mount.namespace) (option_to_list mount.mount_point) }
    ensures indexed { IsIndexed indexes.new (in_order by_number.new.entries) }
    ensures mounts { entries_of by_number.new.entries ≡ entries_of by_number.old.entries ++ unused_entry mount ∷ [] }
    ensures spare { spare by_number.old ≤ spare by_number.new + 1 }
    ensures reserves { (namespaces : List NamespaceId) (places : List Location)
        → Reserves indexes.old (option_to_list mount.namespace ++ namespaces)
        (option_to_list mount.mount_point ++ places) → Reserves indexes.new namespaces places }
{
    indexes.enter(&mount);
    // It cannot fail: there is room.
    let _ = by_number.insert(mount.number, Mounted::unused(&mount));
}

// Keeps a mount under its number. What `insert` returns on failure holds a mount, which would be copied more often.
#[inline(always)]
fn keep(
    by_number: &mut IndexMap<MountId, Mounted>,
    number: MountId,
    kept: Mounted,
) -> Result<(), AllocError>
    ensures ok { OnOk result ((q : MountId) → lookup (same_id q) by_number.new.entries
        ≡ (if same_id number q then Some kept else lookup (same_id q) by_number.old.entries)) }
    ensures err { OnErr result (by_number.new.entries ≡ by_number.old.entries) }
{
    match by_number.entry(number)? {
        Entry::Occupied(entry) => *entry.into_mut() = kept,
        Entry::Vacant(entry) => {
            entry.insert(kept);
        }
    }
    Ok(())
}
