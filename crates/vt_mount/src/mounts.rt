//! All mounts, by their numbers.
ghost use Rattle.std.specs.Prelude.{◌≡◌, ◌%◌, ◌==◌, ◌++◌, ◌∷◌, [], None, Some, filter, find, length, map};
ghost use Rattle.std.specs.Prelude.{nat_eq, nat_lt, not, option_copied, option_map, true, ℕ, ◌<◌, IfErr, IsOk, OnErr, OnOk, IfSome};
ghost use Rattle.std.specs.List.{list_all};
ghost use Rattle.std.specs.Map.{lookup};
ghost use Rattle.vt_spec.specs.Machine.Mounts.{detached};
ghost use Rattle.vt_location.specs.declared.mounts.Propagation.{Propagation};
ghost use Rattle.vt_location.specs.declared.numbers.MountId.{MountId};
ghost use Rattle.vt_cred.specs.MountFlags.{flags_of};
ghost use Rattle.vt_location.specs.Locations.{location_of};
ghost use Rattle.vt_location.specs.MountValue.{mount_of, propagation_of};
ghost use Rattle.vt_location.specs.Numbers.{counted, mount_number, same_id};
ghost use Rattle.vt_mount.specs.Named.{NameEach};
ghost use Rattle.vt_mount.specs.MountsValue.{are_ascending, changed, held, mounts_in, released, uses_of, writers_of};
ghost use Rattle.vt_mount.specs.Sources.{has_counted_source};

use crate::indexes::Indexes;
use crate::mounted::Mounted;
use indexmap::IndexMap;
use std::alloc::{AllocError, Global};
use std::marker::Model;
use vt_cred::MountFlags;
use vt_location::{Location, Mount, MountId, Propagation};

/// The mounts of all namespaces, and those that were detached and are still in use.
///
/// They are kept by hash, in no order; the lists under a namespace and a mount keep the order of their numbers, which is
/// that of attachment, and those under an inode that of the mounts that they stand on. Attaching a mount costs the same
/// however many there are; one that is removed or moved is found in its lists by a binary search.
///
/// What is done to a mount that does not exist has no effect.
#[derive(Debug, Drop)]
pub struct Mounts {
    pub(crate) by_number: IndexMap<MountId, Mounted>,
    pub(crate) indexes: Indexes,
}

impl Model for Mounts {
    ghost use Rattle.std.specs.Prelude.{List};
    ghost use Rattle.vt_mount.specs.MountsValue.{MountEntry, entries_of};

    ghost Value = { List MountEntry };

    ghost view = { λ m. entries_of m.by_number.entries };

    ghost use Rattle.vt_mount.specs.MountsValue.{in_order};
    ghost use Rattle.vt_mount.specs.Indexed.{IsIndexed};

    ghost invariant = { λ m. IsIndexed m.indexes (in_order m.by_number.entries) };
}

// What is kept under a number. The first mount is mostly the root of the first namespace, where most walks are: it is
// compared before a hash is taken.
#[inline(always)]
pub(crate) fn kept_under(by_number: &IndexMap<MountId, Mounted>, id: MountId) -> Option<&Mounted>
    ensures { option_copied result ≡ lookup (same_id id) by_number.now.entries }
{
    match by_number.first() {
        Some((first, kept)) if *first == id => Some(kept),
        _ => by_number.get(&id),
    }
}

impl Mounts {
    /// No mounts. It does not allocate.
    pub fn new(alloc: Global) -> Self
        ensures { result ≡ [] }
    {
        Mounts {
            by_number: IndexMap::new(alloc),
            indexes: Indexes::new(alloc),
        }
    }

    /// How many mounts there are.
    pub fn len(&self) -> usize
        ensures { result ≡ length self.now }
    {
        self.by_number.len()
    }

    /// The allocator of all that they have.
    ///
    /// Mounts are in the ascending order of their numbers, no two of which are equal. Each number is that of a count, and
    /// so is that of each group that a type names.
    #[inline(always)]
    pub fn alloc(&self) -> Global
        ensures order { are_ascending (mounts_in self.now) ≡ true }
        ensures counted { list_all (λ mount. mount.number % 4 == 1) (mounts_in self.now) ≡ true }
        ensures sources { list_all has_counted_source (mounts_in self.now) ≡ true }
    {
        *self.by_number.allocator()
    }

    /// The numbers of all mounts, in no order.
    pub fn ids(&self) -> &[MountId]
        ensures { NameEach result.now self.now }
    {
        self.by_number.keys().as_slice()
    }

    /// The mount of this number.
    #[inline(always)]
    pub fn get(&self, id: MountId) -> Option<Mount>
        ensures { option_map mount_of result
            ≡ find (λ mount. nat_eq (mount_number id) mount.number) (mounts_in self.now) }
    {
        let kept = kept_under(&self.by_number, id)?;
        Some(kept.mount(id))
    }

    /// How many uses of a mount are counted (`hold`, `release`): roots, working directories and descriptors on it.
    pub fn uses(&self, id: MountId) -> u64
        ensures { result ≡ uses_of self.now (mount_number id) }
    {
        match kept_under(&self.by_number, id) {
            Some(kept) => kept.uses,
            None => 0,
        }
    }

    /// How many of the counted uses of a mount are descriptors that are open for writing.
    pub fn writers(&self, id: MountId) -> u64
        ensures { result ≡ writers_of self.now (mount_number id) }
    {
        match kept_under(&self.by_number, id) {
            Some(kept) => kept.writers,
            None => 0,
        }
    }

    /// Whether a file is open for writing through a mount: EBUSY of mount(2) with `MS_REMOUNT`.
    pub fn is_written_through(&self, id: MountId) -> bool
        ensures { result ≡ nat_lt 0 (writers_of self.now (mount_number id)) }
    {
        self.writers(id) > 0
    }

    /// Sets the flags of one mount: mount(2) with `MS_REMOUNT` and `MS_BIND`. It does not allocate.
    pub fn set_flags(&mut self, id: MountId, flags: MountFlags)
        ensures { self.new
            ≡ changed (mount_number id) (λ entry.
            record entry { mount = record entry.mount { flags = flags_of flags } }) self.old }
    {
        if let Some(kept) = self.by_number.get_mut(&id) {
            kept.flags = flags;
        }
    }

    /// Sets the propagation type of one mount: mount(2) with `MS_PRIVATE` and so on. It does not allocate.
    pub fn set_propagation(&mut self, id: MountId, propagation: Propagation)
        ensures mounts { self.new
            ≡ changed (mount_number id)
            (λ entry. record entry { mount = record entry.mount { propagation = propagation_of propagation } }) self.old }
        ensures order { are_ascending (mounts_in self.old) ≡ true }
    {
        if let Some(kept) = self.by_number.get_mut(&id) {
            kept.propagation = propagation;
        }
    }

    /// Counts a root, a working directory or a descriptor on a mount; a descriptor may be open for writing.
    ///
    /// It does not allocate: an error says that 2^64 - 1 uses or writers are counted.
    pub fn hold(&mut self, id: MountId, writes: bool) -> Result<(), AllocError>
        ensures ok { OnOk result (self.new ≡ changed (mount_number id) (held writes) self.old) }
        ensures few { uses_of self.old (mount_number id) < u64.MAX → writers_of self.old (mount_number id) < u64.MAX
            → IsOk result }
        // released again, the mounts are as they were
        ensures undone { OnOk result (changed (mount_number id) (released writes) self.new ≡ self.old) }
        ensures err { OnErr result (self.new ≡ self.old) }
    {
        if let Some(kept) = self.by_number.get_mut(&id) {
            if !kept.has_room() {
                return Err(AllocError);
            }
            kept.hold(writes);
        }
        Ok(())
    }

    /// Takes back a use that `hold` counted; a count of 0 stays 0. It does not allocate.
    pub fn release(&mut self, id: MountId, writes: bool)
        ensures { self.new ≡ changed (mount_number id) (released writes) self.old }
    {
        if let Some(kept) = self.by_number.get_mut(&id) {
            kept.release(writes);
        }
    }
}
