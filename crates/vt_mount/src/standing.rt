//! Which mounts stand on an inode, and on which mounts.
ghost use Rattle.std.specs.Prelude.{◌≡◌, IfOk, map, true};
ghost use Rattle.vt_location.specs.Numbers.{same_id};
ghost use Rattle.vt_location.specs.declared.numbers.MountId.{MountId};
ghost use Rattle.vt_mount.specs.Listed.{count_of};
ghost use Rattle.vt_mount.specs.Standing.{first_listed, stands_before, upon};
ghost use Rattle.vt_mount.specs.Rising.{precedes, rises};
ghost use Rattle.vt_mount.specs.Orders.{standing_order};

use crate::ascending::{Ascending, Ordered};
use std::alloc::{AllocError, Global};
use std::slice;
use vt_location::MountId;

/// A mount, and the mount that it stands on.
#[derive(Clone, Copy, Debug, Drop, PartialEq, Eq)]
pub(crate) struct Standing {
    pub(crate) parent: MountId,
    pub(crate) mount: MountId,
}

impl Standing {
    // The mount, if it stands on this one.
    #[inline(always)]
    fn mount_on(&self, parent: MountId) -> Option<MountId>
        ensures { result ≡ upon parent self.now }
    {
        if self.parent == parent {
            Some(self.mount)
        } else {
            None
        }
    }
}

impl Ordered for Standing {
    ghost before = { stands_before };

    #[inline(always)]
    fn is_before(&self, other: &Standing) -> bool {
        if self.parent.count == other.parent.count {
            self.mount.count < other.mount.count
        } else {
            self.parent.count < other.parent.count
        }
    }

    #[inline(always)]
    fn alone(&self) -> &[Standing] {
        slice::from_ref(self)
    }

    ghost order = { standing_order };
}

/// The first mount of a list that stands on this one. Mostly there is one at the most.
#[inline(always)]
pub(crate) fn first_on(list: &[Standing], parent: MountId) -> Option<MountId>
    requires { rises stands_before list.now ≡ true }
    ensures { result ≡ first_listed parent list.now }
{
    match list {
        [] => None,
        [one] => one.mount_on(parent),
        _ => first_among(list, parent),
    }
}

// The same by a search. It is a call of its own, so that a walk past no mount stays small.
#[inline(never)]
fn first_among(list: &[Standing], parent: MountId) -> Option<MountId>
    requires { rises stands_before list.now ≡ true }
    ensures { result ≡ first_listed parent list.now }
{
    let place = list.partition_point(|one| one.parent.count < parent.count);
    match list.get(place) {
        Some(one) => one.mount_on(parent),
        None => None,
    }
}

/// The mounts of a list, in the order of their numbers.
pub(crate) fn in_order(alloc: Global, list: &[Standing]) -> Result<Vec<MountId>, AllocError>
    ensures rising { IfOk result (λ ids. rises precedes ids.items ≡ true) }
    ensures counts { IfOk result (λ ids. (id : MountId) → count_of (same_id id) ids.items
        ≡ count_of (same_id id) (map (λ one. one.mount) list.now)) }
{
    let mut ids = Ascending::new();
    for one in list {
        ids.add(alloc, one.mount)?;
    }
    ids.as_slice().to_vec(alloc)
}
