//! What the groups ask of the propagation types of mounts.
ghost use Rattle.std.specs.Prelude.{◌≡◌, None, Some, nat_eq, option_map};
ghost use Rattle.vt_spec.specs.Lists.{holds_of};
ghost use Rattle.vt_spec.specs.Machine.Mounts.{group_of, source_of};
ghost use Rattle.vt_location.specs.MountValue.{propagation_of};
ghost use Rattle.vt_group.specs.Handing.{group_handed, kind_handed};
ghost use Rattle.vt_group.specs.Indexed.{group_of_kind, source_of_kind};
ghost use Rattle.vt_group.specs.Leaving.{type_after_end as type_in_the_end};
ghost use Rattle.vt_location.specs.Numbers.{group_number};

use vt_location::{GroupId, Propagation};

// The group that a mount of this type is in.
#[inline]
pub(crate) fn own_group(kind: Propagation) -> Option<GroupId>
    ensures kept { result ≡ group_of_kind kind }
    ensures number { option_map group_number result ≡ group_of (propagation_of kind) }
{
    match kind {
        Propagation::Shared(group) => Some(group),
        Propagation::Slave(_) | Propagation::Private | Propagation::Unbindable => None,
    }
}

// Whether a mount of this type is in this group.
pub(crate) fn is_in(kind: Propagation, group: GroupId) -> bool
    ensures { result ≡ holds_of (nat_eq (group_number group)) (group_of (propagation_of kind)) }
{
    own_group(kind) == Some(group)
}

// The group that a mount of this type receives from.
#[inline]
pub(crate) fn source(kind: Propagation) -> Option<GroupId>
    ensures kept { result ≡ source_of_kind kind }
    ensures number { option_map group_number result ≡ source_of (propagation_of kind) }
{
    match kind {
        Propagation::Shared(group) => Some(group),
        Propagation::Slave(master) => Some(master),
        Propagation::Private | Propagation::Unbindable => None,
    }
}

// Whether a mount of this type receives from this group.
#[inline]
pub(crate) fn has_source(kind: Propagation, group: GroupId) -> bool
    ensures { result ≡ holds_of (nat_eq (group_number group)) (source_of (propagation_of kind)) }
{
    source(kind) == Some(group)
}

/// The type of a mount after a group ended that had this heir: a slave of the group is a slave of the heir then, or
/// private if there is none.
pub fn type_after_end(kind: Propagation, lost: GroupId, heir: Option<GroupId>) -> Propagation
    ensures { propagation_of result
        ≡ type_in_the_end (group_number lost) (option_map group_number heir) (propagation_of kind) }
{
    handed(kind, lost, heir).unwrap_or(Propagation::Private)
}

// The type of a mount after a group was lost, to which this one is the heir. A slave of the group is private if there is
// no heir.
pub(crate) fn handed(kind: Propagation, lost: GroupId, heir: Option<GroupId>) -> Option<Propagation>
    ensures { result ≡ kind_handed lost heir kind }
{
    match kind {
        Propagation::Slave(master) => {
            handed_master(master, lost, heir).map(|master| Propagation::Slave(master))
        }
        Propagation::Shared(_) | Propagation::Private | Propagation::Unbindable => Some(kind),
    }
}

// The master of a group after another was lost, to which this one is the heir.
pub(crate) fn handed_master(
    master: GroupId,
    lost: GroupId,
    heir: Option<GroupId>,
) -> Option<GroupId>
    ensures { result ≡ group_handed lost heir master }
{
    if master == lost { heir } else { Some(master) }
}
