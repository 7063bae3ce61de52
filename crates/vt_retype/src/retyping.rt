//! Mounts and their groups change together: mount(2) with `MS_SHARED`, `MS_SLAVE`, `MS_PRIVATE` and `MS_UNBINDABLE`,
//! umount(2).
//!
//! The type of a mount is kept twice, in the mounts and in the groups. These functions change both, except
//! `set_types`; where a group ends, they set the types of the slaves that it leaves, and of no other mount.
ghost use Rattle.std.specs.Prelude.{[], ◌≡◌, ⊤, ℕ, if◌then◌else◌, None, OnErr, OnOk, map};
ghost use Rattle.vt_spec.specs.Language.Calls.TypeWord.{ToPrivate, ToSlave, ToUnbindable};
ghost use Rattle.vt_spec.specs.Lists.{folded};
ghost use Rattle.vt_spec.specs.Machine.Mounts.{group_of, is_unbindable};
ghost use Rattle.vt_spec.specs.Machine.Mounts.Propagation.{Private, Shared, Slave, Unbindable};
ghost use Rattle.vt_group.specs.Grouping.{Follows, propagation_in, with_propagation};
ghost use Rattle.vt_group.specs.Leaving.{type_once_left, type_once_slave};
ghost use Rattle.vt_group.specs.Steps.{retyped};
ghost use Rattle.vt_group.specs.Together.{Retypes, Shares, TakesAway, pair_of, typed};
ghost use Rattle.vt_location.specs.MountValue.{propagation_of};
ghost use Rattle.vt_location.specs.Numbers.{mount_number};
ghost use Rattle.vt_mount.specs.MountsValue.{changed};
ghost use Rattle.vt_retype.specs.Leaving.{HaveSources, OnlyTypesChange, once_left};
ghost use Rattle.vt_retype.specs.Retyping.{FollowsTypes, FollowsTypesLeft, shared_by, typed_entry, with_type_in};

use crate::handing::hand_on;
use std::alloc::AllocError;
use vt_group::Groups;
use vt_location::{GroupId, Mount, MountId, Propagation};
use vt_mount::Mounts;

/// All these mounts leave their groups at once; they were detached, or have become private or unbindable, in `mounts`.
/// Then the groups without members end. It does not allocate.
pub fn leave_all(mounts: &mut Mounts, groups: &mut Groups, ids: &[MountId])
    ensures private { Retypes groups.old groups.new ToPrivate (map mount_number ids.now) }
    ensures unbindable { Retypes groups.old groups.new ToUnbindable (map mount_number ids.now) }
    ensures detached { TakesAway groups.old groups.new (map mount_number ids.now) }
    ensures types { FollowsTypesLeft groups.old groups.new
        (map mount_number ids.now) mounts.old mounts.new }
{
    for id in ids {
        leave(mounts, groups, *id);
    }
}

/// A mount leaves its group; it was detached, or has become private or unbindable, in `mounts`. If it was the last
/// member, the slaves of the group get its master, or become private. It does not allocate.
pub fn leave(mounts: &mut Mounts, groups: &mut Groups, id: MountId)
    ensures left { Follows groups.old groups.new (λ world. ⊤)
        (λ world. with_propagation world (mount_number id) Private) }
    ensures told { (mount : ℕ) → propagation_in groups.new mount
        ≡ type_once_left groups.old (mount_number id) mount }
    ensures slaves { HaveSources groups.old mounts.old
        → mounts.new ≡ map (once_left groups.old (mount_number id)) mounts.old }
    ensures types { OnlyTypesChange mounts.old mounts.new }
{
    hand_on(mounts, groups, id);
    groups.leave(id);
}

/// Those of these mounts that are members of a group become slaves of it at once. Then the groups without members end.
/// It does not allocate.
pub fn make_slaves(mounts: &mut Mounts, groups: &mut Groups, ids: &[MountId])
    ensures groups { Retypes groups.old groups.new ToSlave (map mount_number ids.now) }
    ensures types { FollowsTypes groups.old groups.new [] mounts.old mounts.new }
{
    for id in ids {
        make_slave(mounts, groups, *id);
    }
}

// If a mount is a member of a group, it becomes a slave of it.
fn make_slave(mounts: &mut Mounts, groups: &mut Groups, id: MountId)
    ensures member { (group : ℕ) → propagation_in groups.old (mount_number id) ≡ Shared group
        → groups.new ≡ retyped (mount_number id) (Slave group) groups.old }
    ensures other { group_of (propagation_in groups.old (mount_number id)) ≡ None → groups.new ≡ groups.old }
    ensures told { (mount : ℕ) → propagation_in groups.new mount
        ≡ type_once_slave groups.old (mount_number id) mount }
    ensures types { FollowsTypes groups.old groups.new [] mounts.old mounts.new }
{
    hand_on(mounts, groups, id);
    groups.make_slave_of_own(id);
    follow(mounts, groups, id);
}

/// All these mounts become shared at once, unbindable ones too. One that is not shared yet is the first member of a new
/// group, which is given beside it; if it was a slave, its master is the master of that group.
pub fn share(
    mounts: &mut Mounts,
    groups: &mut Groups,
    named: &[(MountId, GroupId)],
) -> Result<(), AllocError>
    ensures groups_ok { OnOk result (Shares groups.old groups.new (map pair_of named.now)) }
    ensures types_ok { OnOk result (mounts.new
        ≡ map (shared_by groups.new (map (λ pair. mount_number pair.0) named.now)) mounts.old) }
    ensures groups_err { OnErr result (groups.new ≡ groups.old) }
    ensures mounts_err { OnErr result (mounts.new ≡ mounts.old) }
{
    groups.share(named)?;
    for pair in named {
        mounts.set_propagation(pair.0, told(groups, pair.0));
    }
    Ok(())
}

/// Mounts get the types that they have here, as the groups have them already: the mounts that move for an attachment.
/// A number that no mount has changes nothing. It does not allocate.
pub fn set_types(mounts: &mut Mounts, types: &[Mount])
    ensures { mounts.new ≡ folded with_type_in mounts.old (map typed types.now) }
{
    for mount in types {
        mounts.set_propagation(mount.number, mount.propagation);
    }
}

// A mount gets the type that the groups tell.
fn follow(mounts: &mut Mounts, groups: &Groups, id: MountId)
    ensures { mounts.new ≡ changed (mount_number id) (typed_entry groups.now) mounts.old }
{
    let Some(mount) = mounts.get(id) else {
        return;
    };
    mounts.set_propagation(id, follows(groups, id, mount.propagation));
}

// The type of a mount that had this one: that of the groups, or it stays unbindable.
fn follows(groups: &Groups, id: MountId, kind: Propagation) -> Propagation
    ensures { propagation_of result
        ≡ (if is_unbindable (propagation_of kind) then Unbindable else propagation_in groups.now (mount_number id)) }
{
    match kind {
        Propagation::Unbindable => Propagation::Unbindable,
        Propagation::Shared(_) | Propagation::Slave(_) | Propagation::Private => told(groups, id),
    }
}

// The type that the groups tell of a mount.
fn told(groups: &Groups, id: MountId) -> Propagation
    ensures { propagation_of result ≡ propagation_in groups.now (mount_number id) }
{
    groups.propagation_of(id).unwrap_or(Propagation::Private)
}
