//! Events that change mounts where they are: mount(2) with `MS_REMOUNT`, or with a propagation type.
ghost use Rattle.std.specs.Prelude.{◌+◌, ◌<◌, ◌^◌, ◌||◌, ◌≡◌, IfOk, OnErr, OnOk, false, length, map, nat_eq, true};
ghost use Rattle.vt_cred.specs.MountFlags.{flags_of};
ghost use Rattle.vt_group.specs.Together.{Shares, pair_of};
ghost use Rattle.vt_location.specs.MountValue.{propagation_of};
ghost use Rattle.vt_location.specs.Numbers.{counted, mount_number};
ghost use Rattle.vt_retype.specs.Retyping.{retyped, shared_by};
ghost use Rattle.vt_request.specs.Requests.{type_word_of};
ghost use Rattle.vt_spec.specs.Machine.Permits as meant;
ghost use Rattle.vt_spec.specs.Machine.Permits.Permit.{ToSetFlags};
ghost use Rattle.vt_permits.specs.GrantValue.{mount_permit};
ghost use Rattle.vt_permits.specs.declared.grant.MountGrant.TheVariants.{SetType};
ghost use Rattle.vt_spec.specs.Machine.Types.{named_mounts};
ghost use Rattle.vt_laws_mounts.specs.Mounts.Attaching.{numbers_of};
ghost use Rattle.vt_laws_worlds.specs.Permits.Steps.{makes_shared};
ghost use Rattle.vt_mounting.specs.Detach.Events.{Becomes, Permits};
ghost use Rattle.vt_world.specs.WorldValue.{world_of};
ghost use Rattle.vt_ns.specs.Retyped.{IsRetyped, counted_after, set_if, with_counts};
ghost use Rattle.vt_ns.specs.Counting.{CountsNothing};

use crate::world::World;
use std::alloc::{AllocError, Global};
use vt_cred::MountFlags;
use vt_group::Groups;
use vt_location::{GroupId, MountId, Propagation};
use vt_mount::Mounts;
use vt_permits::ToSetType;
use vt_request::{TaskName, TypeWord};
use vt_retype::{leave_all, make_slaves, share};

impl World {
    /// Sets the flags of a mount: mount(2) with `MS_REMOUNT` and `MS_BIND`. It does not allocate.
    pub fn set_flags(&mut self, name: &TaskName, mount: MountId, flags: MountFlags)
        requires { Permits self.old name.now (ToSetFlags (mount_number mount) (flags_of flags)) }
        ensures ok { Becomes self.old name.now (ToSetFlags (mount_number mount) (flags_of flags)) self.new }
        ensures counts { CountsNothing self.old self.new }
    {
        self.mounts.set_flags(mount, flags);
    }

    /// Makes a mount shared, a slave, private or unbindable, also with all its descendants: mount(2) with `MS_SHARED`,
    /// `MS_SLAVE`, `MS_PRIVATE` or `MS_UNBINDABLE`, and `MS_REC`. A mount that becomes shared and is in no peer group is
    /// the first member of a new one.
    ///
    /// It fails too where no number is left. Nothing has changed then. One mount alone that does not become shared does
    /// not allocate.
    pub fn set_type(&mut self, name: &TaskName, change: ToSetType) -> Result<(), AllocError>
        requires { Permits self.old name.now (mount_permit (SetType change)) }
        ensures ok { OnOk result (Becomes self.old name.now (mount_permit (SetType change)) self.new) }
        ensures counts { OnOk result (self.new.next ≡ counted_after (type_word_of change.word) self.old.next
            (numbers_of (named_mounts nat_eq (world_of self.old) (mount_number change.mount) change.recursive))) }
        ensures births { self.new.births ≡ self.old.births }
        ensures err { OnErr result (self.new ≡ self.old) }
        ensures one { OnErr result ((change.recursive || makes_shared (mount_permit (SetType change))) ≡ true) }
    {
        let alloc = self.alloc;
        let next = self.next;
        let mounts = &mut self.mounts;
        let groups = &mut self.groups;
        let word = change.word;
        let recursive = change.recursive;
        if recursive {
            let tree = mounts.tree(change.mount)?;
            self.next = change_types(alloc, mounts, groups, &tree, word, next)?;
            return Ok(());
        }
        self.next = change_types(alloc, mounts, groups, &[change.mount], word, next)?;
        Ok(())
    }
}

// Mounts become shared; or slaves, private or unbindable, and leave their groups. It tells what is counted next.
//
// It fails too where no number is left. Nothing has changed then. Only shared mounts allocate.
fn change_types(
    alloc: Global,
    mounts: &mut Mounts,
    groups: &mut Groups,
    ids: &[MountId],
    word: TypeWord,
    next: u64,
) -> Result<u64, AllocError>
    ensures ok { IfOk result (λ later. IsRetyped (type_word_of word) next later
        (map mount_number ids.now) groups.old groups.new mounts.old mounts.new) }
    ensures groups_err { OnErr result (groups.new ≡ groups.old) }
    ensures mounts_err { OnErr result (mounts.new ≡ mounts.old) }
    ensures shared { OnErr result (makes_shared (meant.Permit.ToSetType 0 (type_word_of word) false) ≡ true) }
{
    match word {
        TypeWord::Shared => return share_all(alloc, mounts, groups, ids, next),
        TypeWord::Slave => make_slaves(mounts, groups, ids),
        TypeWord::Private => {
            set_all(mounts, ids, Propagation::Private);
            leave_all(mounts, groups, ids);
        }
        TypeWord::Unbindable => {
            set_all(mounts, ids, Propagation::Unbindable);
            leave_all(mounts, groups, ids);
        }
    }
    Ok(next)
}

// Mounts become shared, each that is in no group as the first member of a new one. The groups are numbered from the next
// count on, one for each mount. It tells what is counted next.
//
// It fails too where no number is left. Nothing has changed then.
fn share_all(
    alloc: Global,
    mounts: &mut Mounts,
    groups: &mut Groups,
    ids: &[MountId],
    next: u64,
) -> Result<u64, AllocError>
    ensures groups_ok { OnOk result
        (Shares groups.old groups.new (with_counts next (map mount_number ids.now))) }
    ensures types_ok { OnOk result (mounts.new
        ≡ map (shared_by groups.new (map mount_number ids.now)) mounts.old) }
    ensures count { IfOk result (λ later. later ≡ next + length ids.now) }
    ensures groups_err { OnErr result (groups.new ≡ groups.old) }
    ensures mounts_err { OnErr result (mounts.new ≡ mounts.old) }
{
    let Some(later) = next.checked_add(ids.len() as u64) else {
        return Err(AllocError);
    };
    let named = new_groups(alloc, ids, next)?;
    share(mounts, groups, &named)?;
    Ok(later)
}

// Each mount with the number of a group, counted from the next one on.
fn new_groups(
    alloc: Global,
    ids: &[MountId],
    next: u64,
) -> Result<Vec<(MountId, GroupId)>, AllocError>
    requires { next + length ids.now < 2 ^ 64 }
    ensures { IfOk result (λ named.
        map pair_of named.items ≡ with_counts next (map mount_number ids.now)) }
{
    let mut named = Vec::new(alloc);
    for (index, id) in ids.iter().enumerate() {
        named.push((*id, GroupId::new(next + index as u64)))?;
    }
    Ok(named)
}

// All these mounts get a type. It does not allocate.
fn set_all(mounts: &mut Mounts, ids: &[MountId], kind: Propagation)
    ensures { mounts.new ≡ map (retyped
        (set_if (map mount_number ids.now) (propagation_of kind))) mounts.old }
{
    for id in ids {
        mounts.set_propagation(*id, kind);
    }
}
