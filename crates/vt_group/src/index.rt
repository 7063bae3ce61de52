//! The lists by which the groups find mounts and groups without passing over all of them.
ghost use Rattle.std.specs.Prelude.{◌≡◌, ◌≢◌, ◌&&◌, ℕ, None, Some, OnOk, IsSome, false, true};
ghost use Rattle.vt_group.specs.ByNumber.{value_at};
ghost use Rattle.std.specs.List.{list_any};
ghost use Rattle.vt_location.specs.declared.mounts.Propagation.{Propagation as TypeKept};
ghost use Rattle.vt_location.specs.declared.mounts.Propagation.TheVariants.{Shared as SharedIn};
ghost use Rattle.vt_location.specs.declared.numbers.GroupId.{GroupId as GroupNumber};
ghost use Rattle.vt_location.specs.declared.numbers.MountId.{MountId as MountNumber};
ghost use Rattle.vt_spec.specs.Lists.{then_some};
ghost use Rattle.vt_location.specs.Numbers.{same_id};
ghost use Rattle.vt_group.specs.Handing.{group_handed, kind_handed};
ghost use Rattle.vt_group.specs.Indexed.{Hands, has_source, is_listed, is_lower, is_relative, source_of_kind};
ghost use Rattle.vt_group.specs.Listing.{EachJoined, EachListed, EachShared, IsJoined, IsListed, IsShared};
ghost use Rattle.vt_group.specs.Names.{KeepsNames, is_under};
ghost use Rattle.vt_group.specs.Sets.{has, same_group};

use crate::by_number::ByNumber;
use crate::groups::NewGroup;
use crate::listed::Listed;
use crate::names::{Left, Names};
use crate::propagation::source;
use crate::set::Element;
use crate::sets::{Sets, keep_lower, keep_typed};
use std::alloc::{AllocError, Global};
use std::collections::LinkedList;
use std::hash::Hash;
use vt_location::{GroupId, Mount, MountId, Propagation};

/// The members and slaves of groups, and the groups that have masters. It may list more than these, and never less.
#[derive(Debug, Drop)]
pub(crate) struct Index {
    names: Names,
    // By names: the mounts of groups, and the groups below them.
    mounts: Sets<MountId>,
    lowers: Sets<GroupId>,
}

impl Index {
    /// No mounts and no groups. It does not allocate.
    pub(crate) fn new(alloc: Global) -> Self {
        Index {
            names: Names::new(alloc),
            mounts: Sets::new(alloc),
            lowers: Sets::new(alloc),
        }
    }

    /// The allocator of its lists.
    pub(crate) fn allocator(&self) -> Global {
        self.names.allocator()
    }

    /// Mounts among which each member and each slave of a group is.
    #[inline]
    pub(crate) fn relatives(&self, group: GroupId) -> Listed<'_, MountId>
        ensures { (mount : MountNumber) → is_relative self.now mount group ≡ true
            → list_any (same_id mount) result ≡ true }
    {
        Listed::new(self.names.of(group), &self.mounts)
    }

    /// Groups among which each is that has this one as its master.
    #[inline]
    pub(crate) fn lowers(&self, group: GroupId) -> Listed<'_, GroupId>
        ensures { (lower : GroupNumber) → is_lower self.now lower group ≡ true
            → list_any (same_group lower) result ≡ true }
    {
        Listed::new(self.names.of(group), &self.lowers)
    }

    /// Lists a mount, before it gets a type.
    pub(crate) fn list(&mut self, mount: MountId, kind: Propagation) -> Result<(), AllocError>
        ensures ok { OnOk result (is_listed self.new mount kind ≡ true) }
        ensures kept { (other : MountNumber) (type : TypeKept) → is_listed self.old other type ≡ true
            → is_listed self.new other type ≡ true }
        ensures lower { (lower upper : GroupNumber) → is_lower self.old lower upper ≡ true
            → is_lower self.new lower upper ≡ true }
    {
        match source(kind) {
            Some(group) => put(&mut self.names, &mut self.mounts, group, mount),
            None => Ok(()),
        }
    }

    /// Lists a group, before it gets a master.
    pub(crate) fn join(&mut self, lower: GroupId, upper: GroupId) -> Result<(), AllocError>
        ensures ok { OnOk result (is_lower self.new lower upper ≡ true) }
        ensures kept { (mount : MountNumber) (kind : TypeKept) → is_listed self.old mount kind ≡ true
            → is_listed self.new mount kind ≡ true }
        ensures lower { (low up : GroupNumber) → is_lower self.old low up ≡ true → is_lower self.new low up ≡ true }
    {
        put(&mut self.names, &mut self.lowers, upper, lower)
    }

    /// Lists the groups that have masters here.
    pub(crate) fn join_all(&mut self, new: &[NewGroup]) -> Result<(), AllocError>
        ensures ok { OnOk result (EachJoined self.new new.now) }
        ensures kept { (mount : MountNumber) (kind : TypeKept) → is_listed self.old mount kind ≡ true
            → is_listed self.new mount kind ≡ true }
        ensures lower { (low up : GroupNumber) → is_lower self.old low up ≡ true → is_lower self.new low up ≡ true }
    {
        for group in new {
            self.join_new(*group)?;
        }
        Ok(())
    }

    fn join_new(&mut self, new: NewGroup) -> Result<(), AllocError>
        ensures ok { OnOk result (IsJoined self.new new.group new.master) }
        ensures kept { (mount : MountNumber) (kind : TypeKept) → is_listed self.old mount kind ≡ true
            → is_listed self.new mount kind ≡ true }
        ensures lower { (low up : GroupNumber) → is_lower self.old low up ≡ true → is_lower self.new low up ≡ true }
    {
        match new.master {
            Some(master) => self.join(new.group, master),
            None => Ok(()),
        }
    }

    /// Lists the mounts that are shared or slaves here.
    pub(crate) fn list_all(&mut self, mounts: &[Mount]) -> Result<(), AllocError>
        ensures ok { OnOk result (EachListed self.new mounts.now) }
        ensures kept { (mount : MountNumber) (kind : TypeKept) → is_listed self.old mount kind ≡ true
            → is_listed self.new mount kind ≡ true }
        ensures lower { (low up : GroupNumber) → is_lower self.old low up ≡ true → is_lower self.new low up ≡ true }
    {
        for mount in mounts {
            self.list_new(mount)?;
        }
        Ok(())
    }

    fn list_new(&mut self, mount: &Mount) -> Result<(), AllocError>
        ensures ok { OnOk result (IsListed self.new mount.now) }
        ensures kept { (other : MountNumber) (kind : TypeKept) → is_listed self.old other kind ≡ true
            → is_listed self.new other kind ≡ true }
        ensures lower { (low up : GroupNumber) → is_lower self.old low up ≡ true → is_lower self.new low up ≡ true }
    {
        match mount.propagation {
            Propagation::Shared(_) | Propagation::Slave(_) => {
                self.list(mount.number, mount.propagation)
            }
            Propagation::Private | Propagation::Unbindable => Ok(()),
        }
    }

    /// Lists mounts that become shared, each with the group for it, if it needs one. They have these types.
    pub(crate) fn share(
        &mut self,
        named: &[(MountId, GroupId)],
        types: &ByNumber<MountId, Propagation>,
    ) -> Result<(), AllocError>
        ensures ok { OnOk result (EachShared self.new types.now named.now) }
        ensures kept { (mount : MountNumber) (kind : TypeKept) → is_listed self.old mount kind ≡ true
            → is_listed self.new mount kind ≡ true }
        ensures lower { (low up : GroupNumber) → is_lower self.old low up ≡ true → is_lower self.new low up ≡ true }
    {
        for pair in named {
            self.share_pair(pair, types)?;
        }
        Ok(())
    }

    fn share_pair(
        &mut self,
        pair: &(MountId, GroupId),
        types: &ByNumber<MountId, Propagation>,
    ) -> Result<(), AllocError>
        ensures ok { OnOk result (IsShared self.new (value_at types.now pair.now.0.count) pair.now.0 pair.now.1) }
        ensures kept { (mount : MountNumber) (kind : TypeKept) → is_listed self.old mount kind ≡ true
            → is_listed self.new mount kind ≡ true }
        ensures lower { (low up : GroupNumber) → is_lower self.old low up ≡ true → is_lower self.new low up ≡ true }
    {
        let was = types.get(pair.0);
        self.share_one(was, pair.0, pair.1)
    }

    fn share_one(
        &mut self,
        was: Option<Propagation>,
        mount: MountId,
        group: GroupId,
    ) -> Result<(), AllocError>
        ensures ok { OnOk result (IsShared self.new was mount group) }
        ensures kept { (other : MountNumber) (kind : TypeKept) → is_listed self.old other kind ≡ true
            → is_listed self.new other kind ≡ true }
        ensures lower { (low up : GroupNumber) → is_lower self.old low up ≡ true → is_lower self.new low up ≡ true }
    {
        match was {
            Some(Propagation::Shared(own)) => self.list(mount, Propagation::Shared(own)),
            Some(Propagation::Slave(master)) => {
                self.join(group, master)?;
                self.list(mount, Propagation::Shared(group))
            }
            Some(Propagation::Private | Propagation::Unbindable) | None => {
                self.list(mount, Propagation::Shared(group))
            }
        }
    }

    /// Takes out a mount that had this type, once it has that one, or none. It does not allocate.
    pub(crate) fn leave(
        &mut self,
        mount: MountId,
        was: Option<Propagation>,
        is: Option<Propagation>,
    )
        ensures others { (other : MountNumber) (kind : TypeKept) → same_id mount other ≡ false
            → is_listed self.old other kind ≡ true → is_listed self.new other kind ≡ true }
        ensures own { (kind : TypeKept) → is ≡ Some kind → is_listed self.old mount kind ≡ true
            → is_listed self.new mount kind ≡ true }
        ensures lower { (lower upper : GroupNumber) → is_lower self.old lower upper ≡ true
            → is_lower self.new lower upper ≡ true }
    {
        let Some(group) = source_in(was) else {
            return;
        };
        let now = source_in(is);
        if now == Some(group) {
            return;
        }
        let stays = self.names.of_any(now);
        let left = take_out(&mut self.mounts, self.names.of(group), stays, mount);
        self.names
            .prune_left(group, left, &self.mounts, &self.lowers);
    }

    /// Takes out a group that had this master, once it has that one, or none. It does not allocate.
    pub(crate) fn part(&mut self, lower: GroupId, was: GroupId, is: Option<GroupId>)
        ensures kept { (mount : MountNumber) (kind : TypeKept) → is_listed self.old mount kind ≡ true
            → is_listed self.new mount kind ≡ true }
        ensures others { (other upper : GroupNumber) → same_group lower other ≡ false
            → is_lower self.old other upper ≡ true → is_lower self.new other upper ≡ true }
        ensures own { (upper : GroupNumber) → is ≡ Some upper → is_lower self.old lower upper ≡ true
            → is_lower self.new lower upper ≡ true }
    {
        let stays = self.names.of_any(is);
        let left = take_out(&mut self.lowers, self.names.of(was), stays, lower);
        self.names.prune_left(was, left, &self.mounts, &self.lowers);
    }

    /// Takes mounts out of where they are listed for these types, unless they have them. It does not allocate.
    pub(crate) fn unlist_all(
        &mut self,
        mounts: &[(MountId, Propagation)],
        types: &ByNumber<MountId, Propagation>,
    )
        ensures kept { (mount : MountNumber) (kind : TypeKept) → value_at types.now mount.count ≡ Some kind
            → is_listed self.old mount kind ≡ true → is_listed self.new mount kind ≡ true }
        ensures lower { (low up : GroupNumber) → is_lower self.old low up ≡ true → is_lower self.new low up ≡ true }
    {
        for pair in mounts {
            self.leave(pair.0, Some(pair.1), types.get(pair.0));
        }
    }

    /// Takes groups out of where they are listed for these masters, unless they have them. It does not allocate.
    pub(crate) fn part_all(&mut self, groups: &[NewGroup], above: &ByNumber<GroupId, GroupId>)
        ensures kept { (mount : MountNumber) (kind : TypeKept) → is_listed self.old mount kind ≡ true
            → is_listed self.new mount kind ≡ true }
        ensures lower { (low up : GroupNumber) → value_at above.now low.count ≡ Some up
            → is_lower self.old low up ≡ true → is_lower self.new low up ≡ true }
    {
        for group in groups {
            self.part_new(*group, above);
        }
    }

    fn part_new(&mut self, new: NewGroup, above: &ByNumber<GroupId, GroupId>)
        ensures kept { (mount : MountNumber) (kind : TypeKept) → is_listed self.old mount kind ≡ true
            → is_listed self.new mount kind ≡ true }
        ensures lower { (low up : GroupNumber) → value_at above.now low.count ≡ Some up
            → is_lower self.old low up ≡ true → is_lower self.new low up ≡ true }
    {
        if let Some(master) = new.master {
            self.part(new.group, master, above.get(new.group));
        }
    }

    /// A group that has no members has ended, and its heir, if any, has become the master of its slaves and lower groups.
    /// It does not allocate.
    pub(crate) fn end(
        &mut self,
        lost: GroupId,
        heir: Option<GroupId>,
        types: &ByNumber<MountId, Propagation>,
        above: &ByNumber<GroupId, GroupId>,
    )
        ensures kept { Hands self.old self.new lost heir types.now above.now }
    {
        let Some(heir) = heir else {
            self.dissolve(lost, types, above);
            return;
        };
        self.pass_on(lost, heir);
        self.part(lost, heir, None);
    }

    // A group has ended that has an heir, to which all that was below it passes.
    fn pass_on(&mut self, lost: GroupId, heir: GroupId)
        ensures mounts { (mount : MountNumber) (was kind : TypeKept) → is_lower self.old lost heir ≡ true
            → was ≢ SharedIn lost → kind_handed lost (Some heir) was ≡ Some kind
            → is_listed self.old mount was ≡ true → is_listed self.new mount kind ≡ true }
        ensures lowers { (lower was upper : GroupNumber) → is_lower self.old lost heir ≡ true
            → group_handed lost (Some heir) was ≡ Some upper
            → is_lower self.old lower was ≡ true → is_lower self.new lower upper ≡ true }
    {
        if heir == lost {
            return;
        }
        self.names.inherit(lost, heir);
    }

    // A group has ended that has no heir: what was below it and has no type or no master is taken out.
    fn dissolve(
        &mut self,
        lost: GroupId,
        types: &ByNumber<MountId, Propagation>,
        above: &ByNumber<GroupId, GroupId>,
    )
        ensures kept { (mount : MountNumber) (kind : TypeKept) → IsSome (value_at types.now mount.count)
            → has_source lost kind ≡ false
            → is_listed self.old mount kind ≡ true → is_listed self.new mount kind ≡ true }
        ensures lower { (lower upper : GroupNumber) → IsSome (value_at above.now lower.count)
            → same_group lost upper ≡ false
            → is_lower self.old lower upper ≡ true → is_lower self.new lower upper ≡ true }
    {
        let names = self.names.of(lost);
        keep_under(names, &mut self.mounts, &mut self.lowers, types, above);
        self.names.forget(lost);
    }
}

// Puts one under a name of a group.
fn put<T: Element>(
    names: &mut Names,
    sets: &mut Sets<T>,
    group: GroupId,
    one: T,
) -> Result<(), AllocError>
    ensures there { OnOk result (is_under T.eq names.new sets.new one group ≡ true) }
    ensures names { KeepsNames names.old names.new }
    ensures sets { (at : GroupNumber) (other : T) → has T.eq at other sets.old ≡ true
        → has T.eq at other sets.new ≡ true }
{
    let name = names.name(group)?;
    sets.insert(name, one)
}

// Takes one out from under the first of these names under which it is and does not stay.
fn take_out<T: Element>(
    sets: &mut Sets<T>,
    names: &LinkedList<GroupId>,
    stays: &LinkedList<GroupId>,
    one: T,
) -> Option<Left>
    ensures others { (at : GroupNumber) (other : T) → T.eq one other ≡ false → has T.eq at other sets.old ≡ true
        → has T.eq at other sets.new ≡ true }
    ensures own { (at : GroupNumber) (other : T) → list_any (λ name. same_group name at) stays.now ≡ true
        → has T.eq at other sets.old ≡ true → has T.eq at other sets.new ≡ true }
{
    for name in names {
        if let Some(left) = take_out_of(sets, *name, stays, one) {
            return Some(left);
        }
    }
    None
}

// Takes one out from under a name, unless it stays there.
fn take_out_of<T: Element>(
    sets: &mut Sets<T>,
    name: GroupId,
    stays: &LinkedList<GroupId>,
    one: T,
) -> Option<Left>
    ensures others { (at : GroupNumber) (other : T) → T.eq one other ≡ false → has T.eq at other sets.old ≡ true
        → has T.eq at other sets.new ≡ true }
    ensures own { (at : GroupNumber) (other : T) → list_any (λ name. same_group name at) stays.now ≡ true
        → has T.eq at other sets.old ≡ true → has T.eq at other sets.new ≡ true }
{
    if stays.contains(&name) {
        return None;
    }
    let was_last = sets.remove(name, one)?;
    Some(Left { name, was_last })
}

// Takes out what is under these names and has no type or no master.
fn keep_under(
    names: &LinkedList<GroupId>,
    mounts: &mut Sets<MountId>,
    lowers: &mut Sets<GroupId>,
    types: &ByNumber<MountId, Propagation>,
    above: &ByNumber<GroupId, GroupId>,
)
    ensures mounts { (at : GroupNumber) (mount : MountNumber) → IsSome (value_at types.now mount.count)
        → has same_id at mount mounts.old ≡ true → has same_id at mount mounts.new ≡ true }
    ensures lowers { (at lower : GroupNumber) → IsSome (value_at above.now lower.count)
        → has same_group at lower lowers.old ≡ true → has same_group at lower lowers.new ≡ true }
{
    for name in names {
        keep_typed(mounts, *name, types);
        keep_lower(lowers, *name, above);
    }
}

// The group that a mount of a type receives from.
fn source_in(kind: Option<Propagation>) -> Option<GroupId>
    ensures { result ≡ then_some kind source_of_kind }
{
    source(kind?)
}
