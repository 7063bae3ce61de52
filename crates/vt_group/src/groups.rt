//! Peer groups.
ghost use Rattle.std.specs.Prelude.{◌≢◌, ◌≡◌, Bool, ◌⊎◌, ◌&&◌, ◌||◌, not, [], ⊤, ℕ, None, Some, false, true, if◌then◌else◌, nat_eq, map, IfOk, IfSome, OnOk, OnErr, option_map};
ghost use Rattle.vt_spec.specs.Lists.{is_among};
ghost use Rattle.vt_spec.specs.Machine.Mounts.Propagation.{Private, Shared as SharedIn, Slave as SlaveOf};
ghost use Rattle.vt_spec.specs.Machine.Receives.{receivers};
ghost use Rattle.vt_spec.specs.Machine.Mounts.{group_of, source_of};
ghost use Rattle.vt_spec.specs.Machine.World.{World};
ghost use Rattle.vt_location.specs.MountValue.{propagation_of};
ghost use Rattle.vt_location.specs.Numbers.{counted, group_number, mount_number};
ghost use Rattle.vt_group.specs.Grouping.{Follows, Has, HasGroup, HasMount, LacksGroup, below, master_in, no_groups, propagation_in, with_propagation};
ghost use Rattle.vt_group.specs.Additions.{typed_pair};
ghost use Rattle.vt_group.specs.Together.{GrowsTo, Shares, new_group, pair_of};
ghost use Rattle.vt_group.specs.Together.{shared_group, shared_type, typed};
ghost use Rattle.vt_group.specs.Leaving.{lone_group, lost_group, master_after_end, type_after_end, type_once_ended, type_once_left, type_once_retyped, type_once_slave};
ghost use Rattle.std.specs.List.Sorted.{IsStrictlySortedBy};
ghost use Rattle.std.specs.Ordering.{nat_cmp};
ghost use Rattle.vt_group.specs.Receiving.{FindsBelow, IsLonger, is_in, is_noted, receivers_from, receives_from};
ghost use Rattle.vt_group.specs.Steps.{numbered_peer};
ghost use Rattle.vt_group.specs.Steps.{ended, ended_if_lost, has_peers, retyped, type_or_private};
ghost use Rattle.vt_laws_mounts.specs.Mounts.Attaching.{numbers_of};
ghost use Rattle.vt_laws_mounts.specs.Mounts.Receivers.{AllGroupsLive};

use crate::additions::{release_all, reserve_all, set_all, types_of};
use crate::by_number::ByNumber;
use crate::handing::{hand_groups, hand_mounts};
use crate::index::Index;
use crate::listed::Listed;
use crate::propagation::{has_source, own_group};
use crate::types::Types;
use indexmap::IndexSet;
use smallvec::SmallVec;
use std::alloc::{AllocError, Global};
use std::marker::Model;
use vt_location::{GroupId, Mount, MountId, Propagation};

/// For how many groups below one there is room at first.
const SOME: usize = 32;

/// Mounts that receive an event. Up to four, as most events have, take no memory.
pub type Receivers = SmallVec<MountId, 4>;

/// A new group, and its master.
#[derive(Clone, Copy, Debug, PartialEq, Eq)]
pub struct NewGroup {
    pub group: GroupId,
    pub master: Option<GroupId>,
}

/// The peer groups: their members and slaves, and their masters.
#[derive(Debug, Drop)]
pub struct Groups {
    mounts: Types,
    // The masters of the groups that have one.
    above: ByNumber<GroupId, GroupId>,
    index: Index,
}

impl Model for Groups {
    ghost use Rattle.std.specs.Prelude.{map};
    ghost use Rattle.vt_group.specs.Grouping.{Grouping};
    ghost use Rattle.vt_group.specs.Steps.{numbered_master, numbered_peer};

    ghost Value = { Grouping };

    ghost view = { λ g. record { peers = map numbered_peer g.mounts.kinds.entries; masters = map numbered_master g.above.entries } };

    ghost use Rattle.vt_group.specs.Indexed.{Lists};

    ghost invariant = { λ g. Lists g.index g.mounts.kinds g.above };
}

impl Groups {
    /// No groups. It does not allocate.
    pub fn new(alloc: Global) -> Self
        ensures { result ≡ no_groups }
    {
        Groups {
            mounts: Types::new(alloc),
            above: ByNumber::new(alloc),
            index: Index::new(alloc),
        }
    }

    /// The propagation type of a mount that is in a group or a slave of one. Any other is private or unbindable.
    #[inline]
    pub fn propagation_of(&self, mount: MountId) -> Option<Propagation>
        ensures { type_or_private result ≡ propagation_in self.now (mount_number mount) }
    {
        self.mounts.get(mount)
    }

    /// The master of a group.
    #[inline]
    pub fn master_of(&self, group: GroupId) -> Option<GroupId>
        ensures { option_map group_number result ≡ master_in self.now (group_number group) }
    {
        self.above.get(group)
    }

    /// The group that a mount is the only member of: it ends once the mount leaves it. It does not allocate.
    pub fn ends_with(&self, mount: MountId) -> Option<GroupId>
        ensures { option_map group_number result ≡ lone_group self.now (mount_number mount) }
    {
        let group = own_group(self.propagation_of(mount)?)?;
        if self.mounts.has_others(group, mount) {
            return None;
        }
        Some(group)
    }

    /// Mounts among which each member and each slave of a group is; others may be among them too.
    pub fn relatives(&self, group: GroupId) -> Listed<'_, MountId>
        ensures { (mount : ℕ) → source_of (propagation_in self.now mount) ≡ Some (group_number group)
            → is_among nat_eq mount (map mount_number result) ≡ true }
    {
        self.index.relatives(group)
    }

    /// The mounts that receive the events of a group, in order of attachment: its members and slaves, and those of
    /// every group below it.
    pub fn receivers(&self, group: GroupId) -> Result<Receivers, AllocError>
        ensures ok { IfOk result (λ mounts. (world : World ℕ) → Has world self.now → AllGroupsLive world
            → map mount_number mounts.items
            ≡ numbers_of (receivers nat_eq world (group_number group))) }
    {
        self.receiving(group)
    }

    // The mounts that receive the events of a group: those of the group and of the groups below it.
    fn receiving(&self, group: GroupId) -> Result<Receivers, AllocError>
        ensures { IfOk result (λ mounts. (found : ℕ → Bool)
            × FindsBelow self.now (group_number group) found
            × (map mount_number mounts.items ≡ receivers_from found self.now.peers)) }
    {
        if self.is_lowest(group) {
            return self.receiving_alone(group);
        }
        self.receiving_below(group)
    }

    // Whether there is surely no group below this one.
    fn is_lowest(&self, group: GroupId) -> bool
        ensures { result ≡ true → (one : ℕ) → master_in self.now one ≢ Some (group_number group) }
    {
        self.lowers(group).next().is_none()
    }

    // The mounts that receive the events of a group with no group below it.
    fn receiving_alone(&self, group: GroupId) -> Result<Receivers, AllocError>
        requires { (one : ℕ) → master_in self.now one ≢ Some (group_number group) }
        ensures { IfOk result (λ mounts. (found : ℕ → Bool)
            × FindsBelow self.now (group_number group) found
            × (map mount_number mounts.items ≡ receivers_from found self.now.peers)) }
    {
        let mut mounts = SmallVec::new(self.index.allocator());
        self.add_relatives(&mut mounts, group)?;
        put_in_order(&mut mounts);
        Ok(mounts)
    }

    // The mounts that receive the events of a group. The groups below it are looked for level by level.
    fn receiving_below(&self, group: GroupId) -> Result<Receivers, AllocError>
        ensures { IfOk result (λ mounts. (found : ℕ → Bool)
            × FindsBelow self.now (group_number group) found
            × (map mount_number mounts.items ≡ receivers_from found self.now.peers)) }
    {
        let alloc = self.index.allocator();
        let mut mounts = SmallVec::new(alloc);
        let mut found = IndexSet::new(alloc);
        found.reserve(SOME)?;
        found.insert(group)?;
        let mut next = 0;
        while next < found.len() {
            let here = found.as_slice()[next];
            self.add_relatives(&mut mounts, here)?;
            self.add_lowers(&mut found, here)?;
            next += 1;
        }
        put_in_order(&mut mounts);
        Ok(mounts)
    }

    // Adds the members and slaves of a group.
    #[inline]
    fn add_relatives(&self, mounts: &mut Receivers, group: GroupId) -> Result<(), AllocError>
        ensures { OnOk result ((mount : ℕ) → is_noted mounts.new.items mount
            ≡ (receives_from self.now (nat_eq (group_number group)) (counted mount)
            || is_noted mounts.old.items mount)) }
    {
        for mount in self.relatives(group) {
            self.add_relative(mounts, mount, group)?;
        }
        Ok(())
    }

    // Adds a mount, if it is a member or a slave of a group.
    #[inline]
    fn add_relative(
        &self,
        mounts: &mut Receivers,
        mount: MountId,
        group: GroupId,
    ) -> Result<(), AllocError>
        ensures { OnOk result ((other : ℕ) → is_noted mounts.new.items other
            ≡ (if nat_eq other mount.count
            then receives_from self.now (nat_eq (group_number group)) (counted other)
            || is_noted mounts.old.items other else is_noted mounts.old.items other)) }
    {
        let Some(kind) = self.propagation_of(mount) else {
            return Ok(());
        };
        if has_source(kind, group) {
            mounts.push(mount)?;
        }
        Ok(())
    }

    // Adds the groups that have this one as their master.
    #[inline]
    fn add_lowers(&self, found: &mut IndexSet<GroupId>, group: GroupId) -> Result<(), AllocError>
        ensures longer { OnOk result (IsLonger found.old.keys found.new.keys) }
        ensures lower { OnOk result ((one : ℕ) → is_in found.new.keys one ≡ true
            → (is_in found.old.keys one ≡ true) ⊎ (master_in self.now one ≡ Some (group_number group))) }
        ensures all { OnOk result ((one : ℕ) → master_in self.now one ≡ Some (group_number group)
            → is_in found.new.keys one ≡ true) }
    {
        for lower in self.lowers(group) {
            self.add_lower(found, lower, group)?;
        }
        Ok(())
    }

    // Adds a group, if it has that one as its master.
    #[inline]
    fn add_lower(
        &self,
        found: &mut IndexSet<GroupId>,
        lower: GroupId,
        group: GroupId,
    ) -> Result<(), AllocError>
        ensures longer { OnOk result (IsLonger found.old.keys found.new.keys) }
        ensures lower { OnOk result ((one : ℕ) → is_in found.new.keys one ≡ true
            → (is_in found.old.keys one ≡ true) ⊎ (master_in self.now one ≡ Some (group_number group))) }
        ensures there { OnOk result (master_in self.now (group_number lower) ≡ Some (group_number group)
            → is_in found.new.keys (group_number lower) ≡ true) }
    {
        if self.master_of(lower) == Some(group) {
            found.insert(lower)?;
        }
        Ok(())
    }

    // Groups among which each is that has this one as its master.
    #[inline]
    fn lowers(&self, group: GroupId) -> Listed<'_, GroupId>
        ensures { (one : ℕ) → master_in self.now one ≡ Some (group_number group) → is_in result one ≡ true }
    {
        self.index.lowers(group)
    }

    /// A mount becomes a member of a group. A group that is not there is made, without a master.
    pub fn join(&mut self, group: GroupId, mount: MountId) -> Result<(), AllocError>
        ensures ok { let mount = mount_number mount in
            let group = group_number group in
            OnOk result (Follows self.old self.new
            (λ world. HasMount world mount × (LacksGroup world group → world.master group ≡ None))
            (λ world. with_propagation world mount (SharedIn group))) }
        ensures err { OnErr result (self.new ≡ self.old) }
    {
        self.set(mount, Propagation::Shared(group))
    }

    /// A mount becomes a slave of a group, and is no member of any.
    pub fn make_slave(&mut self, mount: MountId, master: GroupId) -> Result<(), AllocError>
        ensures ok { let mount = mount_number mount in
            let master = group_number master in
            OnOk result (Follows self.old self.new
            (λ world. HasMount world mount × HasGroup world master)
            (λ world. with_propagation world mount (SlaveOf master))) }
        ensures err { OnErr result (self.new ≡ self.old) }
    {
        self.set(mount, Propagation::Slave(master))
    }

    /// A mount becomes private: it is in no group, and no group's slave. If it was the last of its group, the group ends.
    /// It does not allocate.
    pub fn leave(&mut self, mount: MountId)
        ensures left { Follows self.old self.new (λ world. ⊤)
            (λ world. with_propagation world (mount_number mount) Private) }
        ensures types { (other : ℕ) → propagation_in self.new other
            ≡ type_once_left self.old (mount_number mount) other }
    {
        let old = self.mounts.remove(mount);
        self.index.leave(mount, old, None);
        self.end_if_lost(old);
    }

    /// A mount that is a member of a group becomes a slave of it. If it was the last member, the group ends. It does not
    /// allocate.
    pub fn make_slave_of_own(&mut self, mount: MountId)
        ensures member { (group : ℕ) → propagation_in self.old (mount_number mount) ≡ SharedIn group
            → self.new ≡ retyped (mount_number mount) (SlaveOf group) self.old }
        ensures other { group_of (propagation_in self.old (mount_number mount)) ≡ None → self.new ≡ self.old }
        ensures types { (other : ℕ) → propagation_in self.new other
            ≡ type_once_slave self.old (mount_number mount) other }
    {
        let Some(kind) = self.propagation_of(mount) else {
            return;
        };
        let Some(group) = own_group(kind) else {
            return;
        };
        self.set_slave(mount, group);
    }

    // A member of a group becomes a slave of it.
    fn set_slave(&mut self, mount: MountId, group: GroupId)
        requires { propagation_in self.old (mount_number mount) ≡ SharedIn (group_number group) }
        ensures new { self.new ≡ retyped (mount_number mount) (SlaveOf (group_number group)) self.old }
        ensures types { (other : ℕ) → propagation_in self.new other
            ≡ type_once_slave self.old (mount_number mount) other }
    {
        let member = Propagation::Shared(group);
        let slave = Propagation::Slave(group);
        self.mounts.set(mount, slave);
        self.index.leave(mount, Some(member), Some(slave));
        self.end_if_lost(Some(member));
    }

    /// Mounts get the types that they have here, and new groups their masters, in whatever order they come: an
    /// attachment. No group that was there may lose its last member by it.
    pub fn add(&mut self, mounts: &[Mount], new: &[NewGroup]) -> Result<(), AllocError>
        ensures ok { OnOk result (GrowsTo self.old self.new (map typed mounts.now) (map new_group new.now)) }
        ensures err { OnErr result (self.new ≡ self.old) }
    {
        // Mostly one mount comes, whose type stands in no list.
        if let [only] = mounts {
            return self.add_typed(mounts, &[(only.number, only.propagation)], new);
        }
        let types = types_of(self.index.allocator(), mounts)?;
        self.add_typed(mounts, types.as_slice(), new)
    }

    // The same, where the types are given beside the mounts.
    fn add_typed(
        &mut self,
        mounts: &[Mount],
        types: &[(MountId, Propagation)],
        new: &[NewGroup],
    ) -> Result<(), AllocError>
        requires { map typed_pair types.now ≡ map typed mounts.now }
        ensures ok { OnOk result (GrowsTo self.old self.new (map typed mounts.now) (map new_group new.now)) }
        ensures err { OnErr result (self.new ≡ self.old) }
    {
        let before = self.types_before(self.index.allocator(), types)?;
        if self.index.join_all(new).is_err()
            || self.index.list_all(mounts).is_err()
            || reserve_all(&mut self.mounts, &mut self.above, types, new).is_err()
        {
            self.drop_plan(types, new);
            return Err(AllocError);
        }
        // From here on nothing can fail.
        set_all(&mut self.mounts, &mut self.above, types, new);
        self.index
            .unlist_all(before.as_slice(), self.mounts.kinds());
        Ok(())
    }

    /// All these mounts become shared at once. One that is not shared yet is the first member of a new group, which is
    /// given beside it; if it was a slave, its master is the master of that group.
    pub fn share(&mut self, named: &[(MountId, GroupId)]) -> Result<(), AllocError>
        ensures ok { OnOk result (Shares self.old self.new (map pair_of named.now)) }
        ensures err { OnErr result (self.new ≡ self.old) }
    {
        let alloc = self.index.allocator();
        let types = self.types_when_shared(alloc, named)?;
        let new = self.groups_when_shared(alloc, named)?;
        let types = types.as_slice();
        let new = new.as_slice();
        let before = self.types_before(alloc, types)?;
        if self.index.share(named, self.mounts.kinds()).is_err()
            || reserve_all(&mut self.mounts, &mut self.above, types, new).is_err()
        {
            self.drop_plan(types, new);
            return Err(AllocError);
        }
        // From here on nothing can fail.
        set_all(&mut self.mounts, &mut self.above, types, new);
        self.index
            .unlist_all(before.as_slice(), self.mounts.kinds());
        Ok(())
    }

    // A change to these types and new groups was planned, all or in part, and is given up.
    fn drop_plan(&mut self, types: &[(MountId, Propagation)], new: &[NewGroup])
        ensures { self.new ≡ self.old }
    {
        release_all(&mut self.mounts, &mut self.above, types, new);
        self.index.unlist_all(types, self.mounts.kinds());
        self.index.part_all(new, &self.above);
    }

    // The types of those of these mounts that have one, so that they can be taken out of where they were listed for it.
    // Nothing rests on it: what is left out stays listed.
    fn types_before(
        &self,
        alloc: Global,
        mounts: &[(MountId, Propagation)],
    ) -> Result<Vec<(MountId, Propagation)>, AllocError> {
        let mut types = Vec::new(alloc);
        for pair in mounts {
            if let Some(kind) = self.propagation_of(pair.0) {
                types.push((pair.0, kind))?;
            }
        }
        Ok(types)
    }

    // The types of mounts that become shared.
    fn types_when_shared(
        &self,
        alloc: Global,
        named: &[(MountId, GroupId)],
    ) -> Result<Vec<(MountId, Propagation)>, AllocError>
        ensures { IfOk result (λ types. map typed_pair types.items
            ≡ map (λ pair. shared_type self.now (pair_of pair)) named.now) }
    {
        let mut types = Vec::new(alloc);
        for pair in named {
            types.push((pair.0, self.when_shared(pair.0, pair.1)))?;
        }
        Ok(types)
    }

    // The groups of mounts that become shared.
    fn groups_when_shared(
        &self,
        alloc: Global,
        named: &[(MountId, GroupId)],
    ) -> Result<Vec<NewGroup>, AllocError>
        ensures { IfOk result (λ groups. map new_group groups.items
            ≡ map (λ pair. shared_group self.now (pair_of pair)) named.now) }
    {
        let mut groups = Vec::new(alloc);
        for pair in named {
            groups.push(self.group_when_shared(pair.0, pair.1))?;
        }
        Ok(groups)
    }

    // The type of a mount that becomes shared.
    fn when_shared(&self, mount: MountId, group: GroupId) -> Propagation
        ensures { (mount_number mount, propagation_of result)
            ≡ shared_type self.now (mount_number mount, group_number group) }
    {
        match self.propagation_of(mount) {
            Some(Propagation::Shared(own)) => Propagation::Shared(own),
            _ => Propagation::Shared(group),
        }
    }

    // The group of a mount that becomes shared: a slave's master is its master.
    fn group_when_shared(&self, mount: MountId, group: GroupId) -> NewGroup
        ensures { new_group result ≡ shared_group self.now (mount_number mount, group_number group) }
    {
        match self.propagation_of(mount) {
            Some(Propagation::Slave(master)) => NewGroup {
                group,
                master: Some(master),
            },
            _ => NewGroup {
                group,
                master: None,
            },
        }
    }

    /// A mount becomes the first member of a new group, which has this master, if any. A group that has a master keeps
    /// it.
    pub fn start_group(
        &mut self,
        group: GroupId,
        mount: MountId,
        master: Option<GroupId>,
    ) -> Result<(), AllocError>
        ensures ok { let mount = mount_number mount in
            let group = group_number group in
            let master = option_map group_number master in
            OnOk result (Follows self.old self.new
            (λ world. HasMount world mount × LacksGroup world group × IfSome master (HasGroup world))
            (λ world. below (with_propagation world mount (SharedIn group)) group master)) }
        ensures err { OnErr result (self.new ≡ self.old) }
    {
        let Some(master) = master else {
            return self.set(mount, Propagation::Shared(group));
        };
        if self.master_of(group).is_some() {
            return self.set(mount, Propagation::Shared(group));
        }
        self.index.list(mount, Propagation::Shared(group))?;
        self.index.join(group, master)?;
        self.above.reserve(group)?;
        let kind = Propagation::Shared(group);
        if self.mounts.reserve(mount, kind).is_err() {
            self.above.release(group);
            return Err(AllocError);
        }
        let old = self.mounts.get(mount);
        // From here on nothing can fail.
        self.above.set(group, master);
        self.mounts.set(mount, Propagation::Shared(group));
        self.index
            .leave(mount, old, Some(Propagation::Shared(group)));
        self.end_if_lost(old);
        Ok(())
    }

    // A mount gets a type.
    fn set(&mut self, mount: MountId, kind: Propagation) -> Result<(), AllocError>
        ensures ok { OnOk result (self.new ≡ retyped (mount_number mount) (propagation_of kind) self.old) }
        ensures types { OnOk result ((other : ℕ) → propagation_in self.new other
            ≡ type_once_retyped self.old (mount_number mount) (propagation_of kind) other) }
        ensures err { OnErr result (self.new ≡ self.old) }
    {
        self.index.list(mount, kind)?;
        self.mounts.reserve(mount, kind)?;
        let old = self.mounts.get(mount);
        self.mounts.set(mount, kind);
        self.index.leave(mount, old, Some(kind));
        self.end_if_lost(old);
        Ok(())
    }

    // A mount had this type: its group ends if that was the last member.
    fn end_if_lost(&mut self, old: Option<Propagation>)
        ensures ended { self.new ≡ ended_if_lost (group_of (type_or_private old)) self.old }
        ensures types { (mount : ℕ) → propagation_in self.new mount ≡ type_once_ended self.old
            (lost_group self.old (group_of (type_or_private old))) (propagation_in self.old mount) }
    {
        let Some(kind) = old else {
            return;
        };
        let Some(group) = own_group(kind) else {
            return;
        };
        if self.has_members(group) {
            return;
        }
        self.end(group);
    }

    // Whether a group has members.
    fn has_members(&self, group: GroupId) -> bool
        ensures { result ≡ has_peers (group_number group) self.now }
    {
        self.mounts.has_members(group)
    }

    // A group has no members left: its slaves and lower groups get its master.
    fn end(&mut self, group: GroupId)
        requires { has_peers (group_number group) self.old ≡ false }
        ensures ended { self.new ≡ ended (group_number group) self.old }
        ensures types { (mount : ℕ) → propagation_in self.new mount
            ≡ type_after_end (group_number group) (master_in self.old (group_number group))
            (propagation_in self.old mount) }
        ensures masters { (other : ℕ) → master_in self.new other
            ≡ master_after_end (group_number group) (master_in self.old (group_number group)) self.old other }
    {
        self.mounts.forget(group);
        let heir = self.above.get(group);
        hand_mounts(&mut self.mounts, self.index.relatives(group), group, heir);
        hand_groups(&mut self.above, self.index.lowers(group), group, heir);
        self.above.remove(group);
        self.index
            .end(group, heir, self.mounts.kinds(), &self.above);
    }
}

// Puts mounts in order of attachment, each once. It does not allocate.
fn put_in_order(mounts: &mut Receivers)
    ensures ordered { IsStrictlySortedBy nat_cmp (map (λ mount. mount.count) mounts.new.items) }
    ensures same { (mount : ℕ) → is_noted mounts.new.items mount ≡ is_noted mounts.old.items mount }
{
    mounts.sort_unstable_by_key(|mount| mount.count);
    mounts.dedup();
}
