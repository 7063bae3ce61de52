//! Events in which mounts leave their namespaces: umount(2).
ghost use Rattle.std.specs.Prelude.{◌≡◌, IsOk, OnErr, OnOk, false, map, nat_eq, true};
ghost use Rattle.std.specs.List.Sorted.{IsPermutation};
ghost use Rattle.vt_location.specs.MountValue.{propagation_of};
ghost use Rattle.vt_location.specs.Numbers.{mount_number};
ghost use Rattle.vt_mount.specs.MountsValue.{mounts_in};
ghost use Rattle.vt_spec.specs.Machine.Mounts.{is_shared, mount_in};
ghost use Rattle.vt_ns.specs.Unmounting.{GoTogether, are_ungrouped, stands_on_shared, unmounts_alone};
ghost use Rattle.vt_mounting.specs.Detach.Detached.{tree_numbers};
ghost use Rattle.vt_mounting.specs.Detach.Stored.{CountNoUses, OverlaysLeft, kept};
ghost use Rattle.vt_spec.specs.Machine.Permits.Permit.{ToUnmount, ToUnmountLazily};
ghost use Rattle.vt_mounting.specs.Detach.Events.{Becomes, Permits};
ghost use Rattle.vt_laws_worlds.specs.Permits.Taken.{is_ungrouped};
ghost use Rattle.vt_ns.specs.Counting.{CountsNothing};

use crate::world::World;
use std::alloc::AllocError;
use vt_group::Groups;
use vt_location::{MountId, Propagation};
use vt_mount::Mounts;
use vt_mounting::attach::planned::{Planned, attach_planned};
use vt_mounting::detach::detaching::{detach, detach_each, detach_together};
use vt_propagate::Detachment;
use vt_request::TaskName;
use vt_store::Store;

impl World {
    /// Detaches a mount on which no other stands, and at each receiver of its parent the mount at the same place,
    /// unless others stand on that one; a single one that covers its root takes its place: umount(2). Detached
    /// mounts are freed: none is in use. Where the mount is in no peer group and its parent is not shared, it does
    /// not allocate.
    ///
    /// It fails too where an inode would have more than 2^64 - 1 uses.
    pub fn unmount(&mut self, name: &TaskName, mount: MountId) -> Result<(), AllocError>
        requires { Permits self.old name.now (ToUnmount (mount_number mount)) }
        ensures ok { OnOk result (Becomes self.old name.now (ToUnmount (mount_number mount)) self.new) }
        ensures alone { unmounts_alone (mounts_in self.old.mounts) (mount_number mount) ≡ true → IsOk result }
        ensures counts { OnOk result (CountsNothing self.old self.new) }
        ensures err { OnErr result (self.new ≡ self.old) }
    {
        if self.is_alone(mount) {
            self.unmount_alone(name, mount);
            return Ok(());
        }
        self.unmount_everywhere(name, mount)
    }

    // Whether a mount is in no peer group, and its parent is not shared.
    fn is_alone(&self, mount: MountId) -> bool
        ensures { result ≡ unmounts_alone (mounts_in self.now.mounts) (mount_number mount) }
    {
        is_in_no_group(type_of(&self.mounts, mount)) && !stands_on_shared(&self.mounts, mount)
    }

    // Detaches such a mount.
    fn unmount_alone(&mut self, name: &TaskName, mount: MountId)
        requires permitted { Permits self.old name.now (ToUnmount (mount_number mount)) }
        requires alone { unmounts_alone (mounts_in self.old.mounts) (mount_number mount) ≡ true }
        ensures ok { Becomes self.old name.now (ToUnmount (mount_number mount)) self.new }
        ensures counts { CountsNothing self.old self.new }
    {
        detach(&mut self.mounts, &mut self.store, mount);
    }

    // Detaches a mount, and those at the receivers of its parent.
    fn unmount_everywhere(&mut self, name: &TaskName, mount: MountId) -> Result<(), AllocError>
        requires { Permits self.old name.now (ToUnmount (mount_number mount)) }
        ensures ok { OnOk result (Becomes self.old name.now (ToUnmount (mount_number mount)) self.new) }
        ensures counts { OnOk result (CountsNothing self.old self.new) }
        ensures err { OnErr result (self.new ≡ self.old) }
    {
        let mut plan = vt_propagate::unmount(self.alloc, &self.mounts, &self.groups, mount)?;
        newest_first(&mut plan);
        let mounts = &mut self.mounts;
        let groups = &mut self.groups;
        take_away(mounts, groups, &mut self.store, &plan)?;
        Ok(())
    }

    /// Detaches a mount and all its descendants, in use or not, and what propagation detaches with each of them:
    /// umount(2) with `MNT_DETACH`. Each is freed with its last use. Where none of the tree is in a peer group, and the
    /// top's parent is not shared, it allocates no more than a list of the tree.
    ///
    /// It fails too where an inode would have more than 2^64 - 1 uses.
    pub fn unmount_lazily(&mut self, name: &TaskName, mount: MountId) -> Result<(), AllocError>
        requires { Permits self.old name.now (ToUnmountLazily (mount_number mount)) }
        ensures ok { OnOk result (Becomes self.old name.now (ToUnmountLazily (mount_number mount)) self.new) }
        ensures counts { OnOk result (CountsNothing self.old self.new) }
        ensures err { OnErr result (self.new ≡ self.old) }
    {
        if stands_on_shared(&self.mounts, mount) {
            return self.unmount_lazily_everywhere(name, mount);
        }
        let tree = self.mounts.tree(mount)?;
        if are_in_no_group(&self.mounts, &tree) {
            self.unmount_tree_alone(name, mount, &tree);
            return Ok(());
        }
        self.unmount_lazily_everywhere(name, mount)
    }

    // Detaches the mounts of a tree, of which none is in a peer group, and the parent of the top is not shared.
    fn unmount_tree_alone(&mut self, name: &TaskName, mount: MountId, tree: &[MountId])
        requires permitted { Permits self.old name.now (ToUnmountLazily (mount_number mount)) }
        requires tree { map mount_number tree.now
            ≡ tree_numbers (mounts_in self.old.mounts) (mount_number mount) }
        requires ungrouped { are_ungrouped (mounts_in self.old.mounts) (map mount_number tree.now) ≡ true }
        requires unshared { stands_on_shared (mounts_in self.old.mounts) (mount_number mount) ≡ false }
        ensures ok { Becomes self.old name.now (ToUnmountLazily (mount_number mount)) self.new }
        ensures counts { CountsNothing self.old self.new }
    {
        detach_each(&mut self.mounts, &mut self.store, tree);
    }

    // Detaches the mounts of a tree, and those that propagation detaches with them.
    fn unmount_lazily_everywhere(
        &mut self,
        name: &TaskName,
        mount: MountId,
    ) -> Result<(), AllocError>
        requires { Permits self.old name.now (ToUnmountLazily (mount_number mount)) }
        ensures ok { OnOk result (Becomes self.old name.now (ToUnmountLazily (mount_number mount)) self.new) }
        ensures counts { OnOk result (CountsNothing self.old self.new) }
        ensures err { OnErr result (self.new ≡ self.old) }
    {
        let mut plan = vt_propagate::unmount_lazily(self.alloc, &self.mounts, &self.groups, mount)?;
        newest_first(&mut plan);
        let mounts = &mut self.mounts;
        let groups = &mut self.groups;
        take_away(mounts, groups, &mut self.store, &plan)?;
        Ok(())
    }
}

// Mounts that stay move as a plan says, and those that go are detached: all or nothing.
fn take_away(
    mounts: &mut Mounts,
    groups: &mut Groups,
    store: &mut Store,
    plan: &Detachment,
) -> Result<(), AllocError>
    requires { CountNoUses store.old }
    ensures ok { OnOk result (GoTogether (map mount_number plan.now.gone.items) plan.now.points.items
        (kept mounts.old store.old) groups.old (kept mounts.new store.new) groups.new) }
    ensures overlays { OnOk result (OverlaysLeft store.old.overlays store.new.overlays) }
    ensures err_mounts { OnErr result (mounts.new ≡ mounts.old) }
    ensures err_groups { OnErr result (groups.new ≡ groups.old) }
    ensures err_store { OnErr result (store.new ≡ store.old) }
{
    let moved = Planned {
        copies: &[],
        groups: &[],
        points: &plan.points,
    };
    attach_planned(mounts, groups, store, &moved)?;
    detach_together(mounts, groups, store, &plan.gone);
    Ok(())
}

// The order in which mounts are detached, so that each list of mounts is shortened from its end.
fn newest_first(plan: &mut Detachment)
    ensures gone { IsPermutation plan.old.gone.items plan.new.gone.items }
    ensures points { plan.new.points.items ≡ plan.old.points.items }
{
    plan.gone.sort_unstable_by_key(|id| u64::MAX - id.count);
}

// Whether none of these mounts is in a peer group.
fn are_in_no_group(mounts: &Mounts, ids: &[MountId]) -> bool
    ensures { result ≡ are_ungrouped (mounts_in mounts.now) (map mount_number ids.now) }
{
    for id in ids {
        if !is_in_no_group(type_of(mounts, *id)) {
            return false;
        }
    }
    true
}

// The type of a mount.
pub(crate) fn type_of(mounts: &Mounts, id: MountId) -> Propagation
    ensures { propagation_of result ≡ (mount_in nat_eq (mounts_in mounts.now) (mount_number id)).propagation }
{
    match mounts.get(id) {
        Some(mount) => mount.propagation,
        None => Propagation::Private,
    }
}

// Whether a mount of this type is in no peer group, and no slave of one.
fn is_in_no_group(kind: Propagation) -> bool
    ensures { result ≡ is_ungrouped (propagation_of kind) }
{
    match kind {
        Propagation::Shared(_) | Propagation::Slave(_) => false,
        Propagation::Private | Propagation::Unbindable => true,
    }
}

// Whether a mount of this type is a member of a peer group.
pub(crate) fn is_member(kind: Propagation) -> bool
    ensures { result ≡ is_shared (propagation_of kind) }
{
    match kind {
        Propagation::Shared(_) => true,
        Propagation::Slave(_) | Propagation::Private | Propagation::Unbindable => false,
    }
}

// Whether a mount stands on one that is shared.
fn stands_on_shared(mounts: &Mounts, id: MountId) -> bool
    ensures { result ≡ stands_on_shared (mounts_in mounts.now) (mount_number id) }
{
    let Some(mount) = mounts.get(id) else {
        return false;
    };
    match mount.mount_point {
        Some(point) => is_member(type_of(mounts, point.mount)),
        None => false,
    }
}
