//! The event of a mount that gets another mount point: mount(2) with `MS_MOVE`.
ghost use Rattle.std.specs.Prelude.{◌+◌, ◌≤◌, ◌≡◌, IfOk, IfSome, OnErr, OnOk, false, is_some, map, nat_eq, option_map, true};
ghost use Rattle.vt_location.specs.Locations.{is_small_node, location_of};
ghost use Rattle.vt_location.specs.MountValue.{mount_of};
ghost use Rattle.vt_location.specs.Numbers.{counted, mount_number};
ghost use Rattle.vt_mount.specs.MountsValue.{mounts_in};
ghost use Rattle.vt_spec.specs.Machine.Mounts.{is_shared, mount_in, mount_tree};
ghost use Rattle.vt_spec.specs.Machine.Permits.Permit.{ToMove};
ghost use Rattle.vt_spec.specs.Machine.World.{mount_numbered};
ghost use Rattle.vt_mounting.specs.Detach.Events.{Becomes, Permits};
ghost use Rattle.vt_world.specs.WorldValue.{world_of};
ghost use Rattle.vt_ns.specs.Counting.{counted_for};

use crate::grafting::numbers_taken;
use crate::unmounting::{is_member, type_of};
use crate::world::World;
use std::alloc::AllocError;
use vt_location::{Location, Mount, MountId};
use vt_mounting::attach::bound::bound_mounts;
use vt_mounting::attach::moved::move_tree;
use vt_propagate::{Counts, Graft, parts};
use vt_request::TaskName;

impl World {
    /// Moves a mount, with all that is below it, to another mount point: mount(2) with `MS_MOVE`. On a shared mount all
    /// that moves is shared, and each receiver gets a copy of the whole tree.
    ///
    /// It fails too where no number is left, or an inode or a filesystem would have more than 2^64 - 1 uses.
    pub fn move_mount(
        &mut self,
        name: &TaskName,
        mount: MountId,
        place: Location,
    ) -> Result<(), AllocError>
        requires { Permits self.old name.now (ToMove (mount_number mount) (location_of place)) }
        ensures ok { OnOk result (Becomes self.old name.now
            (ToMove (mount_number mount) (location_of place)) self.new) }
        ensures counts { OnOk result (self.new.next ≤ self.old.next + counted_for self.old (location_of place)
            (mount_tree nat_eq (mounts_in self.old.mounts) (mount_numbered nat_eq (world_of self.old)
            (mount_number mount)))) }
        ensures births { self.new.births ≡ self.old.births }
        ensures err { OnErr result (self.new ≡ self.old) }
    {
        if is_member(type_of(&self.mounts, place.mount)) {
            return self.move_everywhere(name, mount, place);
        }
        self.move_alone(name, mount, place)
    }

    // Moves a mount to one that is not shared. The mounts keep their types.
    fn move_alone(
        &mut self,
        name: &TaskName,
        mount: MountId,
        place: Location,
    ) -> Result<(), AllocError>
        requires permitted { Permits self.old name.now (ToMove (mount_number mount) (location_of place)) }
        requires alone { is_shared (mount_in nat_eq (mounts_in self.old.mounts) (mount_number place.mount)).propagation
            ≡ false }
        ensures ok { OnOk result (Becomes self.old name.now
            (ToMove (mount_number mount) (location_of place)) self.new) }
        ensures counts { self.new.next ≡ self.old.next }
        ensures births { self.new.births ≡ self.old.births }
        ensures err { OnErr result (self.new ≡ self.old) }
    {
        let left = self.mount_point(mount);
        if self.store.uses(place.node) == u64::MAX {
            return Err(AllocError);
        }
        self.mounts.move_to(mount, place)?;
        // It cannot fail: one more use can be counted.
        let _ = self.store.pin(place.node);
        if let Some(point) = left {
            self.store.unpin(point.node);
        }
        Ok(())
    }

    // Moves a mount to a shared one: each receiver gets a copy of all that moves.
    fn move_everywhere(
        &mut self,
        name: &TaskName,
        mount: MountId,
        place: Location,
    ) -> Result<(), AllocError>
        requires permitted { Permits self.old name.now (ToMove (mount_number mount) (location_of place)) }
        requires shared { is_shared
            (mount_in nat_eq (mounts_in self.old.mounts) (mount_number place.mount)).propagation ≡ true }
        ensures ok { OnOk result (Becomes self.old name.now
            (ToMove (mount_number mount) (location_of place)) self.new) }
        ensures counts { OnOk result (self.new.next ≡ self.old.next + counted_for self.old (location_of place)
            (mount_tree nat_eq (mounts_in self.old.mounts) (mount_numbered nat_eq (world_of self.old)
            (mount_number mount)))) }
        ensures births { self.new.births ≡ self.old.births }
        ensures err { OnErr result (self.new ≡ self.old) }
    {
        let alloc = self.mounts.alloc();
        let tree = self.mounts_below(mount)?;
        let parts = parts(&self.mounts, &self.groups, &*self, place)?;
        let Some(taken) = numbers_taken(parts.len(), tree.len(), u64::MAX - self.next) else {
            return Err(AllocError);
        };
        let graft = Graft {
            parts: &parts,
            tree: &tree,
            place,
            moves: true,
        };
        let counts = Counts {
            first: self.next,
            step: 1,
        };
        move_tree(
            alloc,
            &mut self.mounts,
            &mut self.groups,
            &mut self.store,
            &graft,
            counts,
        )?;
        self.next += taken;
        Ok(())
    }

    // A mount that is there, with all its descendants: each mount before its children.
    fn mounts_below(&self, mount: MountId) -> Result<Vec<Mount>, AllocError>
        requires { is_some (mount_numbered nat_eq (world_of self.now) (mount_number mount)).namespace ≡ true }
        ensures ok { IfOk result (λ tree. map mount_of tree.items ≡ mount_tree nat_eq (mounts_in self.now.mounts)
            (mount_numbered nat_eq (world_of self.now) (mount_number mount))) }
    {
        let origins = self.mounts.tree(mount)?;
        let top = self.mounts.get(mount).unwrap();
        let source = Location {
            mount: top.number,
            node: top.root,
        };
        bound_mounts(self.mounts.alloc(), &self.mounts, &origins, source)
    }

    /// Where a mount is attached.
    pub(crate) fn mount_point(&self, mount: MountId) -> Option<Location>
        ensures point { option_map location_of result
            ≡ (mount_numbered nat_eq (world_of self.now) (mount_number mount)).mount_point }
        ensures slot { IfSome result (λ point. is_small_node point.node ≡ true) }
    {
        self.mounts.get(mount)?.mount_point
    }
}
