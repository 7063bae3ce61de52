//! The event of a mount that becomes the root mount: pivot_root(2).
ghost use Rattle.std.specs.Prelude.{◌≡◌, OnErr, OnOk, true};
ghost use Rattle.vt_location.specs.Locations.{is_small_node, location_of};
ghost use Rattle.vt_location.specs.Numbers.{mount_number};
ghost use Rattle.vt_spec.specs.Machine.Permits.Permit.{ToPivot};
ghost use Rattle.vt_mounting.specs.Detach.Events.{Becomes, Permits};
ghost use Rattle.vt_mounting.specs.Detach.Forking.{HasRoom};
ghost use Rattle.vt_mounting.specs.Detach.Stored.{CountNoUses, kept};
ghost use Rattle.vt_ns.specs.Pivoting.{with_uses, without_uses};

use crate::forking::{has_room, hold_once_more};
use crate::world::World;
use std::alloc::AllocError;
use vt_location::{Location, MountId};
use vt_mount::Mounts;
use vt_request::TaskName;
use vt_store::Store;

impl World {
    /// Exchanges the mount of the caller's root with a mount under it, and attaches the old one at a place under the new
    /// one: pivot_root(2). Roots and working directories of the namespace's tasks at the root of the old one move to the
    /// root of the new one. Nothing propagates.
    ///
    /// It fails too where the new mount or its root would have more than 2^64 - 2 uses, or the place has 2^64 - 1.
    pub fn pivot_root(
        &mut self,
        name: &TaskName,
        new: MountId,
        put: Location,
    ) -> Result<(), AllocError>
        requires { Permits self.old name.now (ToPivot (mount_number new) (location_of put)) }
        ensures ok { OnOk result (Becomes self.old name.now (ToPivot (mount_number new) (location_of put)) self.new) }
        ensures counts { self.new.next ≡ self.old.next }
        ensures births { self.new.births ≡ self.old.births }
        ensures err { OnErr result (self.new ≡ self.old) }
    {
        let task = self.tasks.get(name).unwrap();
        let namespace = task.namespace;
        let root = self.mounts.get(task.root.mount).unwrap();
        let point = self.mount_point(new).unwrap();
        let new_root = self.mounts.get(new).unwrap();
        let left = root.root_location();
        let entered = new_root.root_location();
        let moved = self.tasks.places_at(namespace, left);
        if !has_room(moved + 1, &self.mounts, &self.store, entered)
            || self.store.uses(put.node) == u64::MAX
        {
            return Err(AllocError);
        }
        self.mounts.pivot(&root, &new_root, put)?;
        let mounts = &mut self.mounts;
        let store = &mut self.store;
        // It cannot fail: one more use can be counted.
        let _ = store.pin(put.node);
        hold_each(mounts, store, entered, moved);
        release_each(mounts, store, left, moved);
        store.unpin(point.node);
        self.tasks.pivot(namespace, &root, &new_root);
        Ok(())
    }
}

// So many uses more of a location, for which there is room. It does not allocate.
fn hold_each(mounts: &mut Mounts, store: &mut Store, at: Location, uses: u64)
    requires room { HasRoom uses at mounts.old store.old.plain }
    requires none { CountNoUses store.old }
    ensures held { kept mounts.new store.new ≡ with_uses uses at (kept mounts.old store.old) }
    ensures overlays { store.new.overlays ≡ store.old.overlays }
    ensures still { CountNoUses store.new }
    ensures slot { is_small_node at.node ≡ true }
{
    for _ in 0..uses {
        hold_once_more(mounts, store, at, false);
    }
}

// So many uses less of a location that is in use by others too. It does not allocate.
fn release_each(mounts: &mut Mounts, store: &mut Store, at: Location, uses: u64)
    requires { CountNoUses store.old }
    ensures left { kept mounts.new store.new ≡ without_uses uses at (kept mounts.old store.old) }
    ensures overlays { store.new.overlays ≡ store.old.overlays }
    ensures still { CountNoUses store.new }
    ensures slot { is_small_node at.node ≡ true }
{
    for _ in 0..uses {
        mounts.release(at.mount, false);
        store.unpin(at.node);
    }
}
