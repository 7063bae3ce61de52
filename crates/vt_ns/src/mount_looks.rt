//! What the rules of mount calls look at: mount(2), umount(2).
ghost use Rattle.std.specs.Prelude.{◌≡◌, ◌∷◌, [], IfOk, List, false, length, nat_eq, option_map, option_to_list, ℕ};
ghost use Rattle.std.specs.List.{list_any};
ghost use Rattle.vt_location.specs.Locations.{location_of};
ghost use Rattle.vt_location.specs.Numbers.{mount_number};
ghost use Rattle.vt_mount.specs.MountsValue.{mounts_in};
ghost use Rattle.vt_permits.specs.GrantValue.{attachment_permit};
ghost use Rattle.vt_spec.specs.Machine.Attach.{Copies, attached_by, bind_tree, has_too_many, parts_of};
ghost use Rattle.vt_spec.specs.Machine.Invariants.{NamespaceInvariants};
ghost use Rattle.vt_spec.specs.Machine.Mounts as meant;
ghost use Rattle.vt_spec.specs.Language.Calls.{MountFlags};
ghost use Rattle.vt_spec.specs.Machine.Permits.Permit.{ToMountOverlay, ToMove};
ghost use Rattle.vt_spec.specs.Machine.Locked.{live_layers, overlaps_one_of};
ghost use Rattle.vt_spec.specs.Machine.Rules.Conditions.{is_overlay_at};
ghost use Rattle.vt_spec.specs.Machine.Rules.Mounting.{layer_at};
ghost use Rattle.vt_spec.specs.Machine.World.{Overlay, World as Meant};
ghost use Rattle.vt_ns.specs.LayersSeen.{plain_seen};
ghost use Rattle.vt_mounting.specs.Detach.Looking.{looks_of_value, overfills_of};
ghost use Rattle.vt_world.specs.Held.{IsHeld};
ghost use Rattle.vt_world.specs.WorldValue.{world_of};

use crate::world::World;
use std::alloc::AllocError;
use vt_layers::{LayerLocations, LookAtLayers, Lower};
use vt_location::{InodeRef, Location, MountId, Propagation};
use vt_looks::LookAtMounts;
use vt_overlaps::{overlaps_live, overlaps_one_of};
use vt_permits::Attachment;
use vt_propagate::{Load, has_room_everywhere, is_busy, overfills};
use vt_spec::errors::Deny;
use vt_tasks::Task;

impl World {
    /// Whether a file is open for writing through a mount: EBUSY of mount(2) with `MS_REMOUNT`.
    pub(crate) fn has_writer(&self, mount: MountId) -> bool
        ensures { result ≡ (looks_of_value self.now).is_written_through (mount_number mount) }
    {
        self.mounts.is_written_through(mount)
    }
}

impl LookAtMounts for World {
    ghost overfills = { overfills_of };

    fn is_at_or_below(&self, top: MountId, mount: MountId) -> bool {
        let mut here = mount;
        for _ in 0..self.mounts.len() {
            if here == top {
                return true;
            }
            let Some(point) = self.mount_point(here) else {
                return false;
            };
            here = point.mount;
        }
        here == top
    }

    fn has_unbindable(&self, top: MountId) -> bool {
        self.mounts.has_unbindable(top)
    }

    fn is_busy(&self, mount: MountId) -> Result<bool, Deny> {
        Ok(is_busy(self.alloc, &self.mounts, &self.groups, mount)?)
    }

    fn is_written_through(&self, mount: MountId) -> bool {
        self.has_writer(mount)
    }

    fn overfills(&self, attachment: Attachment) -> Result<bool, Deny> {
        Ok(self.has_too_many(attachment)?)
    }
}

impl LookAtLayers for World {
    fn overlaps_one_of(&self, others: &[Lower], at: Location) -> bool {
        for other in others {
            if self.overlap(other.at, at) {
                return true;
            }
        }
        false
    }

    fn is_in_use(&self, _who: &Task, layers: &LayerLocations) -> bool {
        // No overlay writes to a lower layer: what holds of the store says so.
        let _ = &self.store;
        self.is_layered(layers.upper) || self.is_layered(layers.work)
    }

    fn overfills_with_overlay(&self, destination: Location) -> Result<bool, Deny> {
        Ok(self.has_too_many_with_overlay(destination)?)
    }
}

impl World {
    // The inode of a plain tree that a location leads to, where its mount shows that tree.
    fn plain_at(&self, at: Location) -> Option<InodeRef>
        ensures { result ≡ plain_seen self.now at }
    {
        if self.is_seen(at) {
            at.node.plain()
        } else {
            None
        }
    }

    // Whether the directory at a location overlaps another one: some inode lies under both. What is not there overlaps
    // none.
    fn overlap(&self, other: Location, at: Location) -> bool
        requires other { is_overlay_at (looks_of_value self.now) (location_of other) ≡ false }
        requires at { is_overlay_at (looks_of_value self.now) (location_of at) ≡ false }
        ensures { result ≡ (looks_of_value self.now).overlaps_one_of
            (layer_at (looks_of_value self.now) (location_of other) ∷ [])
            (layer_at (looks_of_value self.now) (location_of at)) }
    {
        let store = &self.store;
        let Some(beside) = self.plain_at(other) else {
            return false;
        };
        match self.plain_at(at) {
            Some(top) => overlaps_one_of(store, &[beside], top),
            None => false,
        }
    }

    // Whether the upper or the work directory of a new overlay overlaps a layer of an overlay, if it is given.
    fn is_layered(&self, at: Option<Location>) -> bool
        requires { list_any (is_overlay_at (looks_of_value self.now)) (option_to_list (option_map location_of at))
            ≡ false }
        ensures { result ≡ list_any (overlaps_one_of nat_eq (world_of self.now) (live_layers (world_of self.now)))
            (option_to_list (option_map (layer_at (looks_of_value self.now)) (option_map location_of at))) }
    {
        let store = &self.store;
        let Some(at) = at else {
            return false;
        };
        match self.plain_at(at) {
            Some(top) => overlaps_live(store, top),
            None => false,
        }
    }

    // Whether a namespace has too many mounts once an overlay is mounted here.
    fn has_too_many_with_overlay(&self, destination: Location) -> Result<bool, AllocError>
        ensures ok { (overlay : Overlay ℕ) (flags : MountFlags) → IfOk result (λ too_many.
            too_many ≡ overfills_of self.now (ToMountOverlay (location_of destination) overlay flags)) }
    {
        self.has_too_many_with(destination, 1)
    }

    // Whether a namespace has too many mounts once this is attached.
    fn has_too_many(&self, attachment: Attachment) -> Result<bool, AllocError>
        ensures ok { IfOk result (λ too_many.
            too_many ≡ overfills_of self.now (attachment_permit attachment)) }
    {
        match attachment {
            Attachment::Plain { destination, .. } => self.has_too_many_with(destination, 1),
            Attachment::Bind(bind) => {
                let count = self.bind_count(bind.source, bind.recursive)?;
                self.has_too_many_with(bind.destination, count)
            }
            Attachment::Move { mount, destination } => self.has_too_many_moved(mount, destination),
        }
    }

    // How many mounts a bind copies.
    fn bind_count(&self, source: Location, recursive: bool) -> Result<usize, AllocError>
        ensures ok { IfOk result (λ count.
            count ≡ length (bind_tree nat_eq (world_of self.now) (location_of source) recursive)) }
    {
        if !recursive {
            return Ok(1);
        }
        let tree = self.bind_tree(source, recursive)?;
        Ok(tree.len())
    }

    // Whether a namespace has too many mounts once so many are attached at a place, and at the receivers there. It is
    // said of each world with these mounts and parts, since a new mount comes with a filesystem. A mount that is not
    // shared has no receivers.
    fn has_too_many_with(&self, place: Location, count: usize) -> Result<bool, AllocError>
        ensures ok { IfOk result (λ too_many. (world : Meant ℕ) (new : Copies ℕ) (tree : List (meant.Mount ℕ))
            → mounts_in self.now.mounts ≡ world.mounts → NamespaceInvariants nat_eq world
            → parts_of nat_eq world (location_of place) ≡ parts_of nat_eq (world_of self.now) (location_of place)
            → length tree ≡ count
            → too_many ≡ has_too_many nat_eq (attached_by nat_eq world new (location_of place) false tree)) }
        ensures held { IsHeld self.now }
    {
        if has_room_everywhere(&self.mounts, count) {
            return Ok(false);
        }
        let Some(parent) = self.mounts.get(place.mount) else {
            return Ok(false);
        };
        let load = Load {
            count,
            leaves: None,
        };
        if let Propagation::Shared(_) = parent.propagation {
            let parts = self.parts_at(place)?;
            return overfills(self.alloc, &self.mounts, &parts, load);
        }
        overfills(self.alloc, &self.mounts, &[parent], load)
    }

    // Whether a namespace has too many mounts once a mount is moved with all that is below it.
    fn has_too_many_moved(&self, mount: MountId, place: Location) -> Result<bool, AllocError>
        ensures ok { IfOk result (λ too_many. too_many
            ≡ overfills_of self.now (ToMove (mount_number mount) (location_of place))) }
    {
        if self.mounts.get(place.mount).is_none() {
            return Ok(false);
        }
        let parts = self.parts_at(place)?;
        let Some(moved) = self.mounts.get(mount) else {
            // No mount leaves then.
            let load = Load {
                count: 1,
                leaves: None,
            };
            return overfills(self.alloc, &self.mounts, &parts[1..], load);
        };
        let tree = self.mounts.tree(mount)?;
        let load = Load {
            count: tree.len(),
            leaves: moved.namespace,
        };
        overfills(self.alloc, &self.mounts, &parts, load)
    }
}
