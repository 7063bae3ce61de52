//! The event that mounts an overlay: mount(2) of overlayfs.
ghost use Rattle.std.specs.Prelude.{◌≡◌, ◌+◌, ◌*◌, ◌||◌, All, IfOk, None, is_some, length, map, nat_eq, OnErr, OnOk};
ghost use Rattle.vt_cred.specs.MountFlags.{flags_of};
ghost use Rattle.vt_mounting.specs.Detach.Events.{layer_kept};
ghost use Rattle.vt_location.specs.Locations.{location_of};
ghost use Rattle.vt_location.specs.MountValue.{mount_of};
ghost use Rattle.vt_location.specs.Numbers.{inode_number, filesystem_number};
ghost use Rattle.vt_permits.specs.GrantValue.{layer_of};
ghost use Rattle.vt_spec.specs.Machine.Attach.{parts_of};
ghost use Rattle.vt_spec.specs.Machine.NewMounts.{new_mount};
ghost use Rattle.vt_world.specs.WorldValue.{world_of};
ghost use Rattle.vt_ns.specs.Grants.{GrantsOverlay};
ghost use Rattle.vt_ns.specs.OverlayMounts.{IsPlainLayer, MountsOverlay};
ghost use Rattle.vt_ns.specs.Vacancy.{NextFilesystemIsNew};

use crate::grafting::numbers_taken;
use crate::world::World;
use std::alloc::{AllocError, Global};
use vt_cred::MountFlags;
use vt_location::{Birth, FilesystemId, InodeRef, Mount, MountId, NodeRef, Propagation};
use vt_mounting::attach::overlaid::{NewOverlay, attach_overlay};
use vt_overlay::LayerRef;
use vt_permits::{NewLayer, ToMountOverlay};
use vt_propagate::{Counts, Graft, parts};
use vt_request::TaskName;

impl World {
    /// Mounts a new overlay of these lower layers, the highest first, with the caller as its mounter: mount(2) of
    /// overlayfs. Each receiver of the destination's mount gets a mount of it too.
    ///
    /// It fails too where no number is left, or an inode or a filesystem would have more than 2^64 - 1 uses, and where the
    /// overlay has an upper layer, which no overlay of a world has yet (`no_upper`). Each mount that it makes takes as many
    /// numbers as a tree of two mounts: those of the filesystem and its root lie between.
    pub fn mount_overlay(&mut self, name: &TaskName, new: ToMountOverlay) -> Result<(), AllocError>
        requires { GrantsOverlay self.old name.now new }
        ensures vacant { OnOk result (NextFilesystemIsNew self.old) }
        ensures ok { OnOk result (MountsOverlay self.old name.now new self.new) }
        ensures counts { OnOk result (self.new.next
            ≡ self.old.next + 4 * length (parts_of nat_eq (world_of self.old) (location_of new.destination))) }
        ensures births { self.new.births ≡ self.old.births }
        ensures no_upper { OnOk result ((new.upper ≡ None) × (new.work ≡ None)) }
        ensures err { OnErr result (self.new ≡ self.old) }
    {
        let alloc = self.mounts.alloc();
        if self.next == u64::MAX || has_upper(&new) {
            return Err(AllocError);
        }
        let place = new.destination;
        let lowers = layers_kept(alloc, new.lowers.as_slice())?;
        let top = lowers.as_slice().first().unwrap().directory.slot;
        let mounter = self.tasks.get(name).unwrap().cred.clone()?;
        let parts = parts(&self.mounts, &self.groups, &*self, place)?;
        // Two numbers for the filesystem and its root come between those of the copies.
        let Some(taken) = numbers_taken(parts.len(), 2, u64::MAX - 1 - self.next) else {
            return Err(AllocError);
        };
        let filesystem = FilesystemId { count: self.next };
        let tree = [mount_of_overlay(filesystem, top, new.flags)];
        let graft = Graft {
            parts: &parts,
            tree: &tree,
            place,
            moves: false,
        };
        let overlay = NewOverlay {
            filesystem,
            lowers,
            mounter,
            counts: Counts {
                first: self.next + 1,
                step: 2,
            },
        };
        attach_overlay(
            &mut self.mounts,
            &mut self.groups,
            &mut self.store,
            overlay,
            &graft,
        )?;
        self.next += taken;
        Ok(())
    }
}

// Whether a new overlay has an upper or a work directory.
fn has_upper(new: &ToMountOverlay) -> bool
    ensures { result ≡ (is_some new.now.upper || is_some new.now.work) }
{
    new.upper.is_some() || new.work.is_some()
}

// The mount of a new overlay that is copied to its destination. It has the number of the overlay, and its root is the
// directory of the highest layer.
fn mount_of_overlay(filesystem: FilesystemId, top: usize, flags: MountFlags) -> Mount
    ensures { mount_of result ≡ new_mount (filesystem_number filesystem) (inode_number filesystem.count top)
        (flags_of flags) }
{
    Mount {
        number: MountId {
            count: filesystem.count,
        },
        namespace: None,
        mount_point: None,
        root: NodeRef {
            filesystem,
            slot: top,
            birth: Birth::Here,
        },
        flags,
        propagation: Propagation::Private,
    }
}

// The layers of a grant, as they are kept.
fn layers_kept(alloc: Global, lowers: &[NewLayer]) -> Result<Vec<LayerRef>, AllocError>
    requires { All IsPlainLayer lowers.now }
    ensures ok { IfOk result (λ kept. kept.items ≡ map (λ lower. layer_kept (layer_of lower)) lowers.now) }
{
    let mut kept = Vec::with_capacity(alloc, lowers.len())?;
    for lower in lowers {
        kept.push(kept_layer(*lower))?;
    }
    Ok(kept)
}

// A layer of a grant, as it is kept.
fn kept_layer(lower: NewLayer) -> LayerRef
    requires { IsPlainLayer lower }
    ensures { result ≡ layer_kept (layer_of lower) }
{
    LayerRef {
        directory: InodeRef {
            filesystem: lower.filesystem,
            slot: lower.directory.slot,
        },
    }
}
