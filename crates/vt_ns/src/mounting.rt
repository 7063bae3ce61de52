//! The event that mounts a new filesystem: mount(2).
ghost use Rattle.std.specs.List.{list_all};
ghost use Rattle.std.specs.Prelude.{◌≡◌, ◌+◌, ◌*◌, ◌++◌, ◌∷◌, [], length, nat_eq, nat_lt, true, OnErr, OnOk};
ghost use Rattle.vt_fs.specs.FilesystemsValue.{FilesystemEntry, IsNew};
ghost use Rattle.vt_cred.specs.MountFlags.{flags_of};
ghost use Rattle.vt_location.specs.Locations.{location_of};
ghost use Rattle.vt_location.specs.MountValue.{mount_of};
ghost use Rattle.vt_location.specs.Numbers.{inode_number, filesystem_number};
ghost use Rattle.vt_propagate.specs.Copying.{HasRoomFor};
ghost use Rattle.vt_spec.specs.Machine.Attach.{parts_of};
ghost use Rattle.vt_spec.specs.Machine.Permits.Permit.{ToMountPlain};
ghost use Rattle.vt_spec.specs.Machine.NewMounts.{new_mount};
ghost use Rattle.vt_spec.specs.Machine.World as meant;
ghost use Rattle.vt_mounting.specs.Detach.Events.{Becomes};
ghost use Rattle.vt_mounting.specs.Detach.Stored.{CountNoUses, OverlaysStay, kept};
ghost use Rattle.vt_world.specs.WorldValue.{world_of};
ghost use Rattle.vt_mounting.specs.Attach.Grafted.{IsGrafted, MayGraft};
ghost use Rattle.vt_ns.specs.Grants.{Grants};
ghost use Rattle.vt_ns.specs.Vacancy.{NextRootIsVacant};

use crate::grafting::numbers_taken;
use crate::world::World;
use std::alloc::{AllocError, Global};
use vt_cred::MountFlags;
use vt_group::Groups;
use vt_location::{Birth, FilesystemId, Location, Mount, MountId, NodeRef, Propagation};
use vt_mount::Mounts;
use vt_mounting::attach::grafted::attach_graft;
use vt_node::{Attr, Mode};
use vt_propagate::{Counts, Graft, parts};
use vt_request::TaskName;
use vt_store::Store;

// The mode of the root directory of a new filesystem.
const ROOT_MODE: u16 = 0o755;

impl World {
    /// Mounts a new filesystem, which is one empty directory: mount(2) of a tmpfs. Each receiver of the destination's
    /// mount gets a mount of it too.
    ///
    /// It fails too where no number is left, or an inode would have more than 2^64 - 1 uses.
    pub fn mount_plain(
        &mut self,
        name: &TaskName,
        place: Location,
        flags: MountFlags,
    ) -> Result<(), AllocError>
        requires { Grants self.old name.now (ToMountPlain (location_of place) (flags_of flags)) }
        ensures vacant { OnOk result (NextRootIsVacant self.old) }
        ensures ok { OnOk result (Becomes self.old name.now
            (ToMountPlain (location_of place) (flags_of flags)) self.new) }
        ensures counts { OnOk result (self.new.next
            ≡ self.old.next + 4 * length (parts_of nat_eq (world_of self.old) (location_of place))) }
        ensures births { self.new.births ≡ self.old.births }
        ensures err { OnErr result (self.new ≡ self.old) }
    {
        let alloc = self.mounts.alloc();
        if self.next == u64::MAX {
            return Err(AllocError);
        }
        let parts = parts(&self.mounts, &self.groups, &*self, place)?;
        // Two numbers for the filesystem and its root come between those of the copies.
        let Some(taken) = numbers_taken(parts.len(), 2, u64::MAX - 1 - self.next) else {
            return Err(AllocError);
        };
        let filesystem = FilesystemId { count: self.next };
        let tree = [mount_of_new(filesystem, flags)];
        let graft = Graft {
            parts: &parts,
            tree: &tree,
            place,
            moves: false,
        };
        let counts = Counts {
            first: self.next + 1,
            step: 2,
        };
        mount_new(
            alloc,
            &mut self.mounts,
            &mut self.groups,
            &mut self.store,
            filesystem,
            &graft,
            counts,
        )?;
        self.next += taken;
        Ok(())
    }
}

// The mount of a new filesystem that is copied to its destination. It has the number of the filesystem.
fn mount_of_new(filesystem: FilesystemId, flags: MountFlags) -> Mount
    ensures { mount_of result ≡ new_mount (filesystem_number filesystem) (inode_number filesystem.count 0)
        (flags_of flags) }
{
    Mount {
        number: MountId {
            count: filesystem.count,
        },
        namespace: None,
        mount_point: None,
        root: NodeRef {
            filesystem,
            slot: 0,
            birth: Birth::Here,
        },
        flags,
        propagation: Propagation::Private,
    }
}

// Makes a filesystem, which is one empty directory, with copies of a mount of it; or nothing.
fn mount_new(
    alloc: Global,
    mounts: &mut Mounts,
    groups: &mut Groups,
    store: &mut Store,
    filesystem: FilesystemId,
    graft: &Graft,
    counts: Counts,
) -> Result<(), AllocError>
    requires above { list_all (λ entry. nat_lt entry.count filesystem.count) store.old.plain ≡ true }
    requires above_overlays { list_all (λ entry. nat_lt entry.count filesystem.count) store.old.overlays ≡ true }
    requires none { CountNoUses store.old }
    requires room { HasRoomFor graft.now counts }
    requires may { MayGraft mounts.old groups.old graft.now counts }
    ensures ok { OnOk result ((entry : FilesystemEntry) × IsNew filesystem.count meant.root_attr entry
        × IsGrafted graft.now counts (kept mounts.old (record store.old { plain = store.old.plain ++ entry ∷ [] })) groups.old
        (kept mounts.new store.new) groups.new) }
    ensures overlays { OnOk result (OverlaysStay store.old.overlays store.new.overlays) }
    ensures err_mounts { OnErr result (mounts.new ≡ mounts.old) }
    ensures err_groups { OnErr result (groups.new ≡ groups.old) }
    ensures err_store { OnErr result (store.new ≡ store.old) }
{
    store.plain_mut().add(filesystem, root_attr())?;
    if let Err(refused) = attach_graft(alloc, mounts, groups, store, graft, counts) {
        store.plain_mut().remove(filesystem);
        return Err(refused);
    }
    Ok(())
}

// The attributes of the root directory of a new filesystem.
pub(crate) fn root_attr() -> Attr
    ensures { result ≡ meant.root_attr }
{
    Attr {
        uid: 0,
        gid: 0,
        mode: Mode::new(ROOT_MODE).unwrap(),
    }
}
