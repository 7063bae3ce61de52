//! The event that renames: rename(2).
ghost use Rattle.std.specs.Prelude.{◌≡◌, IfOk, IfSome, OnErr, OnOk, map, true};
ghost use Rattle.vt_location.specs.Locations.{is_small_node};
ghost use Rattle.vt_location.specs.Numbers.{mount_number};
ghost use Rattle.vt_mount.specs.MountsValue.{mounts_in};
ghost use Rattle.vt_permits.specs.GrantValue.{rename_permit};
ghost use Rattle.vt_mounting.specs.Detach.Detached.{trees_of_replaced};
ghost use Rattle.vt_mounting.specs.Detach.Events.{Becomes, Permits};
ghost use Rattle.vt_ns.specs.Counting.{CountsNothing};

use crate::removing::trees_on;
use crate::world::World;
use std::alloc::{AllocError, Global};
use vt_location::{Location, MountId};
use vt_mount::Mounts;
use vt_mounting::detach::detaching::detach_together;
use vt_permits::ToRename;
use vt_request::TaskName;

impl World {
    /// Renames an inode, and replaces what had the new name: rename(2). Mounts on what is replaced are detached with
    /// all their descendants.
    pub fn rename(&mut self, name: &TaskName, renamed: ToRename) -> Result<(), AllocError>
        requires { Permits self.old name.now (rename_permit renamed) }
        ensures ok { OnOk result (Becomes self.old name.now (rename_permit renamed) self.new) }
        ensures counts { OnOk result (CountsNothing self.old self.new) }
        ensures err { OnErr result (self.new ≡ self.old) }
    {
        let ToRename {
            from,
            old,
            to,
            new,
            object,
            replaced,
        } = renamed;
        let gone = trees_replaced(&self.mounts, replaced, self.alloc)?;
        self.store
            .plain_mut()
            .rename(from.node, old.as_slice(), to.node, new, object.node)?;
        if !gone.is_empty() {
            detach_together(&mut self.mounts, &mut self.groups, &mut self.store, &gone);
        }
        Ok(())
    }
}

// The mounts on what is replaced, with all their descendants.
fn trees_replaced(
    mounts: &Mounts,
    replaced: Option<Location>,
    alloc: Global,
) -> Result<Vec<MountId>, AllocError>
    ensures ok { IfOk result (λ ids. map mount_number ids.items
        ≡ trees_of_replaced (mounts_in mounts.now) replaced) }
    ensures small { IfSome replaced (λ other. is_small_node other.node ≡ true) }
{
    match replaced {
        Some(other) => trees_on(mounts, other.node, alloc),
        None => Ok(Vec::new(alloc)),
    }
}
