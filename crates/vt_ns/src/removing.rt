//! The event that removes a directory: rmdir(2).
ghost use Rattle.std.specs.Prelude.{◌≡◌, IfOk, OnErr, OnOk, filter, flat_map, map};
ghost use Rattle.vt_location.specs.Locations.{number_of};
ghost use Rattle.vt_location.specs.Numbers.{mount_number};
ghost use Rattle.vt_mount.specs.MountsValue.{mounts_in, stands_over};
ghost use Rattle.vt_permits.specs.GrantValue.{remove_permit};
ghost use Rattle.vt_permits.specs.declared.grant.RemoveGrant.TheVariants.{Directory};
ghost use Rattle.vt_mounting.specs.Detach.Detached.{tree_numbers};
ghost use Rattle.vt_mounting.specs.Detach.Events.{Becomes, Permits};
ghost use Rattle.vt_ns.specs.Counting.{CountsNothing};

use crate::world::World;
use std::alloc::{AllocError, Global};
use vt_location::{MountId, NodeRef};
use vt_mount::Mounts;
use vt_mounting::detach::detaching::detach_together;
use vt_permits::ToRemoveDirectory;
use vt_request::TaskName;

impl World {
    /// Removes an empty directory: rmdir(2). Mounts on it are detached with all their descendants. It is freed with
    /// its last use.
    pub fn remove_directory(
        &mut self,
        name: &TaskName,
        removed: ToRemoveDirectory,
    ) -> Result<(), AllocError>
        requires { Permits self.old name.now (remove_permit (Directory removed)) }
        ensures ok { OnOk result (Becomes self.old name.now (remove_permit (Directory removed)) self.new) }
        ensures counts { OnOk result (CountsNothing self.old self.new) }
        ensures err { OnErr result (self.new ≡ self.old) }
    {
        let directory = removed.directory.node;
        let gone = trees_on(&self.mounts, directory, self.alloc)?;
        self.store
            .plain_mut()
            .unlink(removed.parent.node, removed.name.as_slice(), directory);
        if !gone.is_empty() {
            detach_together(&mut self.mounts, &mut self.groups, &mut self.store, &gone);
        }
        Ok(())
    }
}

// The mounts on an inode, through whatever mount it is seen, with all their descendants.
pub(crate) fn trees_on(
    mounts: &Mounts,
    inode: NodeRef,
    alloc: Global,
) -> Result<Vec<MountId>, AllocError>
    ensures ok { IfOk result (λ ids. map mount_number ids.items
        ≡ flat_map (tree_numbers (mounts_in mounts.now))
        (map (λ mount. mount.number) (filter (stands_over (number_of inode)) (mounts_in mounts.now)))) }
{
    let mut all = Vec::new(alloc);
    for id in mounts.mounts_on(inode)?.as_slice() {
        let tree = mounts.tree(*id)?;
        all.extend_from_slice(&tree)?;
    }
    Ok(all)
}
