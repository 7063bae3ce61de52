//! Tasks get namespaces of their own: unshare(2) with `CLONE_NEWNS`.
ghost use Rattle.std.specs.Prelude.{◌≡◌, OnErr, OnOk};
ghost use Rattle.vt_spec.specs.Machine.Permits.Permit.{ToUnshare};
ghost use Rattle.vt_mounting.specs.Detach.Events.{Becomes, Permits};
ghost use Rattle.vt_ns.specs.Counting.{CountsCopies};

use crate::world::World;
use std::alloc::AllocError;
use vt_location::NamespaceId;
use vt_mounting::attach::copying::{attach_copies, move_use, moved};
use vt_mounting::detach::ending::leave_namespace;
use vt_request::TaskName;
use vt_world::namespaces::Namespace;

impl World {
    /// Moves a task to a new namespace, with copies of the mounts of the one that it leaves, which ends with its last
    /// task. Its root and its working directory go along, and the copies of shared mounts are in their peer groups:
    /// unshare(2) with `CLONE_NEWNS`.
    ///
    /// It fails too where no number is left, or an inode or a filesystem would have more than 2^64 - 1 uses.
    pub fn unshare(&mut self, name: &TaskName) -> Result<(), AllocError>
        requires { Permits self.old name.now ToUnshare }
        ensures ok { OnOk result (Becomes self.old name.now ToUnshare self.new) }
        ensures counts { OnOk result (CountsCopies self.old name.now self.new) }
        ensures births { self.new.births ≡ self.old.births }
        ensures err { OnErr result (self.new ≡ self.old) }
    {
        let alloc = self.mounts.alloc();
        let task = self.tasks.get(name).unwrap();
        let (left, root, directory) = (task.namespace, task.root, task.directory);
        let taken = 2 * self.mounts.attached_in(left).len() as u64;
        let next = self.next;
        if next >= u64::MAX - 1 - taken || self.namespaces.reserve(1).is_err() {
            return Err(AllocError);
        }
        let mounts = &mut self.mounts;
        let groups = &mut self.groups;
        let store = &mut self.store;
        let new_root = moved(mounts, left, root, next);
        let new_directory = moved(mounts, left, directory, next);
        attach_copies(alloc, mounts, groups, store, left, next)?;
        move_use(mounts, root.mount, new_root.mount);
        move_use(mounts, directory.mount, new_directory.mount);
        let new = NamespaceId::new(next);
        // It cannot fail: room is reserved.
        let _ = self.namespaces.insert(new, Namespace { tasks: 1 });
        self.tasks
            .move_root_and_directory(name, new, new_root, new_directory);
        leave_namespace(mounts, groups, store, &mut self.namespaces, left);
        self.next += taken;
        Ok(())
    }
}
