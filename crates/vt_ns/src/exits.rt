//! Tasks end: _exit(2).
ghost use Rattle.std.specs.Prelude.{◌≡◌, fold, true};
ghost use Rattle.std.specs.List.{list_all};
ghost use Rattle.vt_spec.specs.Machine.Permits.Permit.{ToExit};
ghost use Rattle.vt_mounting.specs.Detach.Events.{Becomes, Permits};
ghost use Rattle.vt_mounting.specs.Detach.NamespacesLeft.{is_small_file, without_file};
ghost use Rattle.vt_mounting.specs.Detach.Stored.{CountNoUses, OverlaysLeft, kept};
ghost use Rattle.vt_ns.specs.Counting.{CountsNothing};

use crate::world::World;
use vt_mount::Mounts;
use vt_mounting::detach::ending::leave_namespace;
use vt_mounting::detach::uses::leave;
use vt_request::TaskName;
use vt_store::Store;
use vt_tasks::OpenFile;

impl World {
    /// Ends a task, which leaves its root, its working directory, its open files and its namespace: _exit(2). It does
    /// not allocate.
    pub fn exit(&mut self, name: &TaskName)
        requires { Permits self.old name.now ToExit }
        ensures ok { Becomes self.old name.now ToExit self.new }
        ensures counts { CountsNothing self.old self.new }
    {
        let Some(task) = self.tasks.exit(name) else {
            return;
        };
        let mounts = &mut self.mounts;
        let store = &mut self.store;
        leave(mounts, store, task.root, false);
        leave(mounts, store, task.directory, false);
        leave_files(mounts, store, task.descriptors.files());
        let groups = &mut self.groups;
        leave_namespace(mounts, groups, store, &mut self.namespaces, task.namespace);
    }
}

// One use less for each of these open files.
fn leave_files(mounts: &mut Mounts, store: &mut Store, files: &[OpenFile])
    requires { CountNoUses store.old }
    ensures left { kept mounts.new store.new ≡ fold without_file (kept mounts.old store.old) files.now }
    ensures overlays { OverlaysLeft store.old.overlays store.new.overlays }
    ensures still { CountNoUses store.new }
    ensures slots { list_all is_small_file files.now ≡ true }
{
    for file in files {
        leave(mounts, store, file.location, file.access.writes());
    }
}
