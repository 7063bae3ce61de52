//! A task that forks: fork(2).
ghost use Rattle.std.specs.Prelude.{◌<◌, ◌↔◌, ◌≡◌, IfOk, IfSome, OnErr, OnOk, Some, false, find, nat_eq, option_map, true};
ghost use Rattle.vt_location.specs.Locations.{is_small_node};
ghost use Rattle.vt_spec.specs.Machine.Tasks.{child_name};
ghost use Rattle.vt_spec.specs.Machine.Permits.Permit.{ToFork};
ghost use Rattle.vt_spec.specs.Machine.World.{task_called};
ghost use Rattle.vt_mounting.specs.Detach.Events.{Becomes, Permits};
ghost use Rattle.vt_mounting.specs.Detach.Forking.{HasRoom, with_task_more};
ghost use Rattle.vt_mounting.specs.Detach.Stored.{CountNoUses, kept};
ghost use Rattle.vt_mounting.specs.Detach.Uses.{with_location};
ghost use Rattle.vt_world.specs.WorldValue.{entries_of, world_of};
ghost use Rattle.vt_ns.specs.Counting.{CountsATask};

use crate::world::World;
use indexmap::IndexMap;
use std::alloc::AllocError;
use vt_cred::Cred;
use vt_location::{Location, NamespaceId};
use vt_mount::Mounts;
use vt_mounting::detach::uses::hold;
use vt_request::TaskName;
use vt_store::Store;
use vt_world::namespaces::Namespace;

impl World {
    /// Forks a task, and returns the name of its child: fork(2). The child has these credentials.
    ///
    /// It fails too where the task's root, working directory or namespace has 2^64 - 2 uses.
    pub fn fork(&mut self, name: &TaskName, cred: Cred) -> Result<TaskName, AllocError>
        requires { Permits self.old name.now (ToFork cred) }
        ensures name { IfOk result (λ child. Some child
            ≡ option_map child_name (task_called (world_of self.old) name.now)) }
        ensures ok { OnOk result (Becomes self.old name.now (ToFork cred) self.new) }
        ensures counts { OnOk result (CountsATask self.old self.new) }
        ensures err { OnErr result (self.new ≡ self.old) }
    {
        let parent = self.tasks.get(name).unwrap();
        let (namespace, root, directory) = (parent.namespace, parent.root, parent.directory);
        if !has_room(2, &self.mounts, &self.store, root)
            || !has_room(2, &self.mounts, &self.store, directory)
            || !has_room_for_task(&self.namespaces, namespace)
        {
            return Err(AllocError);
        }
        let child = self.tasks.fork(name, cred)?;
        hold_once_more(&mut self.mounts, &mut self.store, root, false);
        hold_once_more(&mut self.mounts, &mut self.store, directory, false);
        count_task(&mut self.namespaces, namespace);
        Ok(child)
    }
}

// Whether so many more uses of a location may be counted.
pub(crate) fn has_room(more: u64, mounts: &Mounts, store: &Store, at: Location) -> bool
    requires { CountNoUses store.now }
    ensures { (result ≡ true) ↔ HasRoom more at mounts.now store.now.plain }
{
    mounts.uses(at.mount) <= u64::MAX - more
        && mounts.writers(at.mount) < u64::MAX
        && store.uses(at.node) <= u64::MAX - more
}

// One use more of a location, for which there is room. It does not allocate.
pub(crate) fn hold_once_more(mounts: &mut Mounts, store: &mut Store, at: Location, writes: bool)
    requires room { HasRoom 1 at mounts.old store.old.plain }
    requires none { CountNoUses store.old }
    ensures held { kept mounts.new store.new ≡ with_location at writes (kept mounts.old store.old) }
    ensures overlays { store.new.overlays ≡ store.old.overlays }
    ensures still { CountNoUses store.new }
    ensures slot { is_small_node at.node ≡ true }
{
    // It cannot fail: there is room.
    let _ = hold(mounts, store, at, writes);
}

// Whether one more task may be counted in a namespace.
pub(crate) fn has_room_for_task(
    namespaces: &IndexMap<NamespaceId, Namespace>,
    id: NamespaceId,
) -> bool
    ensures { (result ≡ true) ↔ IfSome (find (λ entry. nat_eq id.count entry.count) (entries_of namespaces.now.entries))
        (λ entry. entry.tasks < u64.MAX) }
{
    match namespaces.get(&id) {
        Some(namespace) => namespace.tasks < u64::MAX,
        None => true,
    }
}

// One task more in a namespace. It does not allocate.
pub(crate) fn count_task(namespaces: &mut IndexMap<NamespaceId, Namespace>, id: NamespaceId)
    requires { IfSome (find (λ entry. nat_eq id.count entry.count) (entries_of namespaces.old.entries))
        (λ entry. entry.tasks < u64.MAX) }
    ensures { entries_of namespaces.new.entries ≡ with_task_more id.count (entries_of namespaces.old.entries) }
{
    if let Some(namespace) = namespaces.get_mut(&id) {
        namespace.tasks += 1;
    }
}
