//! The world that calls are made in.

use indexmap::IndexMap;
use std::alloc::Global;
use std::marker::Model;
use vt_group::Groups;
use vt_location::NamespaceId;
use vt_mount::Mounts;
use vt_store::Store;
use vt_tasks::Tasks;
use vt_world::namespaces::Namespace;

/// Filesystems, mounts and their peer groups, namespaces and tasks.
#[derive(Debug, Drop)]
pub struct World {
    pub(crate) mounts: Mounts,
    pub(crate) groups: Groups,
    pub(crate) store: Store,
    pub(crate) namespaces: IndexMap<NamespaceId, Namespace>,
    pub(crate) tasks: Tasks,
    // What is counted next.
    pub(crate) next: u64,
    pub(crate) alloc: Global,
}

impl Model for World {
    ghost use Rattle.vt_world.specs.WorldValue.{WorldValue, entries_of};
    ghost use Rattle.vt_world.specs.Held.{IsHeld};
    ghost use Rattle.vt_world.specs.StoredWorld.{overlays_of_store};

    ghost Value = { WorldValue };

    ghost view = { λ w. record {
      mounts = w.mounts;
      groups = w.groups;
      filesystems = w.store.plain;
      overlays = overlays_of_store w.store;
      namespaces = entries_of w.namespaces.entries;
      tasks = w.tasks.tasks;
      births = w.tasks.births;
      next = w.next;
    } };

    ghost invariant = { λ w. IsHeld (record {
      mounts = w.mounts;
      groups = w.groups;
      filesystems = w.store.plain;
      overlays = overlays_of_store w.store;
      namespaces = entries_of w.namespaces.entries;
      tasks = w.tasks.tasks;
      births = w.tasks.births;
      next = w.next;
    }) };
}

impl World {
    /// The allocator of all that it has.
    #[inline(always)]
    pub fn alloc(&self) -> Global {
        self.alloc
    }
}
