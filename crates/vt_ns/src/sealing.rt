//! Whether tasks are sealed off from all others: mount_namespaces(7).
ghost use Rattle.std.specs.List.{list_any};
ghost use Rattle.std.specs.Prelude.{◌≡◌, ◌↔◌, false, nat_eq, IfErr, IfOk, IsOk};
ghost use Rattle.vt_spec.specs.declared.errors.Rule.TheVariants.{S2};
ghost use Rattle.vt_spec.specs.Errors.{denial};
ghost use Rattle.vt_spec.specs.Machine.Sealed.{no_such_task, sealed};
ghost use Rattle.vt_sealing.specs.Seen.{IsShown};
ghost use Rattle.vt_store.specs.StoreValue.{StandOnLayers};
ghost use Rattle.vt_world.specs.WorldValue.{world_of};

use crate::world::World;
use vt_request::TaskName;
use vt_sealing::Sealing;
use vt_spec::errors::Deny;

impl World {
    /// Whether the tasks of these names are sealed off from all others. A name that stands twice counts once. It does
    /// not allocate.
    ///
    /// S2 (ESRCH): there is no task of one of the names.
    pub fn sealed(&self, tasks: &[TaskName]) -> Result<bool, Deny>
        ensures ok { IfOk result (λ is_sealed. is_sealed ≡ sealed nat_eq (world_of self.now) tasks.now) }
        ensures err { IfErr result (λ deny. deny ≡ denial S2) }
        ensures there { IsOk result ↔ (list_any (no_such_task (world_of self.now)) tasks.now ≡ false) }
    {
        self.sealing(tasks).answer()
    }

    /// What is looked at to tell whether the tasks of these names are sealed off, and by whom they are not.
    pub fn sealing<'a>(&'a self, names: &'a [TaskName]) -> Sealing<'a>
        ensures names { result.names.now ≡ names.now }
        ensures shown { IsShown (world_of self.now) result }
        ensures standing { StandOnLayers result.store.now }
    {
        Sealing {
            names,
            tasks: &self.tasks,
            mounts: &self.mounts,
            groups: &self.groups,
            store: &self.store,
        }
    }
}
