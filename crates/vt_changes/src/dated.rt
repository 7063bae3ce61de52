//! `Dated`: a kernel with its change numbers.
ghost use Rattle.std.specs.Prelude.{[], ◌≡◌, ◌<◌, false, length, nat_eq, option_map, IfErr, IfOk, IsOk, OnOk, ℕ};
ghost use Rattle.indexmap.specs.IndexMap.{spare};
ghost use Rattle.vt_spec.specs.declared.errors.Rule.TheVariants.{S5};
ghost use Rattle.vt_spec.specs.Errors.{denial};
ghost use Rattle.vt_spec.specs.Language.Calls as spec;
ghost use Rattle.vt_spec.specs.Machine.Invariants.{IsWorld};
ghost use Rattle.vt_spec.specs.Machine.Policy.{only_looks};
ghost use Rattle.vt_spec.specs.Machine.Turns.{filesystem_change_of, namespace_change_of};
ghost use Rattle.vt_spec.specs.Machine.World.{task_called};
ghost use Rattle.vt_location.specs.Numbers.{filesystem_number, namespace_number};
ghost use Rattle.vt_request.specs.Requests.{call_of, directive_of};
ghost use Rattle.vt_answers.specs.Counters.{CountsFew, opening_counters};
ghost use Rattle.vt_answers.specs.Ends.{Directs};
ghost use Rattle.vt_answers.specs.Numbers.{IsOpened};
ghost use Rattle.vt_calls.specs.Counting.{CountsForTasks, kernel_counters};
ghost use Rattle.vt_calls.specs.Permitted.{IsPermitted};
ghost use Rattle.vt_world.specs.Held.{IsHeld};
ghost use Rattle.vt_world.specs.WorldValue.{world_of};
ghost use Rattle.vt_changes.specs.DatedValue.{dated_world};
ghost use Rattle.vt_changes.specs.Ends.{EndsDated, IsPermittedToChange};
ghost use Rattle.vt_changes.specs.SeenMounts.{mounts_kept, mounts_seen};

use crate::changed::changed_by;
use crate::mounts::{Seen, mounts_of};
use crate::numbers::number_of;
use crate::raising::{follow_filesystems, follow_namespaces, follow_task};
use indexmap::IndexMap;
use std::alloc::{AllocError, Global};
use std::marker::Model;
use vt_calls::{Calls, Kernel};
use vt_location::{FilesystemId, NamespaceId};
use vt_ns::World;
use vt_policy::Permit;
use vt_request::{Answer, Call, Directive, TaskName};
use vt_spec::errors::{Deny, Rule};

/// A world that answers calls, with the change numbers of its tasks, namespaces and filesystems, and its own.
///
/// A call that succeeds and does not only look raises the world's number and the caller's, those of the filesystems that
/// it changes, and that of each namespace in which a mount came, went, moved, or has other flags, type, group or master.
///
/// It is not `Drop`, since the drop of a world would be proved again: `end` frees it.
pub struct Dated {
    kernel: Kernel,
    tasks: IndexMap<Vec<u8>, u64>,
    namespaces: IndexMap<NamespaceId, u64>,
    filesystems: IndexMap<FilesystemId, u64>,
}

impl Model for Dated {
    ghost use Rattle.vt_laws_turns.specs.Dated.{AreOfTheLiving};
    ghost use Rattle.vt_calls.specs.KernelValue.{kernel_world};
    ghost use Rattle.vt_changes.specs.DatedValue.{DatedValue};
    ghost use Rattle.vt_changes.specs.Kept.{dates_kept, named_entries, numbered_entries};
    ghost use Rattle.vt_location.specs.Numbers.{filesystem_number, namespace_number};

    ghost Value = { DatedValue };

    ghost view = { λ d. record {
      kernel = d.kernel;
      tasks = named_entries d.tasks.entries;
      namespaces = numbered_entries namespace_number d.namespaces.entries;
      filesystems = numbered_entries filesystem_number d.filesystems.entries;
    } };

    ghost invariant = { λ d. AreOfTheLiving
        (dates_kept (named_entries d.tasks.entries) (numbered_entries namespace_number d.namespaces.entries)
        (numbered_entries filesystem_number d.filesystems.entries)) (kernel_world d.kernel) };
}

impl Dated {
    /// The world before the first call, with all change numbers 0.
    ///
    /// S5 (ENOMEM): an allocation failed.
    pub fn opening(alloc: Global) -> Result<Dated, Deny>
        ensures opened { IfOk result (λ opened. IsOpened (dated_world opened)) }
        ensures counts { IfOk result (λ opened. kernel_counters opened.kernel ≡ opening_counters) }
        ensures memory { IfErr result (λ deny. deny ≡ denial S5) }
    {
        let kernel = Kernel::opening(alloc)?;
        Ok(Dated::new(kernel))
    }

    /// A kernel's world. It keeps its own change number, and its tasks, namespaces and filesystems have 0. It does not
    /// allocate.
    pub fn new(kernel: Kernel) -> Dated
        ensures { result ≡ record { kernel = kernel; tasks = []; namespaces = []; filesystems = [] } }
    {
        let alloc = kernel.world().alloc();
        Dated {
            kernel,
            tasks: IndexMap::new(alloc),
            namespaces: IndexMap::new(alloc),
            filesystems: IndexMap::new(alloc),
        }
    }

    /// The world as it is now, to look at.
    pub fn world(&self) -> &World
        ensures { result.now ≡ self.now.kernel.world }
    {
        self.kernel.world()
    }

    /// Does a call of a task, or refuses it by the first rule that fails and changes nothing.
    ///
    /// S2 (ESRCH): there is no such task. S5 (ENOMEM): an allocation failed, or a count of uses is full. The other
    /// rules are those of the call, in its order.
    pub fn call(&mut self, name: &TaskName, call: Call<'_>) -> Result<Answer, Deny>
        ensures ends { EndsDated self.old name.now (call_of call.entry) result self.new }
        ensures in_world { IsWorld nat_eq (dated_world self.new) }
        ensures counts { CountsFew (kernel_counters self.old.kernel) (kernel_counters self.new.kernel) }
    {
        if self.kernel.world().task(name).is_none() {
            return Err(Rule::S2.denial());
        }
        if call.only_looks() {
            return self.kernel.call(name, call);
        }
        let permit = self.kernel.permit(name, call)?;
        self.spend(name, permit)
    }

    // Spends a permit of a task's call that does not only look, and raises numbers. S5 (ENOMEM): an allocation failed, or
    // a count of uses is full; nothing has changed.
    fn spend(&mut self, name: &TaskName, permit: Permit) -> Result<Answer, Deny>
        requires { IsPermittedToChange self.old name.now permit }
        ensures ends { (call : spec.Call) → only_looks call ≡ false
            → IsPermitted self.old.kernel.world self.old.kernel.change name.now call permit
            → EndsDated self.old name.now call result self.new }
        ensures in_world { IsWorld nat_eq (dated_world self.new) }
        ensures counts { CountsForTasks self.old.kernel.world self.new.kernel.world }
    {
        let world = self.kernel.world();
        let changed = changed_by(world, permit.grant());
        let room = reserve(
            &mut self.tasks,
            &mut self.namespaces,
            &mut self.filesystems,
            world,
        );
        let Ok((key, before)) = prepared(world, name, room) else {
            self.kernel.give_up(permit);
            return Err(Rule::S5.denial());
        };
        match self.kernel.spend(name, permit) {
            Ok(answer) => {
                let world = self.kernel.world();
                follow_task(&mut self.tasks, world, name, key);
                follow_filesystems(&mut self.filesystems, world, changed);
                follow_namespaces(&mut self.namespaces, world, &before);
                Ok(answer)
            }
            Err(deny) => Err(deny),
        }
    }

    /// What a directive tells. It is nobody's call, and changes nothing.
    ///
    /// S2 (ESRCH): it names a task that does not exist. S5 (ENOMEM): an allocation failed; a list alone takes memory.
    pub fn direct(&self, directive: &Directive) -> Result<Answer, Deny>
        ensures { Directs (dated_world self.now) (directive_of directive.now) result }
    {
        self.kernel.direct(directive)
    }

    /// The change number of a task, if it exists.
    pub fn change_of_task(&self, name: &TaskName) -> Option<u64>
        ensures { result ≡ option_map (λ task. task.change) (task_called (dated_world self.now) name.now) }
    {
        let _task = self.kernel.world().task(name)?;
        Some(number_of(&self.tasks, name.numbers()))
    }

    /// The change number of a namespace; where there is none, the largest one.
    pub fn change_of_namespace(&self, namespace: NamespaceId) -> u64
        ensures { result ≡ namespace_change_of nat_eq (dated_world self.now) (namespace_number namespace) }
    {
        if !self.kernel.world().has_namespace(namespace) {
            return u64::MAX;
        }
        number_of(&self.namespaces, &namespace)
    }

    /// The change number of a filesystem; where there is none, the largest one.
    pub fn change_of_filesystem(&self, filesystem: FilesystemId) -> u64
        ensures { result ≡ filesystem_change_of nat_eq (dated_world self.now) (filesystem_number filesystem) }
    {
        if !self.kernel.world().has_filesystem(filesystem) {
            return u64::MAX;
        }
        number_of(&self.filesystems, &filesystem)
    }

    /// Frees the world and the numbers.
    pub fn end(self) {
        let Dated {
            kernel,
            tasks: _tasks,
            namespaces: _namespaces,
            filesystems: _filesystems,
        } = self;
        kernel.end();
    }
}

// Makes room for the numbers that a call may raise: the caller's, a filesystem's, and those of all namespaces and of a
// new one.
fn reserve(
    tasks: &mut IndexMap<Vec<u8>, u64>,
    namespaces: &mut IndexMap<NamespaceId, u64>,
    filesystems: &mut IndexMap<FilesystemId, u64>,
    world: &World,
) -> Result<(), AllocError>
    ensures tasks { tasks.new.entries ≡ tasks.old.entries }
    ensures namespaces { namespaces.new.entries ≡ namespaces.old.entries }
    ensures filesystems { filesystems.new.entries ≡ filesystems.old.entries }
    ensures task_room { OnOk result (0 < spare tasks.new) }
    ensures namespace_room { OnOk result (length (world_of world.now).namespaces < spare namespaces.new) }
    ensures filesystem_room { OnOk result (0 < spare filesystems.new) }
{
    tasks.reserve(1)?;
    namespaces.reserve(world.namespaces().len() + 1)?;
    filesystems.reserve(1)
}

// The name of a task as numbers are kept under it, and the mounts of all namespaces, if there is room.
fn prepared(
    world: &World,
    name: &TaskName,
    room: Result<(), AllocError>,
) -> Result<(Vec<u8>, IndexMap<NamespaceId, Vec<Seen>>), AllocError>
    requires { IsHeld world.now }
    ensures room { OnOk result (IsOk room) }
    ensures key { IfOk result (λ made. made.0.items ≡ name.now) }
    ensures mounts { IfOk result (λ made. (number : ℕ)
        → mounts_kept made.1.entries number ≡ mounts_seen (world_of world.now) number) }
{
    room?;
    let alloc = world.alloc();
    let key = Vec::from_slice(alloc, name.numbers())?;
    let before = mounts_of(alloc, world)?;
    Ok((key, before))
}
