//! All tasks, by their names.
ghost use Rattle.std.specs.Prelude.{◌+◌, ◌<◌, ◌≡◌, ◌≤◌, ◌⊎◌, [], ◌∷◌, Err, Ok, length, map, nat_eq, true, Some, IfOk, IfErr, IsPermutation, OnOk, OnErr, option_map, option_copied};
ghost use Rattle.std.specs.Fn.{FnOnceReturnsAtMut, FnOnceTakesAtMut};
ghost use Rattle.std.specs.Cmp.Lexicographic.{pointwise};
ghost use Rattle.std.specs.List.{list_all};
ghost use Rattle.std.specs.Map.{lookup};
ghost use Rattle.std.specs.Option.{option_and_then};
ghost use Rattle.vt_spec.specs.Machine.Namespaces.{entered_at, pivoted_task};
ghost use Rattle.vt_spec.specs.Machine.Descriptors.{free_number, without_descriptor};
ghost use Rattle.vt_spec.specs.Machine.Tasks.{child_name, with_dropped};
ghost use Rattle.vt_spec.specs.Machine.Rules.Descriptors.{descriptor_numbered};
ghost use Rattle.vt_cred.specs.Caps.{capability_bits};
ghost use Rattle.vt_location.specs.Locations.{location_of};
ghost use Rattle.vt_location.specs.MountValue.{mount_of};
ghost use Rattle.vt_location.specs.Numbers.{namespace_number};
ghost use Rattle.vt_tasks.specs.Counts.{all_places_at};
ghost use Rattle.vt_tasks.specs.Open.{numbered};
ghost use Rattle.vt_tasks.specs.TaskValue.{task_of};
ghost use Rattle.vt_tasks.specs.TasksValue.{MayFork, MayOpenMore, born_in_order, called, changed_called, first_task_at, forked, has_files_in_order, left_by, left_of, with_open, without_called};

use crate::descriptors::OpenFile;
use crate::task::{Left, Task};
use indexmap::IndexMap;
use std::alloc::{AllocError, Global};
use std::marker::Model;
use std::mem;
use vt_cred::{Caps, Cred, Mode};
use vt_location::{Location, Mount, NamespaceId};
use vt_request::TaskName;

// Where a task mostly stands: the first task at 0, and a child of it at its own number, since children are forked in the
// order of their numbers.
#[inline(always)]
fn likely_place(numbers: &[u8]) -> usize {
    match numbers {
        [number] => usize::from(*number),
        _ => 0,
    }
}

// The task of a name. The name at its likely place is compared before a hash is taken.
#[inline(always)]
fn found_called<'a>(by_name: &'a IndexMap<Vec<u8>, Task>, numbers: &[u8]) -> Option<&'a Task>
    ensures { option_copied result ≡ lookup (λ key. pointwise nat_eq numbers.now key.items) by_name.now.entries }
{
    match by_name.get_index(likely_place(numbers)) {
        Some((own, found)) if numbers == own.as_slice() => Some(found),
        _ => by_name.get(numbers),
    }
}

/// The tasks, in the order in which they were forked.
///
/// They are kept by hash, in no order, so that a fork and an exit cost the same however many there are; the numbers of
/// their births keep the order.
///
/// No name is given twice: the next child of a task has a name that no task has.
#[derive(Debug, Drop)]
pub struct Tasks {
    by_name: IndexMap<Vec<u8>, Task>,
    // How many tasks were forked: the next one's birth.
    births: u64,
}

impl Model for Tasks {
    ghost use Rattle.vt_tasks.specs.TasksValue.{AreKept, TasksValue, in_order, tasks_of};

    ghost Value = { TasksValue };

    ghost view = { λ t. record { tasks = tasks_of (in_order t.by_name.entries); births = t.births } };

    ghost invariant = { λ t. AreKept t.births t.by_name.entries };
}

impl Tasks {
    /// The first task alone, with its root and its working directory here.
    pub fn new(alloc: Global, namespace: NamespaceId, root: Location) -> Result<Self, AllocError>
        ensures tasks { IfOk result (λ new.
            new.tasks ≡ first_task_at (namespace_number namespace) (location_of root) ∷ []) }
        ensures births { IfOk result (λ new. new.births ≡ 1) }
    {
        let mut by_name = IndexMap::new(alloc);
        by_name.insert(Vec::new(alloc), Task::first(alloc, namespace, root))?;
        Ok(Tasks { by_name, births: 1 })
    }

    /// The task of this name.
    pub fn get(&self, name: &TaskName) -> Option<&Task>
        ensures found { option_map task_of (option_copied result) ≡ called name.now self.now.tasks }
        ensures born { length self.now.tasks ≤ self.now.births }
    {
        found_called(&self.by_name, name.numbers())
    }

    /// The tasks, in no order. Their births tell in which order they were forked.
    pub fn kept(&self) -> &[Task]
        ensures order { born_in_order result.now ≡ self.now.tasks }
        ensures all { IsPermutation (map task_of result.now) self.now.tasks }
    {
        self.by_name.values().as_slice()
    }

    /// The namespace of the task of this name.
    pub fn namespace_called(&self, name: &TaskName) -> Option<NamespaceId>
        ensures { option_map namespace_number result
            ≡ option_map (λ task. task.namespace) (called name.now self.now.tasks) }
    {
        let task = self.get(name)?;
        Some(task.namespace)
    }

    /// Sets the umask of a task: umask(2). It does not allocate.
    pub fn set_umask(&mut self, name: &TaskName, umask: Mode)
        ensures { self.new ≡ record self.old {
          tasks = changed_called name.now (λ task. record task { umask = umask }) self.old.tasks;
        } }
    {
        if let Some(task) = self.by_name.get_mut(name.numbers()) {
            task.umask = umask;
        }
    }

    /// Drops capabilities of a task for good: capset(2). It does not allocate.
    pub fn drop_caps(&mut self, name: &TaskName, dropped: Caps)
        ensures { self.new ≡ record self.old {
          tasks = changed_called name.now
              (λ task. record task { credentials = with_dropped task.credentials (capability_bits dropped) })
              self.old.tasks;
        } }
    {
        if let Some(task) = self.by_name.get_mut(name.numbers()) {
            task.cred.drop_caps(dropped);
        }
    }

    /// Sets the working directory of a task, and returns the old one: chdir(2). It does not allocate.
    pub fn set_directory(&mut self, name: &TaskName, directory: Location) -> Option<Location>
        ensures left { option_map location_of result ≡ option_map (λ task. task.directory) (called name.now self.old.tasks) }
        ensures rest { self.new ≡ record self.old {
          tasks = changed_called name.now
              (λ task. record task { directory = location_of directory }) self.old.tasks;
        } }
    {
        let task = self.by_name.get_mut(name.numbers())?;
        Some(mem::replace(&mut task.directory, directory))
    }

    /// Sets the root of a task, and returns the old one: chroot(2). It does not allocate.
    pub fn set_root(&mut self, name: &TaskName, root: Location) -> Option<Location>
        ensures left { option_map location_of result ≡ option_map (λ task. task.root) (called name.now self.old.tasks) }
        ensures rest { self.new ≡ record self.old {
          tasks = changed_called name.now
              (λ task. record task { root = location_of root }) self.old.tasks;
        } }
    {
        let task = self.by_name.get_mut(name.numbers())?;
        Some(mem::replace(&mut task.root, root))
    }

    /// Moves a task into a namespace, with this directory as its root and its working directory, and returns what it
    /// left: setns(2). It does not allocate.
    pub fn enter(&mut self, name: &TaskName, namespace: NamespaceId, root: Location) -> Option<Left>
        ensures left { option_map left_of result ≡ option_map left_by (called name.now self.old.tasks) }
        ensures rest { self.new ≡ record self.old {
          tasks = changed_called name.now
              (λ task. entered_at task (namespace_number namespace) (location_of root)) self.old.tasks;
        } }
    {
        self.move_root_and_directory(name, namespace, root, root)
    }

    /// Moves a task into a namespace, with this root and this working directory, and returns what it left: unshare(2).
    /// It does not allocate.
    pub fn move_root_and_directory(
        &mut self,
        name: &TaskName,
        namespace: NamespaceId,
        root: Location,
        directory: Location,
    ) -> Option<Left>
        ensures left { option_map left_of result ≡ option_map left_by (called name.now self.old.tasks) }
        ensures rest { self.new ≡ record self.old {
          tasks = changed_called name.now
              (λ task. record task { namespace = namespace_number namespace; root = location_of root; directory = location_of directory })
              self.old.tasks;
        } }
    {
        let task = self.by_name.get_mut(name.numbers())?;
        let left = Left {
            namespace: task.namespace,
            root: task.root,
            directory: task.directory,
        };
        task.namespace = namespace;
        task.root = root;
        task.directory = directory;
        Some(left)
    }

    /// How many roots and working directories of a namespace's tasks are at a location. It does not allocate.
    pub fn places_at(&self, namespace: NamespaceId, at: Location) -> u64
        ensures count { result ≡ all_places_at (namespace_number namespace) (location_of at) self.now.tasks }
        ensures few { result < u64.MAX }
    {
        let mut count = 0;
        for task in self.by_name.values().as_slice() {
            count += task.places_at(namespace, at);
        }
        count
    }

    /// Moves the roots and working directories of a namespace's tasks from the root of the first mount to that of the
    /// second: pivot_root(2). It does not allocate.
    pub fn pivot(&mut self, namespace: NamespaceId, root: &Mount, new: &Mount)
        ensures { self.new ≡ record self.old {
          tasks = map (pivoted_task nat_eq (namespace_number namespace)
              (mount_of root.now) (mount_of new.now)) self.old.tasks;
        } }
    {
        for index in 0..self.by_name.len() {
            if let Some(task) = self.by_name.get_index_mut(index) {
                task.pivot(namespace, root, new);
            }
        }
    }

    /// Opens a file of a task under the least free number, and returns that number: open(2).
    pub fn open(&mut self, name: &TaskName, opened: OpenFile) -> Result<u8, AllocError>
        requires { MayOpenMore (called name.now self.old.tasks) }
        ensures number { IfOk result (λ number. Some number ≡ option_map free_number (called name.now self.old.tasks)) }
        ensures ok { OnOk result (self.new
            ≡ record self.old { tasks = changed_called name.now (with_open opened) self.old.tasks }) }
        ensures err { OnErr result (self.new ≡ self.old) }
    {
        let task = self.by_name.get_mut(name.numbers()).unwrap();
        task.descriptors.insert(opened)
    }

    /// Opens a file of a task under the least free number, and returns that number: open(2) with O_CREAT. Before that,
    /// and after all memory is reserved, it takes one more step, which may fail and change something else.
    ///
    /// If an allocation fails, that step has not been taken.
    pub fn open_after<S, F: FnOnce(&mut S) -> Result<(), AllocError>>(
        &mut self,
        name: &TaskName,
        opened: OpenFile,
        other: &mut S,
        step: F,
    ) -> Result<u8, AllocError>
        requires may { MayOpenMore (called name.now self.old.tasks) }
        requires callable { FnOnceTakesAtMut F.FnOnce step other.old }
        ensures number { IfOk result (λ number. Some number ≡ option_map free_number (called name.now self.old.tasks)) }
        ensures ok { OnOk result (self.new
            ≡ record self.old { tasks = changed_called name.now (with_open opened) self.old.tasks }) }
        ensures step_ok { OnOk result (FnOnceReturnsAtMut F.FnOnce step other.old (Ok tt) other.new) }
        ensures step_err { IfErr result (λ refused. (other.new ≡ other.old)
            ⊎ FnOnceReturnsAtMut F.FnOnce step other.old (Err refused) other.new) }
        ensures err { OnErr result (self.new ≡ self.old) }
    {
        let task = self.by_name.get_mut(name.numbers()).unwrap();
        task.descriptors.insert_after(opened, other, step)
    }

    /// Closes a file of a task, and returns it: close(2). It does not allocate.
    pub fn close(&mut self, name: &TaskName, number: u8) -> Option<OpenFile>
        ensures value { option_map (numbered number) result
            ≡ option_and_then (λ task. descriptor_numbered task number) (called name.now self.old.tasks) }
        ensures rest { self.new ≡ record self.old {
          tasks = changed_called name.now
              (λ task. without_descriptor task number) self.old.tasks;
        } }
        ensures order { list_all has_files_in_order self.old.tasks ≡ true }
    {
        let task = self.by_name.get_mut(name.numbers())?;
        task.descriptors.remove(number)
    }

    /// Forks a task, and returns the name of its child: fork(2).
    ///
    /// The child has these credentials, the parent's umask, namespace, root and working directory, and no open files.
    /// It comes after all other tasks.
    ///
    /// It fails too where 2^64 - 1 tasks were forked.
    pub fn fork(&mut self, name: &TaskName, cred: Cred) -> Result<TaskName, AllocError>
        requires { MayFork (called name.now self.old.tasks) }
        ensures name { IfOk result (λ child. Some child ≡ option_map child_name (called name.now self.old.tasks)) }
        ensures tasks { OnOk result (self.new.tasks ≡ forked name.now cred self.old.tasks) }
        ensures births { OnOk result (self.new.births ≡ self.old.births + 1) }
        ensures err { OnErr result (self.new ≡ self.old) }
    {
        let alloc = *self.by_name.allocator();
        let numbers = name.numbers();
        let parent = self.by_name.get(numbers).unwrap();
        let forks = parent.forks + 1;
        if self.births == u64::MAX {
            return Err(AllocError);
        }
        let child = parent.child(alloc, cred, self.births)?;
        let child_name = child.name.clone()?;
        let key = Vec::from_slice(alloc, child_name.numbers())?;
        self.by_name.insert(key, child)?;
        self.births += 1;
        if let Some(parent) = self.by_name.get_mut(numbers) {
            parent.forks = forks;
        }
        Ok(child_name)
    }

    /// Removes a task, and returns it: _exit(2). It does not allocate.
    pub fn exit(&mut self, name: &TaskName) -> Option<Task>
        ensures value { option_map task_of result ≡ called name.now self.old.tasks }
        ensures rest { self.new ≡ record self.old { tasks = without_called name.now self.old.tasks } }
    {
        self.by_name.swap_remove(name.numbers())
    }
}
