//! A task: credentials(7), umask(2), fork(2).
ghost use Rattle.std.specs.Prelude.{◌≡◌, ◌<◌, nat_eq, IfOk};
ghost use Rattle.vt_spec.specs.Machine.Mounts.{same_location};
ghost use Rattle.vt_spec.specs.Machine.Namespaces.{pivoted_location, pivoted_task};
ghost use Rattle.vt_spec.specs.Machine.Tasks.{child_of};
ghost use Rattle.vt_location.specs.Locations.{location_of};
ghost use Rattle.vt_location.specs.MountValue.{mount_of};
ghost use Rattle.vt_location.specs.Numbers.{namespace_number};
ghost use Rattle.vt_tasks.specs.Counts.{places_at};
ghost use Rattle.vt_tasks.specs.TaskValue.{task_of};
ghost use Rattle.vt_tasks.specs.TasksValue.{first_task_at};

use crate::descriptors::Descriptors;
use std::alloc::{AllocError, Global};
use vt_cred::{Cred, Mode};
use vt_location::{Location, Mount, NamespaceId};
use vt_request::TaskName;

/// The most forks of a task: RLIMIT_NPROC of setrlimit(2).
pub const MAX_FORKS: u8 = 64;

/// The most numbers in the name of a task.
pub const MAX_DEPTH: usize = 8;

/// The umask of the first task, 022.
const FIRST_UMASK: u16 = 0o022;

/// A task: its credentials, its place among files, and its open files.
#[derive(Debug, Drop)]
pub struct Task {
    pub name: TaskName,
    pub cred: Cred,
    /// The bits that the mode of a new object loses.
    pub umask: Mode,
    pub namespace: NamespaceId,
    /// Where its absolute paths begin: chroot(2).
    pub root: Location,
    /// Where its other paths begin: chdir(2).
    pub directory: Location,
    pub descriptors: Descriptors,
    /// How often it has forked.
    pub forks: u8,
    /// How many tasks were forked before it.
    pub birth: u64,
}

/// What a task leaves when it goes to another namespace.
#[derive(Clone, Copy, Debug, PartialEq, Eq)]
pub struct Left {
    pub namespace: NamespaceId,
    pub root: Location,
    pub directory: Location,
}

impl Task {
    /// The first task: user and group 0, all capabilities, umask 022, no open files. It does not allocate.
    pub fn first(alloc: Global, namespace: NamespaceId, root: Location) -> Self
        ensures task { task_of result ≡ first_task_at (namespace_number namespace) (location_of root) }
        ensures birth { result.birth ≡ 0 }
    {
        Task {
            name: TaskName::new(alloc),
            cred: Cred::root(alloc),
            umask: Mode::new(FIRST_UMASK).unwrap(),
            namespace,
            root,
            directory: root,
            descriptors: Descriptors::new(alloc),
            forks: 0,
            birth: 0,
        }
    }

    /// Its next child, with these credentials, after so many other forks: fork(2).
    ///
    /// The child has the parent's umask, namespace, root and working directory, and no open files. It fails if an
    /// allocation fails.
    pub fn child(&self, alloc: Global, cred: Cred, birth: u64) -> Result<Task, AllocError>
        requires few { self.now.forks < MAX_FORKS }
        ensures child { IfOk result (λ child. task_of child ≡ child_of (task_of self.now) cred) }
        ensures birth { IfOk result (λ child. child.birth ≡ birth) }
    {
        Ok(Task {
            name: self.name.child(self.forks + 1)?,
            cred,
            umask: self.umask,
            namespace: self.namespace,
            root: self.root,
            directory: self.directory,
            descriptors: Descriptors::new(alloc),
            forks: 0,
            birth,
        })
    }

    /// How many of its root and its working directory are at a location, if it is in this namespace.
    pub fn places_at(&self, namespace: NamespaceId, at: Location) -> u64
        ensures { result ≡ places_at (namespace_number namespace) (location_of at) (task_of self.now) }
    {
        if self.namespace != namespace {
            return 0;
        }
        u64::from(self.root.is_same(at)) + u64::from(self.directory.is_same(at))
    }

    /// If it is in this namespace, moves its root and its working directory from the root of the first mount to that of
    /// the second: pivot_root(2). It does not allocate.
    pub fn pivot(&mut self, namespace: NamespaceId, root: &Mount, new: &Mount)
        ensures task { task_of self.new
            ≡ pivoted_task nat_eq (namespace_number namespace) (mount_of root.now) (mount_of new.now) (task_of self.old) }
        ensures birth { self.new.birth ≡ self.old.birth }
    {
        if self.namespace == namespace {
            self.root = pivoted(self.root, root, new);
            self.directory = pivoted(self.directory, root, new);
        }
    }
}

/// A location, or the root of the second mount where it is the root of the first.
fn pivoted(at: Location, root: &Mount, new: &Mount) -> Location
    ensures { location_of result ≡ pivoted_location nat_eq (mount_of root.now) (mount_of new.now) (location_of at) }
{
    if at.is_same(root.root_location()) {
        new.root_location()
    } else {
        at
    }
}
