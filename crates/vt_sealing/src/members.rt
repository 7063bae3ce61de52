//! Members, their namespaces, and the mounts in these: mount_namespaces(7).
ghost use Rattle.std.specs.List.{list_any};
ghost use Rattle.std.specs.Prelude.{◌≡◌, ◌&&◌, nat_eq, not};
ghost use Rattle.vt_spec.specs.Language.Calls.{same_name};
ghost use Rattle.vt_spec.specs.Machine.Sealed.{holds_all_tasks, is_member_task, is_own_mount, is_own_namespace, no_such_task};
ghost use Rattle.vt_location.specs.MountValue.{mount_of};
ghost use Rattle.vt_location.specs.Numbers.{namespace_number};
ghost use Rattle.vt_tasks.specs.TaskValue.{task_of};
ghost use Rattle.vt_sealing.specs.Seen.{is_other_mount, world_seen};

use crate::sealing::Sealing;
use vt_location::{Mount, NamespaceId};
use vt_request::TaskName;
use vt_tasks::Task;

impl Sealing<'_> {
    /// Whether one of the names is no task's.
    pub(crate) fn lacks_a_member(&self) -> bool
        ensures { result ≡ list_any (no_such_task (world_seen self.now)) self.now.names.now }
    {
        self.names.iter().any(|name| self.is_missing(name))
    }

    // Whether no task has this name.
    fn is_missing(&self, name: &TaskName) -> bool
        ensures { result ≡ no_such_task (world_seen self.now) name.now }
    {
        self.tasks.get(name).is_none()
    }

    /// Whether no outsider is in a namespace of members.
    pub(crate) fn holds_all_tasks(&self) -> bool
        ensures { result ≡ holds_all_tasks nat_eq (world_seen self.now) self.now.names.now }
    {
        !self.tasks.kept().iter().any(|task| self.is_intruder(task))
    }

    // Whether a task is an outsider in a namespace of members.
    fn is_intruder(&self, task: &Task) -> bool
        ensures { result ≡ (not (is_member_task self.now.names.now (task_of task.now))
            && is_own_namespace nat_eq (world_seen self.now) self.now.names.now (task_of task.now).namespace) }
    {
        !self.is_member(task) && self.is_own_namespace(task.namespace)
    }

    /// Whether a task is a member.
    pub(crate) fn is_member(&self, task: &Task) -> bool
        ensures { result ≡ is_member_task self.now.names.now (task_of task.now) }
    {
        self.names.iter().any(|name| is_same(&task.name, name))
    }

    /// Whether a mount is in a namespace of members.
    pub(crate) fn is_own_mount(&self, mount: &Mount) -> bool
        ensures { result ≡ is_own_mount nat_eq (world_seen self.now) self.now.names.now (mount_of mount.now) }
    {
        match mount.namespace {
            Some(namespace) => self.is_own_namespace(namespace),
            None => false,
        }
    }

    /// Whether a mount is in another namespace. One that is in none is nobody's.
    pub(crate) fn is_other_mount(&self, mount: &Mount) -> bool
        ensures { result ≡ is_other_mount (world_seen self.now) self.now.names.now (mount_of mount.now) }
    {
        match mount.namespace {
            Some(namespace) => !self.is_own_namespace(namespace),
            None => false,
        }
    }

    // Whether a member is in a namespace.
    fn is_own_namespace(&self, namespace: NamespaceId) -> bool
        ensures { result
            ≡ is_own_namespace nat_eq (world_seen self.now) self.now.names.now (namespace_number namespace) }
    {
        self.tasks
            .kept()
            .iter()
            .any(|task| self.is_member_in(task, namespace))
    }

    // Whether a task is a member in a namespace.
    fn is_member_in(&self, task: &Task, namespace: NamespaceId) -> bool
        ensures { result ≡ (nat_eq (namespace_number namespace) (task_of task.now).namespace
            && is_member_task self.now.names.now (task_of task.now)) }
    {
        namespace == task.namespace && self.is_member(task)
    }
}

// Whether two names are the same.
fn is_same(one: &TaskName, other: &TaskName) -> bool
    ensures { result ≡ same_name one.now other.now }
{
    one.numbers() == other.numbers()
}
