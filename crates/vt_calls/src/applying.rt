//! Spends permits: the change that is granted is applied. All memory that a change takes is taken before the change.
ghost use Rattle.vt_calls.specs.Counting.{CountsForTasks};
ghost use Rattle.vt_calls.specs.Permitted.{EndsPermitted, MayBeSpent};

use crate::descriptors::change_descriptors;
use crate::files::change_file;
use crate::looking::look;
use crate::making::make;
use crate::mounting::{change_mounts, mount_overlay};
use crate::removing::remove;
use crate::tasks::change_tasks;
use vt_ns::World;
use vt_permits::Grant;
use vt_policy::Permit;
use vt_request::{Answer, TaskName};
use vt_spec::errors::Deny;

// Spends a permit of a task in the world of this change number: what it grants is applied. S5 (ENOMEM): an allocation
// failed, or a count of uses is full; nothing has changed, and the permit is spent.
#[inline(always)]
pub(crate) fn apply(
    world: &mut World,
    change: u64,
    name: &TaskName,
    permit: Permit,
) -> Result<Answer, Deny>
    requires { MayBeSpent world.old change name.now permit }
    ensures ends { EndsPermitted world.old change name.now permit result world.new }
    ensures counts { CountsForTasks world.old world.new }
{
    match permit.spend(change) {
        Grant::Look(grant) => look(world, name, grant),
        Grant::Make(grant) => make(world, name, grant),
        Grant::Remove(grant) => remove(world, name, grant),
        Grant::Write(grant) => change_file(world, name, grant),
        Grant::Descriptor(grant) => change_descriptors(world, name, grant),
        Grant::Task(grant) => change_tasks(world, name, grant),
        Grant::Mount(grant) => change_mounts(world, name, grant),
        Grant::Overlay(new) => mount_overlay(world, name, new),
    }
}
