//! Grants to change tasks: chdir(2), chroot(2), umask(2), capset(2), fork(2), _exit(2), unshare(2), setns(2).
ghost use Rattle.vt_permits.specs.declared.grant.Grant.TheVariants.{Task};
ghost use Rattle.vt_calls.specs.Counting.{CountsForTasks};
ghost use Rattle.vt_calls.specs.Permitted.{EndsGiven, IsGiven};

use crate::answers::done;
use vt_ns::World;
use vt_permits::TaskGrant;
use vt_request::{Answer, TaskName};
use vt_spec::errors::Deny;

// Changes tasks as is granted. S5 (ENOMEM): an allocation failed, or a count of uses is full; nothing has changed.
#[inline(always)]
pub(crate) fn change_tasks(
    world: &mut World,
    name: &TaskName,
    grant: TaskGrant,
) -> Result<Answer, Deny>
    requires { IsGiven world.old name.now (Task grant) }
    ensures ends { EndsGiven world.old name.now (Task grant) result world.new }
    ensures counts { CountsForTasks world.old world.new }
{
    match grant {
        TaskGrant::SetDirectory { directory } => done(world.set_directory(name, directory)),
        TaskGrant::SetRoot { root } => done(world.set_root(name, root)),
        TaskGrant::SetUmask { umask } => {
            world.set_umask(name, umask);
            Ok(Answer::Done)
        }
        TaskGrant::DropCaps { caps } => {
            world.drop_caps(name, caps);
            Ok(Answer::Done)
        }
        TaskGrant::Fork { cred } => Ok(Answer::Child(world.fork(name, cred)?)),
        TaskGrant::Exit => {
            world.exit(name);
            Ok(Answer::Done)
        }
        TaskGrant::Unshare => done(world.unshare(name)),
        TaskGrant::EnterNamespace { namespace } => done(world.enter_namespace(name, namespace)),
    }
}
