//! Grants to take names away: unlink(2), rmdir(2), rename(2).
ghost use Rattle.vt_permits.specs.declared.grant.Grant.TheVariants.{Remove};
ghost use Rattle.vt_calls.specs.Counting.{CountsForTasks};
ghost use Rattle.vt_calls.specs.Permitted.{EndsGiven, IsGiven};

use crate::answers::done;
use vt_ns::World;
use vt_permits::RemoveGrant;
use vt_request::{Answer, TaskName};
use vt_spec::errors::Deny;

// Takes a name away as is granted. S5 (ENOMEM): an allocation failed, or a count of uses is full; nothing has
// changed.
#[inline(always)]
pub(crate) fn remove(world: &mut World, name: &TaskName, grant: RemoveGrant) -> Result<Answer, Deny>
    requires { IsGiven world.old name.now (Remove grant) }
    ensures ends { EndsGiven world.old name.now (Remove grant) result world.new }
    ensures counts { CountsForTasks world.old world.new }
{
    match grant {
        RemoveGrant::Unlink(gone) => {
            world.unlink(name, gone);
            Ok(Answer::Done)
        }
        RemoveGrant::Directory(removed) => done(world.remove_directory(name, removed)),
        RemoveGrant::Rename(renamed) => done(world.rename(name, Box::into_inner(renamed))),
    }
}
