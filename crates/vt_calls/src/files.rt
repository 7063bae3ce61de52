//! Grants to change files: write(2), pwrite(2), chmod(2), chown(2), setxattr(2).
ghost use Rattle.vt_permits.specs.declared.grant.Grant.TheVariants.{Write};
ghost use Rattle.vt_calls.specs.Counting.{CountsForTasks};
ghost use Rattle.vt_calls.specs.Permitted.{EndsGiven, IsGiven};

use crate::answers::done;
use vt_ns::World;
use vt_permits::WriteGrant;
use vt_request::{Answer, TaskName};
use vt_spec::errors::Deny;

// Changes a file as is granted. S5 (ENOMEM): an allocation failed; nothing has changed.
#[inline(always)]
pub(crate) fn change_file(
    world: &mut World,
    name: &TaskName,
    grant: WriteGrant,
) -> Result<Answer, Deny>
    requires { IsGiven world.old name.now (Write grant) }
    ensures ends { EndsGiven world.old name.now (Write grant) result world.new }
    ensures counts { CountsForTasks world.old world.new }
{
    match grant {
        WriteGrant::Content { file, bytes } => {
            world.write(name, file, bytes);
            Ok(Answer::Done)
        }
        WriteGrant::Part(part) => done(world.write_part(name, part)),
        WriteGrant::Attr { object, attr } => {
            world.set_attr(name, object, attr);
            Ok(Answer::Done)
        }
        WriteGrant::Mark { directory, opaque } => {
            world.set_opaque(name, directory, opaque);
            Ok(Answer::Done)
        }
    }
}
