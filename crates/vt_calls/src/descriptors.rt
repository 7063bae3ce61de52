//! Grants to open and close files: open(2), close(2).
ghost use Rattle.vt_permits.specs.declared.grant.Grant.TheVariants.{Descriptor};
ghost use Rattle.vt_calls.specs.Counting.{CountsForTasks};
ghost use Rattle.vt_calls.specs.Permitted.{EndsGiven, IsGiven};

use vt_ns::World;
use vt_permits::DescriptorGrant;
use vt_request::{Answer, TaskName};
use vt_spec::errors::Deny;

// Opens or closes a file as is granted. S5 (ENOMEM): an allocation failed, or a count of uses is full; nothing has
// changed.
#[inline(always)]
pub(crate) fn change_descriptors(
    world: &mut World,
    name: &TaskName,
    grant: DescriptorGrant,
) -> Result<Answer, Deny>
    requires { IsGiven world.old name.now (Descriptor grant) }
    ensures ends { EndsGiven world.old name.now (Descriptor grant) result world.new }
    ensures counts { CountsForTasks world.old world.new }
{
    match grant {
        DescriptorGrant::Open { file, access } => {
            Ok(Answer::Opened(world.open(name, file, access)?))
        }
        DescriptorGrant::OpenNew(new) => Ok(Answer::Opened(world.open_new(name, new)?)),
        DescriptorGrant::Close { descriptor } => {
            world.close(name, descriptor);
            Ok(Answer::Done)
        }
    }
}
