//! Grants to make names: mkdir(2), symlink(2), mknod(2), link(2).
ghost use Rattle.vt_permits.specs.declared.grant.Grant.TheVariants.{Make};
ghost use Rattle.vt_calls.specs.Counting.{CountsForTasks};
ghost use Rattle.vt_calls.specs.Permitted.{EndsGiven, IsGiven};

use crate::answers::done;
use vt_ns::World;
use vt_permits::MakeGrant;
use vt_request::{Answer, TaskName};
use vt_spec::errors::Deny;

// Makes a name as is granted. S5 (ENOMEM): an allocation failed, or a count of uses is full; nothing has changed.
#[inline(always)]
pub(crate) fn make(world: &mut World, name: &TaskName, grant: MakeGrant) -> Result<Answer, Deny>
    requires { IsGiven world.old name.now (Make grant) }
    ensures ends { EndsGiven world.old name.now (Make grant) result world.new }
    ensures counts { CountsForTasks world.old world.new }
{
    match grant {
        MakeGrant::Node(new) => done(world.make(name, new)),
        MakeGrant::Link(new) => done(world.link(name, new)),
    }
}
