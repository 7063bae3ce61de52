//! A line that is answered while somebody tells of it.
ghost use Rattle.vt_line.specs.Versions.{version_of};
ghost use Rattle.vt_answers.specs.Ends.{HasNumbers};
ghost use Rattle.vt_script.specs.Session.{IsLeftBy};

use std::alloc::Global;
use vt_line::line::Line;
use vt_line::version::Version;
use vt_request::{Answer, Call, CallKind, TaskName};
use vt_script::Calls;
use vt_spec::errors::Deny;

/// Who tells of a line while it is answered, and sees the world for that.
pub trait Teller<C> {
    /// A task makes a call next.
    fn before(&mut self, world: &C, name: &TaskName, call: &Call<'_>);

    /// The call was made, and has this answer.
    fn after(&mut self, world: &C, name: TaskName, kind: CallKind, outcome: &Result<Answer, Deny>);

    /// A line that is no call has this answer.
    fn alone(&mut self, outcome: &Result<Answer, Deny>);
}

/// Answers a line, as a run does, and has it told. A line without an answer is not told of.
pub fn answer_told<C: Calls, T: Teller<C>>(
    version: Version,
    alloc: Global,
    world: &mut C,
    line: &[u8],
    teller: &mut T,
)
    ensures { HasNumbers (C.world world.old)
        → IsLeftBy (version_of version) (C.world world.old) line.now (C.world world.new) }
{
    let mut texts = None;
    match Line::parse_as(version, alloc, line, &mut texts) {
        Ok(Line::Silent) => {}
        Ok(Line::Call(name, call)) => {
            teller.before(world, &name, &call);
            let kind = call.kind();
            let outcome = world.call(&name, call);
            teller.after(world, name, kind, &outcome);
        }
        Ok(Line::Ask(directive)) => teller.alone(&world.direct(&directive)),
        Err(deny) => teller.alone(&Err(deny)),
    }
}
