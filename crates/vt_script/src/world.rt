//! The world that a run has after the complete lines of a script.
ghost use Rattle.std.specs.Prelude.{IfOk};
ghost use Rattle.vt_line.specs.Versions.{version_of};
ghost use Rattle.vt_script.specs.Reached.{IsReachedBy};

use crate::session::Session;
use std::alloc::Global;
use vt_answers::Calls;
use vt_io::memory::BytesSink;
use vt_line::fault::RunFault;
use vt_line::version::Version;

/// How many bytes of answers are written at a time.
const PIECE: usize = 8192;

/// The world that a run of the script, in a version of its language, has after its complete lines. What follows the last
/// newline is not looked at.
///
/// `Memory` and `Write`: an allocation failed.
pub fn world_after<C: Calls>(version: Version, alloc: Global, script: &[u8]) -> Result<C, RunFault>
    ensures { IfOk result (λ world. IsReachedBy (version_of version) script.now (C.world world)) }
{
    let mut session = Session::<C>::new(version, alloc)?;
    let mut answers = BytesSink::new(alloc, PIECE);
    let outcome = session.feed(script, &mut answers);
    let world = session.into_world();
    drop(answers);
    match outcome {
        Ok(()) => Ok(world),
        Err(fault) => {
            world.end();
            Err(fault)
        }
    }
}
