//! The world that a run has before a line of a script.
ghost use Rattle.std.specs.Prelude.{IfOk};
ghost use Rattle.vt_line.specs.Versions.{version_of};
ghost use Rattle.vt_lines.specs.Reached.{IsReachedBefore};

use crate::lines::lines_before;
use crate::reading::refused_lines;
use std::alloc::Global;
use vt_script::{Calls, RunFault, Version, world_after};

/// A world to which lines led, and how many of them were refused by S1.
#[derive(Drop)]
pub struct Reached<C> {
    pub world: C,
    pub refused: u64,
}

/// The world that a run of the script, in a version of its language, has after the lines before the one of this number,
/// from 1; after all of them where there are fewer.
///
/// `Memory` and `Write`: an allocation failed.
pub fn reached_before<C: Calls>(
    version: Version,
    alloc: Global,
    script: &[u8],
    line: u64,
) -> Result<Reached<C>, RunFault>
    ensures { IfOk result (λ reached.
        IsReachedBefore (version_of version) line script.now (C.world reached.world) reached.refused) }
{
    let Ok(front) = lines_before(alloc, script, line) else {
        return Err(RunFault::Memory);
    };
    let Ok(refused) = refused_lines(version, alloc, front.as_slice()) else {
        return Err(RunFault::Memory);
    };
    match world_after::<C>(version, alloc, front.as_slice()) {
        Ok(world) => Ok(Reached { world, refused }),
        Err(fault) => Err(fault),
    }
}
