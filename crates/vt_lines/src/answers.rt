//! The answers to a script, as a run writes them.
ghost use Rattle.std.specs.Prelude.{◌≡◌, ◌^◌, ◌<◌, IfOk};
ghost use Rattle.vt_line.specs.Versions.{version_of};
ghost use Rattle.vt_lines.specs.Answers.{IsWrittenBy};

use std::alloc::{AllocError, Global};
use vt_io::memory::{BytesSink, BytesSource};
use vt_script::{Calls, Version, run_as};

/// What a run of the script writes, in a version of its language, read and written in pieces of this size.
///
/// Where no memory is left for what is written, there is none.
pub fn answers<C: Calls>(
    version: Version,
    alloc: Global,
    script: &[u8],
    piece: usize,
) -> Result<BytesSink, AllocError>
    ensures { IfOk result (λ sink. IsWrittenBy (version_of version) script.now sink.bytes) }
{
    let mut source = BytesSource::new(script, piece);
    let mut sink = BytesSink::new(alloc, piece);
    match run_as::<C, _, _>(version, alloc, &mut source, &mut sink) {
        Ok(world) => {
            world.end();
            Ok(sink)
        }
        Err(_) => Err(AllocError),
    }
}
