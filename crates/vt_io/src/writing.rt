//! Writing whole texts to a sink.
ghost use Rattle.std.specs.Prelude.{◌+◌, ◌^◌, ◌<◌};
ghost use Rattle.std.specs.List.{flat_map};
ghost use Rattle.vt_io.specs.Sink.{Prints};

use crate::output::{Sink, SinkFailed};
use arrayvec::ArrayVec;

/// How many bytes of parts are held back, to be written together.
const MOST_HELD: usize = 64;

/// Writes all of the bytes, in as many writes as the sink asks for.
pub fn write_all<W: Sink>(sink: &mut W, bytes: &[u8]) -> Result<(), SinkFailed>
    requires countable { W.failures sink.old + 1 < 2 ^ 64 }
    ensures printed { Prints W.Sink bytes.now result sink.old sink.new }
{
    let mut done = 0;
    while done < bytes.len() {
        done += sink.write(&bytes[done..])?;
    }
    Ok(())
}

/// Writes all of each part, one after another. Parts that are short together are handed to the sink in one write.
pub fn write_parts<W: Sink>(sink: &mut W, parts: &[&[u8]]) -> Result<(), SinkFailed>
    requires countable { W.failures sink.old + 1 < 2 ^ 64 }
    ensures printed { Prints W.Sink (flat_map (λ part. part.now) parts.now) result sink.old sink.new }
{
    let mut held = ArrayVec::<u8, MOST_HELD>::new();
    for part in parts {
        if held.try_extend_from_slice(part).is_err() {
            write_all(sink, held.as_slice())?;
            write_all(sink, part)?;
            held.clear();
        }
    }
    write_all(sink, held.as_slice())
}
