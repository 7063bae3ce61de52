//! A script is read, and answered in turns.
ghost use Rattle.std.specs.Prelude.{◌+◌, ◌<◌, ◌^◌, ◌≡◌, ◌⊎◌, IfErr, IfOk, IsErrOf, OnOk, map};
ghost use Rattle.vt_io.specs.Sink.{Prints};
ghost use Rattle.vt_laws_turns.specs.Commits.{text_of_replies};
ghost use Rattle.vt_line.specs.Versions.{version_of};
ghost use Rattle.vt_turns.specs.SchedValue.{reply_meant};
ghost use Rattle.vt_turns_run.specs.Played.{BeginsToWriteReplies, WritesReplies};

use crate::playing::{Played, play_script};
use std::alloc::Global;
use vt_io::input::Source;
use vt_io::output::Sink;
use vt_line::fault::RunFault;
use vt_line::print::write_reply;
use vt_line::version::Version;
use vt_turns::TakesTurns;

// How many bytes are asked for at a time.
const CHUNK: usize = 8192;

// All that a source gives.
fn read_all<R: Source>(alloc: Global, source: &mut R) -> Result<Vec<u8>, RunFault>
    requires { R.failures source.old + 1 < 2 ^ 64 }
    ensures ok { IfOk result (λ all. R.tells source.old → all.items ≡ R.rest source.old) }
    ensures read_failed { IsErrOf result RunFault.Read → R.failures source.new ≡ R.failures source.old + 1 }
    ensures no_read_failed { IsErrOf result RunFault.Read ⊎ (R.failures source.new ≡ R.failures source.old) }
    ensures fault { IfErr result (λ fault. (fault ≡ RunFault.Read) ⊎ (fault ≡ RunFault.Memory)) }
{
    let mut all = Vec::new(alloc);
    let mut chunk = [0; CHUNK];
    'pieces: loop {
        let count = match source.read(&mut chunk) {
            Ok(count) => count,
            Err(_) => return Err(RunFault::Read),
        };
        if count == 0 {
            break;
        }
        if all.extend_from_slice(&chunk[..count]).is_err() {
            return Err(RunFault::Memory);
        }
    }
    Ok(all)
}

/// Writes the replies, one after the other.
pub fn write_replies<W: Sink>(sink: &mut W, played: &Played) -> Result<(), RunFault>
    requires { W.failures sink.old + 1 < 2 ^ 64 }
    ensures printed { Prints W.Sink (text_of_replies (map reply_meant played.now.replies.items)) result sink.old sink.new }
    ensures fault { IfErr result (λ fault. fault ≡ RunFault.Write) }
{
    for reply in &played.replies {
        write_reply(sink, reply.line, &reply.answer)?;
    }
    Ok(())
}

/// Answers a script in turns: each task, and `!`, has a queue of its lines, and each line of the schedule gives one of
/// them a turn. Both are read to their ends before the first turn.
///
/// `Read`, and `Memory`, come before the first turn, and then nothing was written. `Write` comes where the sink failed.
pub fn turns_run<C: TakesTurns, R: Source, S: Source, W: Sink>(
    version: Version,
    alloc: Global,
    script: &mut R,
    schedule: &mut S,
    sink: &mut W,
) -> Result<(), RunFault>
    requires script_countable { R.failures script.old + 1 < 2 ^ 64 }
    requires schedule_countable { S.failures schedule.old + 1 < 2 ^ 64 }
    requires sink_countable { W.failures sink.old + 1 < 2 ^ 64 }

    // Where the sources and the sink tell their bytes: the text of all that was to come is written, or, after a failed
    // write, a beginning of it.
    ensures ok { OnOk result (R.tells script.old → S.tells schedule.old → WritesReplies W.Sink (version_of version)
        (R.rest script.old) (S.rest schedule.old) sink.old sink.new) }
    ensures after_write { IsErrOf result RunFault.Write → R.tells script.old → S.tells schedule.old
        → BeginsToWriteReplies W.Sink (version_of version) (R.rest script.old) (S.rest schedule.old) sink.old sink.new }

    // Before the first turn nothing was written.
    ensures read { IsErrOf result RunFault.Read → sink.new ≡ sink.old }
    ensures memory { IsErrOf result RunFault.Memory → sink.new ≡ sink.old }

    // The first failure of a device ends the run, and is its answer.
    ensures read_failed { IsErrOf result RunFault.Read → (R.failures script.new ≡ R.failures script.old + 1)
        ⊎ (S.failures schedule.new ≡ S.failures schedule.old + 1) }
    ensures no_read_failed { IsErrOf result RunFault.Read ⊎ ((R.failures script.new ≡ R.failures script.old)
        × (S.failures schedule.new ≡ S.failures schedule.old)) }
    ensures write_failed { IsErrOf result RunFault.Write → W.failures sink.new ≡ W.failures sink.old + 1 }
    ensures no_write_failed { IsErrOf result RunFault.Write ⊎ (W.failures sink.new ≡ W.failures sink.old) }
{
    let script = read_all(alloc, script)?;
    let schedule = read_all(alloc, schedule)?;
    match play_script::<C>(version, alloc, &script, &schedule) {
        Ok(played) => write_replies(sink, &played),
        Err(_) => Err(RunFault::Memory),
    }
}
