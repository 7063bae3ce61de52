//! A script is answered line by line, in whatever pieces its bytes come.
ghost use Rattle.std.specs.Prelude.{◌≡◌, ◌⊎◌, ◌+◌, ◌<◌, ◌^◌, [], IfErr, IsErrOf, OnOk};
ghost use Rattle.vt_line.specs.Versions.{version_of};
ghost use Rattle.vt_script.specs.Progress.{IsOpening};
ghost use Rattle.vt_script.specs.Session.{AnswersScript, AnswersWholeLines, BeginsToAnswer, EndsAtOnce};
ghost use Rattle.vt_script.specs.Session.{AnswersScriptIn, AnswersWholeLinesIn, BeginsToAnswerIn, EndsAtOnceIn};
ghost use Rattle.vt_script.specs.Session.{IsReading, lines_begun, moment};
ghost use Rattle.vt_script.specs.SessionValue.{state_of};

use crate::session::Session;
use std::alloc::Global;
use vt_answers::Calls;
use vt_io::input::Source;
use vt_io::output::Sink;
use vt_line::fault::RunFault;
use vt_line::version::Version;

/// How many bytes are asked for at a time.
const CHUNK: usize = 8192;

// Answers a script in a new session. `Read` and `Write`: that device failed.
fn answer_all<C: Calls, R: Source, W: Sink>(
    session: &mut Session<C>,
    source: &mut R,
    sink: &mut W,
) -> Result<(), RunFault>
    requires source_countable { R.failures source.old + 1 < 2 ^ 64 }
    requires sink_countable { W.failures sink.old + 1 < 2 ^ 64 }
    requires opening { IsOpening (version_of session.old.parser.version) (moment (state_of C.world session.old) []) }
    requires reading { IsReading (state_of C.world session.old) [] }
    requires begun { lines_begun (state_of C.world session.old) ≡ 0 }

    ensures ok { OnOk result (R.tells source.old → W.tells sink.old
        → AnswersScriptIn W.Sink (version_of session.old.parser.version) (R.rest source.old) sink.old sink.new) }
    ensures all_read { OnOk result (R.tells source.old → R.rest source.new ≡ []) }
    ensures after_read { IsErrOf result RunFault.Read → R.tells source.old → W.tells sink.old
        → AnswersWholeLinesIn W.Sink (version_of session.old.parser.version) (R.rest source.old) (R.rest source.new)
        sink.old sink.new }
    ensures after_write { IsErrOf result RunFault.Write → R.tells source.old → W.tells sink.old
        → BeginsToAnswerIn W.Sink (version_of session.old.parser.version) (R.rest source.old) sink.old sink.new }
    ensures at_once { IsErrOf result RunFault.Write → R.tells source.old → W.tells sink.old
        → EndsAtOnceIn W.Sink (version_of session.old.parser.version) (R.rest source.old) (R.given source.new)
        (R.rest source.new) sink.old sink.new }
    ensures fault { IfErr result (λ fault. (fault ≡ RunFault.Read) ⊎ (fault ≡ RunFault.Write)) }
    ensures read_failed { IsErrOf result RunFault.Read → R.failures source.new ≡ R.failures source.old + 1 }
    ensures no_read_failed { IsErrOf result RunFault.Read ⊎ (R.failures source.new ≡ R.failures source.old) }
    ensures write_failed { IsErrOf result RunFault.Write → W.failures sink.new ≡ W.failures sink.old + 1 }
    ensures no_write_failed { IsErrOf result RunFault.Write ⊎ (W.failures sink.new ≡ W.failures sink.old) }
    ensures source_tells { R.tells source.old → R.tells source.new }
    ensures sink_tells { W.tells sink.old → W.tells sink.new }
{
    let mut chunk = [0; CHUNK];
    'pieces: loop {
        let count = match source.read(&mut chunk) {
            Ok(count) => count,
            Err(_) => return Err(RunFault::Read),
        };
        if count == 0 {
            break;
        }
        session.feed(&chunk[..count], sink)?;
    }
    session.finish(sink)
}

/// Answers a script in a new world: reads it from the source, and writes a line for each line that has an answer.
///
/// For every script, what the sink is handed is the text of the policy's answers to the script's calls in their order,
/// each denial with the error number and the rule that the policy names first. All that is open is in which lines an
/// allocation failed. Only a line that may fail in the world before it can be one of them (`MayBeRefused`): its words are
/// kept, or the policy grants its call, or refuses it by a rule that is checked after receivers are gathered.
///
/// Each line is answered before the next is looked at. A line in which an allocation failed answers
/// `deny 12 ENOMEM S5` and counts as no call. `Read` and `Write` come where that device failed, and
/// `Memory` where the opening world or the line's buffer was refused, before anything was read.
///
/// The script is in version 1 of its language, as [`run_as`] has it.
pub fn run<C: Calls, R: Source, W: Sink>(
    alloc: Global,
    source: &mut R,
    sink: &mut W,
) -> Result<(), RunFault>
    requires source_countable { R.failures source.old + 1 < 2 ^ 64 }
    requires sink_countable { W.failures sink.old + 1 < 2 ^ 64 }

    // Where the source and the sink tell their bytes: all that was to come is answered.
    ensures ok { OnOk result (R.tells source.old → W.tells sink.old
        → AnswersScript W.Sink (R.rest source.old) sink.old sink.new) }
    ensures all_read { OnOk result (R.tells source.old → R.rest source.new ≡ []) }

    // After a failed read: the complete lines before it are answered.
    ensures after_read { IsErrOf result RunFault.Read → R.tells source.old → W.tells sink.old
        → AnswersWholeLines W.Sink (R.rest source.old) (R.rest source.new) sink.old sink.new }

    // After a failed write: what the sink took is a beginning of the answers, and the source was asked no more.
    ensures after_write { IsErrOf result RunFault.Write → R.tells source.old → W.tells sink.old
        → BeginsToAnswer W.Sink (R.rest source.old) sink.old sink.new }
    ensures at_once { IsErrOf result RunFault.Write → R.tells source.old → W.tells sink.old
        → EndsAtOnce W.Sink (R.rest source.old) (R.given source.new) (R.rest source.new) sink.old sink.new }

    // Memory is refused before anything was read or written.
    ensures memory { IsErrOf result RunFault.Memory → (source.new ≡ source.old) × (sink.new ≡ sink.old) }

    // The first failure of a device ends the run, and is its answer.
    ensures read_failed { IsErrOf result RunFault.Read → R.failures source.new ≡ R.failures source.old + 1 }
    ensures no_read_failed { IsErrOf result RunFault.Read ⊎ (R.failures source.new ≡ R.failures source.old) }
    ensures write_failed { IsErrOf result RunFault.Write → W.failures sink.new ≡ W.failures sink.old + 1 }
    ensures no_write_failed { IsErrOf result RunFault.Write ⊎ (W.failures sink.new ≡ W.failures sink.old) }

    // Both go on telling their bytes.
    ensures source_tells { R.tells source.old → R.tells source.new }
    ensures sink_tells { W.tells sink.old → W.tells sink.new }
{
    match run_as::<C, _, _>(Version::One, alloc, source, sink) {
        Ok(world) => {
            world.end();
            Ok(())
        }
        Err(fault) => Err(fault),
    }
}

/// Answers a script as [`run`] does, in a version of its language, and gives back the world after its last line.
pub fn run_as<C: Calls, R: Source, W: Sink>(
    version: Version,
    alloc: Global,
    source: &mut R,
    sink: &mut W,
) -> Result<C, RunFault>
    requires source_countable { R.failures source.old + 1 < 2 ^ 64 }
    requires sink_countable { W.failures sink.old + 1 < 2 ^ 64 }

    // Where the source and the sink tell their bytes: all that was to come is answered.
    ensures ok { OnOk result (R.tells source.old → W.tells sink.old
        → AnswersScriptIn W.Sink (version_of version) (R.rest source.old) sink.old sink.new) }
    ensures all_read { OnOk result (R.tells source.old → R.rest source.new ≡ []) }

    // After a failed read: the complete lines before it are answered.
    ensures after_read { IsErrOf result RunFault.Read → R.tells source.old → W.tells sink.old
        → AnswersWholeLinesIn W.Sink (version_of version) (R.rest source.old) (R.rest source.new) sink.old sink.new }

    // After a failed write: what the sink took is a beginning of the answers, and the source was asked no more.
    ensures after_write { IsErrOf result RunFault.Write → R.tells source.old → W.tells sink.old
        → BeginsToAnswerIn W.Sink (version_of version) (R.rest source.old) sink.old sink.new }
    ensures at_once { IsErrOf result RunFault.Write → R.tells source.old → W.tells sink.old
        → EndsAtOnceIn W.Sink (version_of version) (R.rest source.old) (R.given source.new) (R.rest source.new)
        sink.old sink.new }

    // Memory is refused before anything was read or written.
    ensures memory { IsErrOf result RunFault.Memory → (source.new ≡ source.old) × (sink.new ≡ sink.old) }

    // The first failure of a device ends the run, and is its answer.
    ensures read_failed { IsErrOf result RunFault.Read → R.failures source.new ≡ R.failures source.old + 1 }
    ensures no_read_failed { IsErrOf result RunFault.Read ⊎ (R.failures source.new ≡ R.failures source.old) }
    ensures write_failed { IsErrOf result RunFault.Write → W.failures sink.new ≡ W.failures sink.old + 1 }
    ensures no_write_failed { IsErrOf result RunFault.Write ⊎ (W.failures sink.new ≡ W.failures sink.old) }

    // Both go on telling their bytes.
    ensures source_tells { R.tells source.old → R.tells source.new }
    ensures sink_tells { W.tells sink.old → W.tells sink.new }
{
    let mut session = Session::<C>::new(version, alloc)?;
    let outcome = answer_all(&mut session, source, sink);
    let world = session.into_world();
    match outcome {
        Ok(()) => Ok(world),
        Err(fault) => {
            world.end();
            Err(fault)
        }
    }
}
