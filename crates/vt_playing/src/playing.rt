//! A script's file is answered in the order of a schedule's file.
ghost use Rattle.std.specs.Prelude.{◌≡◌, false, true, IfErr, IfOk, OnOk, map};
ghost use Rattle.vt_laws_turns.specs.Commits.{text_of_replies};
ghost use Rattle.vt_run.specs.Status.{comes_before_output};
ghost use Rattle.vt_turns.specs.SchedValue.{reply_meant};
ghost use Rattle.vt_playing.specs.Faults.{is_of_output};
ghost use Rattle.vt_playing.specs.Texts.{IsTextOfFiles, WritesText};

use std::alloc::{AllocError, Global};
use std::fs;
use std::io::Write;
use std::rt::Files;
use vt_check::draft::Draft;
use vt_files::{readable, spoken, told};
use vt_run::fault::Fault;
use vt_script::{RunFault, Version, WriteSink};
use vt_turns::TakesTurns;
use vt_turns_run::{Played, play_script, write_replies};

/// In which order lines are answered, and of a script in which version of the language, unless its first line says so.
#[derive(Clone, Copy)]
pub struct ScheduleAsked<'a> {
    pub version: Option<Version>,
    /// The name of the schedule's file.
    pub schedule: &'a str,
}

// The content of the file of a schedule, or `None` if it cannot be read; the error output says why.
fn readable_schedule<R: Files + Eprint + AllocGlobal>(rt: &R, name: &str) -> Option<Vec<u8>> {
    match fs::read(rt, name) {
        Ok(bytes) => Some(bytes),
        Err(cause) => {
            let _ = eprintln!(rt;
                "vtree: cannot read {name}: {cause}; check its name, and that you may read it"
            );
            None
        }
    }
}

// Says on the error output how many lines of a schedule did nothing.
fn note_idle<R: Eprint>(rt: &R, schedule: &str, played: &Played) {
    if let Some(first) = played.first_idle {
        let count = played.idle;
        let _ = eprintln!(rt;
            "vtree: {schedule}: {count} of its lines do nothing, line {first} first: they name no task or `!`, \
             or one without a line that waits"
        );
    }
}

// How many of the lines that were left are named.
const NAMED_LINES: usize = 10;

// The first lines that were left, and how many more there are, in one text.
fn listed(alloc: Global, lines: &[u64]) -> Result<String, AllocError> {
    let mut text = Draft::new(alloc);
    for line in lines.get(..NAMED_LINES).unwrap_or(lines) {
        if text.len() > 0 {
            text.push(", ");
        }
        text.push_number(*line);
    }
    let more = lines.len().saturating_sub(NAMED_LINES);
    if more > 0 {
        text.push(" and ");
        text.push_number(more as u64);
        text.push(" more");
    }
    text.end()
}

// Says on the error output which lines of a script were not answered.
fn note_left<R: Eprint + AllocGlobal>(rt: &R, script: &str, played: &Played) {
    if played.left.is_empty() {
        return;
    }
    let script = told(script);
    if let Ok(lines) = listed(rt.alloc(), &played.left) {
        let lines = lines.as_str();
        let _ = eprintln!(rt;
            "vtree: {script}: the schedule ends before these lines are answered: {lines}"
        );
    }
}

// The text of the replies.
fn replies_text(alloc: Global, played: &Played) -> Result<Vec<u8>, RunFault>
    ensures { IfOk result (λ text. text.items ≡ text_of_replies (map reply_meant played.now.replies.items)) }
{
    let mut sink = WriteSink::new(Vec::new(alloc));
    write_replies(&mut sink, played)?;
    Ok(sink.into_inner())
}

// What a script's file and a schedule's hold.
#[derive(Clone, Copy)]
struct Contents<'a> {
    script: &'a [u8],
    schedule: &'a [u8],
}

// Answers a script in the order of a schedule, and tells on the error output what did not fit together.
fn played_text<C: TakesTurns, R: Eprint + AllocGlobal>(
    rt: &R,
    name: &str,
    asked: ScheduleAsked<'_>,
    contents: Contents<'_>,
) -> Result<Vec<u8>, Fault>
    ensures text { IfOk result (λ text. IsTextOfFiles contents.entry text.items) }
    ensures fault { IfErr result (λ fault. is_of_output fault ≡ false) }
{
    let Some(version) = spoken(rt, name, asked.version, contents.script) else {
        return Err(Fault::Found);
    };
    let Ok(played) = play_script::<C>(version, rt.alloc(), contents.script, contents.schedule)
    else {
        return Err(Fault::Run(RunFault::Memory));
    };
    note_idle(rt, asked.schedule, &played);
    note_left(rt, name, &played);
    // A text in memory can fail for want of memory alone.
    match replies_text(rt.alloc(), &played) {
        Ok(text) => Ok(text),
        Err(_) => Err(Fault::Run(RunFault::Memory)),
    }
}

// Writes what a script is answered in the order of a schedule.
fn play_contents<C: TakesTurns, R: Eprint + AllocGlobal, W: Write>(
    rt: &R,
    name: &str,
    asked: ScheduleAsked<'_>,
    contents: Contents<'_>,
    output: &mut W,
) -> Result<(), Fault>
    ensures written { OnOk result (WritesText W.contents contents.entry output.old output.new) }
    ensures unwritten { IfErr result (λ fault. is_of_output fault ≡ false → output.new ≡ output.old) }
{
    let text = played_text::<C, _>(rt, name, asked, contents)?;
    match output.write_all(&text) {
        Ok(()) => Ok(()),
        Err(cause) => Err(Fault::Write { cause }),
    }
}

/// Answers the script of a file in turns: each task, and `!`, has a queue of its lines, and each line of a schedule gives
/// one of them a turn. So does `vtree turns FILE SCHEDULE`.
///
/// Lines of the schedule that do nothing, and lines of the script that are not answered, are told on the error output.
/// `Write`: the output failed. With every other fault nothing was written: `Found`, where a file cannot be read, and `Run`
/// with `Memory`, where an allocation failed.
pub fn play<C: TakesTurns, R: Files + Input + Eprint + AllocGlobal, W: Write>(
    rt: &R,
    name: &str,
    asked: ScheduleAsked<'_>,
    output: &mut W,
) -> Result<(), Fault>
    ensures unwritten { IfErr result (λ fault. is_of_output fault ≡ false → output.new ≡ output.old) }
    ensures before_output { IfErr result (λ fault. comes_before_output fault ≡ true → output.new ≡ output.old) }
{
    let (Some(script), Some(schedule)) = (readable(rt, name), readable_schedule(rt, asked.schedule))
    else {
        return Err(Fault::Found);
    };
    let contents = Contents {
        script: &script,
        schedule: &schedule,
    };
    play_contents::<C, _, _>(rt, name, asked, contents, output)
}
