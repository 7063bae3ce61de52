//! A script's lines in their queues, and the turns of a schedule.
ghost use Rattle.std.specs.Prelude.{◌≡◌, IfErr, IfOk, ℕ, map, option_map};
ghost use Rattle.vt_spec.specs.declared.errors.Rule.TheVariants.{S5};
ghost use Rattle.vt_spec.specs.Errors.{denial};
ghost use Rattle.vt_spec.specs.Language.Script.{lines_of, overlays};
ghost use Rattle.vt_spec.specs.Machine.Turns.{queues_of, schedule_who};
ghost use Rattle.vt_line.specs.Versions.{version_of};
ghost use Rattle.vt_queues.specs.QueuesValue.{queues_meant, who_meant};
ghost use Rattle.vt_turns_run.specs.Placed.{IsPlaced, place_meant, refused_short};

use crate::lines::{Asked, read_line};
use std::alloc::{AllocError, Global};
use vt_io::line::LONGEST_LINE;
use vt_line::version::Version;
use vt_lines::lines::first_line;
use vt_queues::{CallLine, Item, Queues, Who, first_named, named};
use vt_spec::errors::{Deny, Rule};

// Where a line stands that is refused: nowhere, if it is too long, or if its first token names neither a task nor `!`.
fn refused(alloc: Global, line: &[u8]) -> Result<Option<(Who, Item)>, AllocError>
    ensures { IfOk result (λ place. (number : ℕ) → place_meant number place ≡ refused_short number line.now) }
{
    if line.len() > LONGEST_LINE {
        return Ok(None);
    }
    match first_named(alloc, line)? {
        Some(who) => Ok(Some((who, Item::Refused(Rule::S1.denial())))),
        None => Ok(None),
    }
}

// Where a line stands, and as what; nowhere, if it has no answer in turns.
#[tactic(auto, using(crate::proofs::Placing::silent_nowhere, crate::proofs::Placing::refused_there, crate::proofs::Placing::directive_there, crate::proofs::Placing::call_there, crate::proofs::Placing::call_line_so))]
fn placed(version: Version, alloc: Global, line: &[u8]) -> Result<Option<(Who, Item)>, AllocError>
    ensures { IfOk result (IsPlaced (version_of version) line.now) }
{
    match read_line(version, alloc, line)? {
        Asked::Silent => Ok(None),
        Asked::Call(name) => {
            let call = CallLine::new(version, alloc, line)?;
            Ok(Some((Who::Task(name), Item::Run(call))))
        }
        Asked::Ask(directive) => Ok(Some((Who::Nobody, Item::Ask(directive)))),
        Asked::Nothing => refused(alloc, line),
    }
}

/// The queues of a script.
///
/// S5 (ENOMEM): an allocation failed.
pub(crate) fn queues_of(version: Version, alloc: Global, script: &[u8]) -> Result<Queues, Deny>
    ensures queues { IfOk result (λ queues. queues_meant queues ≡ queues_of (overlays (version_of version)) script.now) }
    ensures err { IfErr result (λ deny. deny ≡ denial S5) }
{
    let mut queues = Queues::new(alloc);
    let mut rest = script;
    for number in 1..=u64::MAX {
        let Some((line, after)) = first_line(rest) else {
            break;
        };
        if let Some((who, item)) = placed(version, alloc, line)? {
            queues.push(who, number, item)?;
        }
        rest = after;
    }
    Ok(queues)
}

// Whose turn a line of a schedule gives: it is the name of a task or `!`, without spaces or escapes.
fn turn_of(alloc: Global, line: &[u8]) -> Result<Option<Who>, AllocError>
    ensures { IfOk result (λ who. option_map who_meant who ≡ schedule_who line.now) }
{
    if line.len() > LONGEST_LINE {
        return Ok(None);
    }
    named(alloc, line)
}

/// The turns of a schedule; nothing for a line of another form.
pub(crate) fn turns_of(alloc: Global, schedule: &[u8]) -> Result<Vec<Option<Who>>, AllocError>
    ensures { IfOk result (λ turns. map (λ turn. option_map who_meant turn) turns.items
        ≡ map schedule_who (lines_of schedule.now)) }
{
    let mut turns = Vec::new(alloc);
    let mut rest = schedule;
    while let Some((line, after)) = first_line(rest) {
        turns.push(turn_of(alloc, line)?)?;
        rest = after;
    }
    Ok(turns)
}
