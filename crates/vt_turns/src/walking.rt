//! The next word of a call.
ghost use Rattle.std.specs.Prelude.{◌≡◌, IfOk, IfSome, Some, if◌then◌else◌, option_map};
ghost use Rattle.vt_spec.specs.Language.Calls.{Call};
ghost use Rattle.vt_queues.specs.QueuesValue.{call_in};
ghost use Rattle.vt_turns.specs.Going.{AreWords, again_in, first_in, further_in, overtaken_in, walked_by};
ghost use Rattle.vt_turns.specs.Kept.{GoesOn, IsOf, IsOfIt, progress_of};
ghost use Rattle.vt_turns.specs.ProgressValue.{progress_meant, words_meant};

use crate::progress::{Numbers, Progress, UnderWay, Words};
use crate::world::TakesTurns;
use std::alloc::AllocError;
use vt_line::line::Unescaped;
use vt_queues::CallLine;
use vt_request::TaskName;

// The most times that a call restarts.
const MOST_RESTARTS: u64 = 3;

// The next word of a call walked, which has these words; `None` where this turn is its last.
fn further<C: TakesTurns>(
    world: &C,
    progress: Progress,
    words: Words,
) -> Result<Option<UnderWay>, AllocError>
    ensures { (call : Call) → AreWords (C.world world.now) progress.task call (words_meant words)
        → IfOk result (GoesOn (C.world world.now) progress.task call
        (further_in (C.world world.now) call (progress_meant progress))) }
{
    let Some(met) = words.get(progress.walked as usize) else {
        return Ok(None);
    };
    let progress = progress.one_further(world, met)?;
    Ok(Some(UnderWay {
        progress,
        words: Some(words),
    }))
}

// The words of the call that a line asks for.
fn words_of<C: TakesTurns>(world: &C, name: &TaskName, line: &CallLine) -> Result<Words, AllocError>
    ensures { (call : Call) → call_in line.now ≡ Some call
        → IfOk result (λ words. AreWords (C.world world.now) name.now call (words_meant words)) }
{
    let mut texts: Option<Unescaped> = None;
    let call = line.call(world.alloc(), &mut texts)?;
    world.words(name, &call)
}

// The words of the call that a line asks for, which may be known.
fn known_or_walked<C: TakesTurns>(
    world: &C,
    name: &TaskName,
    line: &CallLine,
    known: Option<Words>,
) -> Result<Words, AllocError>
    ensures { (call : Call) → call_in line.now ≡ Some call
        → IfSome known (λ words. AreWords (C.world world.now) name.now call (words_meant words))
        → IfOk result (λ words. AreWords (C.world world.now) name.now call (words_meant words)) }
{
    match known {
        Some(words) => Ok(words),
        None => words_of(world, name, line),
    }
}

// The next word of a call walked, in the world as it is now.
fn next_word<C: TakesTurns>(
    world: &C,
    line: &CallLine,
    held: UnderWay,
) -> Result<Option<UnderWay>, AllocError>
    ensures { (call : Call) → call_in line.now ≡ Some call
        → IsOf (C.world world.now) held.progress.task call held
        → IfOk result (GoesOn (C.world world.now) held.progress.task call
        (further_in (C.world world.now) call (progress_meant held.progress))) }
{
    let UnderWay { progress, words } = held;
    let words = known_or_walked(world, &progress.task, line, words)?;
    further(world, progress, words)
}

// The first word walked, unless a rule refuses the call before it.
fn first_turn<C: TakesTurns>(
    world: &C,
    name: &TaskName,
    line: &CallLine,
    numbers: Numbers,
    restarts: u64,
) -> Result<Option<UnderWay>, AllocError>
    ensures { (call : Call) → call_in line.now ≡ Some call → IfOk result (GoesOn (C.world world.now) name.now call
        (first_in (C.world world.now) call name.now numbers restarts)) }
{
    let mut texts: Option<Unescaped> = None;
    let call = line.call(world.alloc(), &mut texts)?;
    if !world.may_begin(name, &call) {
        return Ok(None);
    }
    let words = world.words(name, &call)?;
    let progress = Progress::begun(world.alloc(), name, numbers, restarts)?;
    further(world, progress, words)
}

// What a turn leaves of a call that is under way; `None` where it is run whole.
fn gone_on<C: TakesTurns>(
    world: &C,
    name: &TaskName,
    line: &CallLine,
    numbers: Numbers,
    held: UnderWay,
) -> Result<Option<UnderWay>, AllocError>
    ensures { (call : Call) → call_in line.now ≡ Some call → IsOf (C.world world.now) name.now call held
        → IfOk result (GoesOn (C.world world.now) name.now call
        (if overtaken_in (C.world world.now) numbers (progress_meant held.progress)
        then again_in (C.world world.now) call name.now numbers (progress_meant held.progress)
        else further_in (C.world world.now) call (progress_meant held.progress))) }
{
    if !held.progress.is_overtaken(world, numbers) {
        return next_word(world, line, held);
    }
    if held.progress.restarts >= MOST_RESTARTS {
        return Ok(None);
    }
    first_turn(world, name, line, numbers, held.progress.restarts + 1)
}

/// What a turn leaves of a task's call, of which this is under way; `None` where it is run whole.
pub(crate) fn walked<C: TakesTurns>(
    world: &C,
    name: &TaskName,
    line: &CallLine,
    held: Option<UnderWay>,
) -> Result<Option<UnderWay>, AllocError>
    ensures { (call : Call) → call_in line.now ≡ Some call → IsOfIt (C.world world.now) name.now call held
        → IfOk result (GoesOn (C.world world.now) name.now call
        (walked_by (C.world world.now) name.now call (option_map progress_of held))) }
{
    let Some(numbers) = world.numbers_of(name) else {
        return Ok(None);
    };
    match held {
        Some(held) => gone_on(world, name, line, numbers, held),
        None => first_turn(world, name, line, numbers, 0),
    }
}
