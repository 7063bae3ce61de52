//! The words of a path, as it is walked for one thing or another.
ghost use Rattle.std.specs.Prelude.{◌≡◌, nat_eq, reverse, IfOk, Result, ℕ};
ghost use Rattle.vt_spec.specs.Machine.Walking.{Here as HereMeant, Place as PlaceMeant, Stop as StopMeant};
ghost use Rattle.vt_spec.specs.PathText.{ends_in_slash};
ghost use Rattle.vt_tasks.specs.TaskValue.{task_of};
ghost use Rattle.vt_steps.specs.StepsValue.{Ends, EndsAtPlace};
ghost use Rattle.vt_steps.specs.RouteValue.{all_walked, here_words, name_walked, place_words, symlink_or_all, unfollowed, whole_file_walked, words_in};

use crate::here::{Halt, Here, Named, Steps, Walker, walk_start};
use crate::over::LookOver;
use crate::places::{file_walked, placed};
use crate::words::{MOST_TEXTS, Prefix, last_walked, prefix_walked, words_walked};
use std::alloc::AllocError;
use vt_text::path::PathText;

// The words of a walk, up to one that is refused.
fn here_steps(walk: Result<Here, Halt>) -> Result<Steps, AllocError>
    ensures { (end : Result (HereMeant ℕ) (StopMeant ℕ)) → Ends end walk
        → IfOk result (λ steps. words_in steps ≡ reverse (here_words end)) }
{
    match walk {
        Ok(here) => Ok(here.steps),
        Err(Halt::Refused(stop)) => Ok(stop.steps),
        Err(Halt::NoMemory(fault)) => Err(fault),
    }
}

// The same of a parent walk.
fn named_steps(walk: Result<Named<'_>, Halt>) -> Result<Steps, AllocError>
    ensures { (end : Result (PlaceMeant ℕ) (StopMeant ℕ)) → EndsAtPlace end walk.entry
        → IfOk result (λ steps. words_in steps ≡ reverse (place_words end)) }
{
    match walk {
        Ok(named) => Ok(named.steps),
        Err(Halt::Refused(stop)) => Ok(stop.steps),
        Err(Halt::NoMemory(fault)) => Err(fault),
    }
}

// Where all words of a path lead.
fn object_walked<L: LookOver>(walker: &Walker<'_, L>, path: &PathText<'_>) -> Result<Here, Halt>
    ensures { Ends (all_walked (L.looks walker.now.world.now) (task_of walker.now.who.now) path.now) result }
{
    let start = walk_start(walker.alloc, walker.who, path.as_bytes());
    words_walked(walker, start, path.words(), MOST_TEXTS)
}

/// The words of a path to an object, a final symlink followed.
pub(crate) fn object_steps<L: LookOver>(
    walker: &Walker<'_, L>,
    path: &PathText<'_>,
) -> Result<Steps, AllocError>
    ensures { IfOk result (λ steps. words_in steps
        ≡ reverse (here_words (all_walked (L.looks walker.now.world.now)
        (task_of walker.now.who.now) path.now))) }
{
    here_steps(object_walked(walker, path))
}

// As `symlink_steps`, of a path with no slash behind it.
fn symlink_walked<L: LookOver>(walker: &Walker<'_, L>, path: &PathText<'_>) -> Result<Here, Halt>
    ensures { Ends (unfollowed (L.looks walker.now.world.now) (task_of walker.now.who.now) path.now) result }
{
    let text = path.as_bytes();
    let start = walk_start(walker.alloc, walker.who, text);
    let Prefix { here, last } = prefix_walked(walker, start, text)?;
    last_walked(walker, here, last)
}

/// The words of a path to an object, a final symlink followed only if a slash follows it.
pub(crate) fn symlink_steps<L: LookOver>(
    walker: &Walker<'_, L>,
    path: &PathText<'_>,
) -> Result<Steps, AllocError>
    ensures { IfOk result (λ steps. words_in steps
        ≡ reverse (here_words (symlink_or_all (L.looks walker.now.world.now) (task_of walker.now.who.now)
        (ends_in_slash path.now) path.now))) }
{
    if path.ends_in_slash() {
        return object_steps(walker, path);
    }
    here_steps(symlink_walked(walker, path))
}

// Where a parent walk ends.
fn place_walked<'a, L: LookOver>(
    walker: &Walker<'_, L>,
    path: &PathText<'a>,
) -> Result<Named<'a>, Halt>
    ensures { EndsAtPlace (name_walked (L.looks walker.now.world.now) (task_of walker.now.who.now)
        path.now) result }
{
    let text = path.as_bytes();
    let start = walk_start(walker.alloc, walker.who, text);
    let Prefix { here, last } = prefix_walked(walker, start, text)?;
    placed(walker, here, last, path.ends_in_slash())
}

/// The words of a path whose last word is a name.
pub(crate) fn place_steps<L: LookOver>(
    walker: &Walker<'_, L>,
    path: &PathText<'_>,
) -> Result<Steps, AllocError>
    ensures { IfOk result (λ steps. words_in steps
        ≡ reverse (place_words (name_walked (L.looks walker.now.world.now)
        (task_of walker.now.who.now) path.now))) }
{
    named_steps(place_walked(walker, path))
}

// The place of a file that is opened or made.
fn whole_file_walked<'a, L: LookOver>(
    walker: &Walker<'a, L>,
    path: &PathText<'a>,
) -> Result<Named<'a>, Halt>
    ensures { EndsAtPlace (whole_file_walked (L.looks walker.now.world.now)
        (task_of walker.now.who.now) path.now) result }
{
    let text = path.as_bytes();
    let start = walk_start(walker.alloc, walker.who, text);
    file_walked(walker, start, text, false, MOST_TEXTS)
}

/// The words of a path to a file that is opened or made.
pub(crate) fn file_steps<L: LookOver>(
    walker: &Walker<'_, L>,
    path: &PathText<'_>,
) -> Result<Steps, AllocError>
    ensures { IfOk result (λ steps. words_in steps
        ≡ reverse (place_words (whole_file_walked (L.looks walker.now.world.now)
        (task_of walker.now.who.now) path.now))) }
{
    named_steps(whole_file_walked(walker, path))
}
