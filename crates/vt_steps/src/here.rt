//! Where walks stand and end, with the filesystems that their words met.
ghost use Rattle.std.specs.Prelude.{◌≡◌, ◌∷◌, Err, IfOk, nat_eq};
ghost use Rattle.vt_location.specs.Locations.{location_of};
ghost use Rattle.vt_spec.specs.Machine.Walking.{all_met, start_of, walk_start};
ghost use Rattle.vt_tasks.specs.TaskValue.{task_of};
ghost use Rattle.vt_steps.specs.declared.here.Halt.TheVariants.{Refused};
ghost use Rattle.vt_steps.specs.StepsValue.{here_of, met_of, steps_of};

use crate::over::LookOver;
use std::alloc::{AllocError, Global};
use vt_location::{FilesystemId, Location};
use vt_looks::Place;
use vt_spec::errors::Deny;
use vt_tasks::Task;
use vt_text::link;

/// For each word walked, from the first to the last, the filesystems that it met.
pub type Steps = Vec<Vec<FilesystemId>>;

// The most symlinks that are followed for one path: MAXSYMLINKS, path_resolution(7).
pub(crate) const MOST_LINKS: usize = 40;

// Whose paths are walked, and in which world.
#[derive(Drop)]
pub(crate) struct Walker<'a, L: LookOver> {
    pub(crate) alloc: Global,
    pub(crate) world: &'a L,
    pub(crate) who: &'a Task,
}

// Where a walk stands, how many symlinks it may still follow, and its words so far.
#[derive(Debug, Drop)]
pub(crate) struct Here {
    pub(crate) location: Location,
    pub(crate) left: usize,
    pub(crate) steps: Steps,
}

// Where a parent walk ends, and its words.
#[derive(Debug, Drop)]
pub(crate) struct Named<'a> {
    pub(crate) place: Place<'a>,
    pub(crate) steps: Steps,
}

// Where a walk was refused, that word among those walked.
#[derive(Debug, Drop)]
pub(crate) struct Stop {
    pub(crate) deny: Deny,
    pub(crate) steps: Steps,
}

// Why a walk did not reach its end.
#[derive(Debug, Drop)]
pub(crate) enum Halt {
    Refused(Stop),
    NoMemory(AllocError),
}

impl From<AllocError> for Halt {
    ghost use Rattle.vt_steps.specs.StepsValue.{IsNoMemory};

    ghost from_gives = { λ _ halt. IsNoMemory halt };

    fn from(fault: AllocError) -> Halt {
        Halt::NoMemory(fault)
    }
}

// The refusal of a walk.
pub(crate) fn refused<T>(deny: Deny, steps: Steps) -> Result<T, Halt>
    ensures { result ≡ Err (Refused (record { deny = deny; steps = steps })) }
{
    Err(Halt::Refused(Stop { deny, steps }))
}

// Where a path begins: at the task's root or in its working directory.
pub(crate) fn walk_start(alloc: Global, who: &Task, path: &[u8]) -> Here
    ensures { here_of result ≡ walk_start (task_of who.now) path.now }
{
    Here {
        location: start_of(who, who.directory, path),
        left: MOST_LINKS,
        steps: Vec::new(alloc),
    }
}

// Where the walk of a text begins: of an absolute one at the task's root, of any other in a directory.
pub(crate) fn start_of(who: &Task, directory: Location, text: &[u8]) -> Location
    ensures { location_of result ≡ start_of (task_of who.now) (location_of directory) text.now }
{
    if link::is_absolute(text) {
        who.root
    } else {
        directory
    }
}

// One more word.
pub(crate) fn with_word(mut steps: Steps, met: Vec<FilesystemId>) -> Result<Steps, AllocError>
    ensures { IfOk result (λ all. steps_of all ≡ met_of met ∷ steps_of steps) }
{
    steps.push(met)?;
    Ok(steps)
}

// The last word meets these too; before the first word nothing is met.
pub(crate) fn with_met(mut steps: Steps, mut met: Vec<FilesystemId>) -> Result<Steps, AllocError>
    ensures { IfOk result (λ all. steps_of all ≡ all_met (met_of met) (steps_of steps)) }
{
    if let Some(last) = steps.pop() {
        met.extend_from_slice(&last)?;
        steps.push(met)?;
    }
    Ok(steps)
}
