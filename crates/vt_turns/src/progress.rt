//! Calls under way.
ghost use Rattle.std.specs.Prelude.{◌≡◌, IfOk, OnOk, map, nat_eq};
ghost use Rattle.std.specs.List.{list_any};
ghost use Rattle.vt_spec.specs.Machine.Turns.{is_stale, one_further};
ghost use Rattle.vt_location.specs.Numbers.{filesystem_number};
ghost use Rattle.vt_turns.specs.Going.{also_holding, begun, overtaken_in};
ghost use Rattle.vt_turns.specs.ProgressValue.{is_stale_in, progress_meant};

use crate::world::TakesTurns;
use std::alloc::{AllocError, Global};
use vt_location::FilesystemId;
use vt_request::TaskName;

/// The change numbers of a task and of its namespace.
#[derive(Clone, Copy, Debug)]
pub struct Numbers {
    pub task: u64,
    pub namespace: u64,
}

// The first call of a task's queue under way: how many of its words were walked, how often it restarted, and the change
// numbers that it holds: of its task and namespace, and of each filesystem on its way, as first met.
#[derive(Debug, Drop)]
pub(crate) struct Progress {
    pub(crate) task: TaskName,
    pub(crate) walked: u64,
    pub(crate) restarts: u64,
    pub(crate) numbers: Numbers,
    pub(crate) filesystems: Vec<(FilesystemId, u64)>,
}

/// For each word of a call, the filesystems that it meets.
pub(crate) type Words = Vec<Vec<FilesystemId>>;

// A call under way, and its words, where they are known: in the world as it is now.
#[derive(Debug, Drop)]
pub(crate) struct UnderWay {
    pub(crate) progress: Progress,
    pub(crate) words: Option<Words>,
}

// Whether a change number that is held has another value now, or can rise no more.
fn is_stale(held: u64, now: u64) -> bool
    ensures { result ≡ is_stale held now }
{
    held != now || now == u64::MAX
}

impl Progress {
    // A call before its first word.
    pub(crate) fn begun(
        alloc: Global,
        name: &TaskName,
        numbers: Numbers,
        restarts: u64,
    ) -> Result<Progress, AllocError>
        ensures { IfOk result (λ made. progress_meant made ≡ begun name.now numbers restarts) }
    {
        Ok(Progress {
            task: name.clone()?,
            walked: 0,
            restarts,
            numbers,
            filesystems: Vec::new(alloc),
        })
    }

    // Whether one of the numbers held is another now, or can rise no more.
    #[tactic(auto, using(crate::proofs::Mapped::any_stale))]
    pub(crate) fn is_overtaken<C: TakesTurns>(&self, world: &C, numbers: Numbers) -> bool
        ensures { result ≡ overtaken_in (C.world world.now) numbers (progress_meant self.now) }
    {
        is_stale(self.numbers.task, numbers.task)
            || is_stale(self.numbers.namespace, numbers.namespace)
            || self.has_stale_filesystem(world)
    }

    // Whether the number of a filesystem that is held is another now, or can rise no more.
    fn has_stale_filesystem<C: TakesTurns>(&self, world: &C) -> bool
        ensures { result ≡ list_any (is_stale_in (C.world world.now)) self.now.filesystems.items }
    {
        self.filesystems
            .iter()
            .any(|held| is_stale(held.1, world.change_of(held.0)))
    }

    // Whether the number of a filesystem is held.
    fn holds(&self, filesystem: FilesystemId) -> bool
        ensures { result ≡ list_any (λ held. nat_eq filesystem.count held.0.count) self.now.filesystems.items }
    {
        self.filesystems
            .iter()
            .any(|held| filesystem.count == held.0.count)
    }

    // Holds the number of a filesystem, if it is met for the first time.
    fn hold<C: TakesTurns>(&mut self, world: &C, filesystem: FilesystemId) -> Result<(), AllocError>
        ensures { OnOk result (progress_meant self.new
            ≡ also_holding (C.world world.now) (progress_meant self.old) (filesystem_number filesystem)) }
    {
        if self.holds(filesystem) {
            return Ok(());
        }
        let change = world.change_of(filesystem);
        self.filesystems.push((filesystem, change))?;
        Ok(())
    }

    // One word more was walked, and what it met is held. A call of so many words that they cannot be counted is out of
    // memory.
    pub(crate) fn one_further<C: TakesTurns>(
        mut self,
        world: &C,
        met: &[FilesystemId],
    ) -> Result<Progress, AllocError>
        ensures { IfOk result (λ made. progress_meant made
            ≡ one_further nat_eq (C.world world.now) (map filesystem_number met.now) (progress_meant self)) }
    {
        if self.walked == u64::MAX {
            return Err(AllocError);
        }
        for filesystem in met {
            self.hold(world, *filesystem)?;
        }
        self.walked += 1;
        Ok(self)
    }
}
