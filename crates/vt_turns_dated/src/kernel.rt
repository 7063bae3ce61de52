//! `TurnKernel`.

use std::alloc::{AllocError, Global};
use vt_changes::Dated;
use vt_location::FilesystemId;
use vt_request::{Answer, Call, Directive, TaskName};
use vt_spec::errors::Deny;
use vt_steps::{call_words, may_begin};
use vt_turns::{Numbers, TakesTurns};

/// A kernel with its change numbers, whose tasks make calls in turns: their walks go word by word.
pub struct TurnKernel {
    dated: Dated,
}

impl TakesTurns for TurnKernel {
    ghost use Rattle.vt_turns_dated.specs.Seen.{turn_counters, turn_world};

    ghost world = { turn_world };

    ghost counters = { turn_counters };

    fn opening(alloc: Global) -> Result<TurnKernel, Deny> {
        let dated = Dated::opening(alloc)?;
        Ok(TurnKernel { dated })
    }

    fn alloc(&self) -> Global {
        self.dated.world().alloc()
    }

    fn call(&mut self, name: &TaskName, call: Call<'_>) -> Result<Answer, Deny> {
        self.dated.call(name, call)
    }

    fn direct(&self, directive: &Directive) -> Result<Answer, Deny> {
        self.dated.direct(directive)
    }

    fn numbers_of(&self, name: &TaskName) -> Option<Numbers> {
        let who = self.dated.world().task(name)?;
        let task = self.dated.change_of_task(name)?;
        let namespace = self.dated.change_of_namespace(who.namespace);
        Some(Numbers { task, namespace })
    }

    fn change_of(&self, filesystem: FilesystemId) -> u64 {
        self.dated.change_of_filesystem(filesystem)
    }

    fn may_begin(&self, name: &TaskName, call: &Call<'_>) -> bool {
        match self.dated.world().task(name) {
            Some(who) => may_begin(who, call).is_ok(),
            None => false,
        }
    }

    fn words(
        &self,
        name: &TaskName,
        call: &Call<'_>,
    ) -> Result<Vec<Vec<FilesystemId>>, AllocError> {
        let world = self.dated.world();
        match world.task(name) {
            Some(who) => call_words(world.alloc(), world, who, call),
            None => Ok(Vec::new(world.alloc())),
        }
    }

    fn end(self) {
        let TurnKernel { dated } = self;
        dated.end();
    }
}
