//! A world and the calls that are under way in it.
ghost use Rattle.std.specs.Prelude.{◌≡◌, ◌<◌, ◌||◌, IfOk, IfSome, Option, Some, false, find, is_err, is_some, length, map, nat_eq, not, position};
ghost use Rattle.vt_spec.specs.Language.Calls as spec;
ghost use Rattle.vt_spec.specs.Language.Calls.{same_name};
ghost use Rattle.vt_spec.specs.Language.Script.Who.{Someone};
ghost use Rattle.vt_spec.specs.Machine.Turns.{item_turn};
ghost use Rattle.vt_request.specs.Requests.{call_of};
ghost use Rattle.vt_queues.specs.QueuesValue.{call_in, called, item_meant, who_meant};
ghost use Rattle.vt_turns.specs.Kept.{AllKeepWords, HasFirst, Walks, calls_after, is_going, others, progress_of, without_words};
ghost use Rattle.vt_turns.specs.Ends.{EndsDated, IsReady};
ghost use Rattle.vt_turns.specs.SchedValue.{sched_at};
ghost use Rattle.vt_turns.specs.Turned.{RunsWhole, Turns, allocates};

use crate::progress::UnderWay;
use crate::walking::walked;
use crate::world::TakesTurns;
use std::alloc::AllocError;
use vt_line::line::Unescaped;
use vt_queues::{CallLine, Item, Who};
use vt_request::{Answer, Call, TaskName};
use vt_spec::errors::{Deny, Rule};

/// A world, and the calls that are under way in it.
#[derive(Drop)]
pub(crate) struct State<C> {
    pub(crate) world: C,
    pub(crate) under_way: Vec<UnderWay>,
}

// Drops the calls of a task.
fn drop_of(under_way: &mut Vec<UnderWay>, name: &TaskName)
    ensures { under_way.new.items ≡ others name.now under_way.old.items }
{
    under_way.retain(
        |held: &UnderWay| -> bool
            ensures { result ≡ not (same_name name.entry.now held.now.progress.task) }
        { *name != held.progress.task },
    );
}

// The place of a task's call that is under way.
fn place_of(under_way: &[UnderWay], name: &TaskName) -> Option<usize>
    ensures place { result ≡ position (λ held. same_name name.now held.progress.task) under_way.now }
    ensures within { IfSome result (λ place. place < length under_way.now) }
{
    under_way
        .iter()
        .position(|held| *name == held.progress.task)
}

// Takes the calls of a task away, and gives the first one back.
fn take_of(under_way: &mut Vec<UnderWay>, name: &TaskName) -> Option<UnderWay>
    ensures found { result ≡ find (λ held. same_name name.now held.progress.task) under_way.old.items }
    ensures left { under_way.new.items ≡ others name.now under_way.old.items }
{
    let place = place_of(under_way, name)?;
    let held = under_way.remove(place);
    drop_of(under_way, name);
    Some(held)
}

impl UnderWay {
    // Gives its words up.
    fn forget_words(&mut self)
        ensures { self.new ≡ without_words self.old }
    {
        self.words = None;
    }
}

// Gives all words up.
fn forget_words(under_way: &mut Vec<UnderWay>)
    ensures { under_way.new.items ≡ map without_words under_way.old.items }
{
    for held in under_way.iter_mut() {
        held.forget_words();
    }
}

// Whether a call leaves the world as it was: one that only looks, or was refused.
fn changes_nothing(looks: bool, ended: &Result<Answer, Deny>) -> bool
    ensures { result ≡ (looks || is_err ended.now) }
{
    looks || ended.is_err()
}

impl<C: TakesTurns> State<C> {
    // Walks the next word of a task's call, and tells whether it goes on; if not, it is no longer under way.
    fn walk(&mut self, name: &TaskName, line: &CallLine) -> Result<bool, AllocError>
        ensures world { self.new.world ≡ self.old.world }
        ensures walks { (calls : spec.TaskName → Option spec.Call) (call : spec.Call) → call_in line.now ≡ Some call
            → calls name.now ≡ Some call → AllKeepWords (C.world self.old.world) calls self.old.under_way.items
            → IfOk result (λ goes_on. Walks (C.world self.old.world) name.now call calls self.old.under_way.items
            goes_on self.new.under_way.items) }
        ensures left { is_going result ≡ false → self.new.under_way.items ≡ others name.now self.old.under_way.items }
    {
        let held = take_of(&mut self.under_way, name);
        let Some(next) = walked(&self.world, name, line, held)? else {
            return Ok(false);
        };
        self.under_way.insert(0, next)?;
        Ok(true)
    }

    // Runs a task's call whole. If it may have changed the world, no words of other calls are known any longer.
    fn run_call(&mut self, name: &TaskName, call: Call<'_>) -> Result<Answer, Deny>
        ensures ends { EndsDated C.world self.old.world name.now (call_of call.entry) result self.new.world }
        ensures under_way { map progress_of self.new.under_way.items ≡ map progress_of self.old.under_way.items }
        ensures words { (calls : spec.TaskName → Option spec.Call)
            → AllKeepWords (C.world self.old.world) calls self.old.under_way.items
            → AllKeepWords (C.world self.new.world) calls self.new.under_way.items }
    {
        let looks = call.only_looks();
        let ended = self.world.call(name, call);
        if changes_nothing(looks, &ended) {
            return ended;
        }
        forget_words(&mut self.under_way);
        ended
    }

    // Runs the call that a line asks for whole.
    fn run(&mut self, name: &TaskName, line: &CallLine) -> Result<Answer, Deny>
        ensures ends { (call : spec.Call) → call_in line.now ≡ Some call
            → RunsWhole C.world self.old.world name.now call result self.new.world }
        ensures under_way { map progress_of self.new.under_way.items ≡ map progress_of self.old.under_way.items }
        ensures words { (calls : spec.TaskName → Option spec.Call)
            → AllKeepWords (C.world self.old.world) calls self.old.under_way.items
            → AllKeepWords (C.world self.new.world) calls self.new.under_way.items }
    {
        let mut texts: Option<Unescaped> = None;
        match line.call(self.world.alloc(), &mut texts) {
            Ok(call) => self.run_call(name, call),
            Err(error) => Err(Deny::from(error)),
        }
    }

    // The turn of the call that a line in a task's queue asks for: `None` where it goes on in a later one. S5 (ENOMEM):
    // an allocation failed, and the call has no effect.
    fn turn_of_tasks_line(
        &mut self,
        name: &TaskName,
        line: &CallLine,
    ) -> Option<Result<Answer, Deny>>
        ensures turns { (calls : spec.TaskName → Option spec.Call) → calls name.now ≡ call_in line.now
            → AllKeepWords (C.world self.old.world) calls self.old.under_way.items → IsReady (C.world self.old.world)
            → Turns C.world (λ queues number fresh. item_turn nat_eq (sched_at C.world self.old queues) (Someone name.now)
            number (called (call_in line.now)) fresh) (allocates (Someone name.now) (called (call_in line.now)))
            (Someone name.now) self.old result self.new }
        ensures words { (calls : spec.TaskName → Option spec.Call) → calls name.now ≡ call_in line.now
            → AllKeepWords (C.world self.old.world) calls self.old.under_way.items
            → AllKeepWords (C.world self.new.world) (calls_after (Someone name.now) (is_some result) calls)
            self.new.under_way.items }
    {
        match self.walk(name, line) {
            Ok(true) => None,
            Ok(false) => Some(self.run(name, line)),
            Err(error) => Some(Err(Deny::from(error))),
        }
    }

    // The turn of the call that a line asks for; in the queue of `!` it is nobody's.
    fn turn_of_line(&mut self, who: &Who, line: &CallLine) -> Option<Result<Answer, Deny>>
        ensures turns { (calls : spec.TaskName → Option spec.Call)
            → HasFirst calls (who_meant who.now) (called (call_in line.now))
            → AllKeepWords (C.world self.old.world) calls self.old.under_way.items → IsReady (C.world self.old.world)
            → Turns C.world (λ queues number fresh. item_turn nat_eq (sched_at C.world self.old queues)
            (who_meant who.now) number (called (call_in line.now)) fresh)
            (allocates (who_meant who.now) (called (call_in line.now))) (who_meant who.now) self.old result self.new }
        ensures words { (calls : spec.TaskName → Option spec.Call)
            → HasFirst calls (who_meant who.now) (called (call_in line.now))
            → AllKeepWords (C.world self.old.world) calls self.old.under_way.items
            → AllKeepWords (C.world self.new.world) (calls_after (who_meant who.now) (is_some result) calls)
            self.new.under_way.items }
    {
        match who {
            Who::Task(name) => self.turn_of_tasks_line(name, line),
            Who::Nobody => Some(Err(Rule::S2.denial())),
        }
    }

    /// The turn of what is first in a queue: what it is answered, or `None` where it goes on in a later turn.
    ///
    /// S5 (ENOMEM): an allocation failed, and a call has no effect.
    pub(crate) fn turn(&mut self, who: &Who, item: &Item) -> Option<Result<Answer, Deny>>
        ensures turns { (calls : spec.TaskName → Option spec.Call) → HasFirst calls (who_meant who.now) (item_meant item.now)
            → AllKeepWords (C.world self.old.world) calls self.old.under_way.items → IsReady (C.world self.old.world)
            → Turns C.world (λ queues number fresh. item_turn nat_eq (sched_at C.world self.old queues)
            (who_meant who.now) number (item_meant item.now) fresh) (allocates (who_meant who.now) (item_meant item.now))
            (who_meant who.now) self.old result self.new }
        ensures words { (calls : spec.TaskName → Option spec.Call) → HasFirst calls (who_meant who.now) (item_meant item.now)
            → AllKeepWords (C.world self.old.world) calls self.old.under_way.items
            → AllKeepWords (C.world self.new.world) (calls_after (who_meant who.now) (is_some result) calls)
            self.new.under_way.items }
    {
        match item {
            Item::Refused(deny) => Some(Err(*deny)),
            Item::Ask(directive) => Some(self.world.direct(directive)),
            Item::Run(line) => self.turn_of_line(who, line),
        }
    }

    /// Frees the world.
    pub(crate) fn end(self) {
        let State {
            world,
            under_way: _under_way,
        } = self;
        world.end();
    }
}
