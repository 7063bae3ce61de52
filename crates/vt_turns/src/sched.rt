//! The scheduler: a world, the queues, and the calls under way.
ghost use Rattle.std.specs.Prelude.{◌+◌, ◌<◌, ◌≡◌, ◌≤◌, IfErr, IfOk, OnErr, is_some, map, option_map, vec_capacity, vec_len};
ghost use Rattle.vt_spec.specs.declared.errors.Rule.TheVariants.{S5};
ghost use Rattle.vt_spec.specs.Errors.{denial};
ghost use Rattle.vt_spec.specs.Language.Script.Who.{Nobody, Someone};
ghost use Rattle.vt_spec.specs.Lists.{first_of_list};
ghost use Rattle.vt_spec.specs.Machine.Turns.{queue_of};
ghost use Rattle.vt_laws_turns.specs.Restarts.{IsSched};
ghost use Rattle.vt_queues.specs.QueuesValue.{who_meant};
ghost use Rattle.vt_turns.specs.Ends.{IsReady};
ghost use Rattle.vt_turns.specs.SchedValue.{begins, reply_meant, sched_meant};
ghost use Rattle.vt_turns.specs.Turned.{AreRunWhole, PlaysAs, RestartsFew, TurnsAndKeeps, TurnsAs};

use crate::state::State;
use crate::world::TakesTurns;
use std::marker::Model;
use vt_queues::{Queues, Who};
use vt_request::{Answer, TaskName};
use vt_spec::errors::Deny;

/// What a line is answered.
#[derive(Debug, Drop)]
pub struct Reply {
    pub line: u64,
    pub answer: Result<Answer, Deny>,
}

/// A world in which calls are made in turns.
#[derive(Drop)]
pub struct Sched<C: TakesTurns> {
    queues: Queues,
    state: State<C>,
}

impl<C: TakesTurns> Model for Sched<C> {
    ghost use Rattle.vt_turns.specs.SchedValue.{Sched};

    ghost Value = { Sched C };

    ghost view = { λ sched. record { queues = sched.queues; state = sched.state } };

    ghost use Rattle.vt_queues.specs.QueuesValue.{queues_meant};
    ghost use Rattle.vt_turns.specs.Kept.{AllKeepWords, first_call};

    ghost invariant = { λ sched. AllKeepWords (C.world sched.state.world) (first_call (queues_meant sched.queues))
        sched.state.under_way.items };
}

impl<C: TakesTurns> Sched<C> {
    /// Queues before their first turn in a world. It does not allocate.
    pub fn new(world: C, queues: Queues) -> Self
        ensures state { sched_meant C.world result ≡ begins (C.world world) queues }
        ensures conditions { IsSched (sched_meant C.world result) }
    {
        let under_way = Vec::new(world.alloc());
        Sched {
            queues,
            state: State { world, under_way },
        }
    }

    /// Whether an item waits in a queue.
    pub fn waits(&self, who: &Who) -> bool
        ensures { result ≡ is_some (first_of_list (queue_of (sched_meant C.world self.now).queues (who_meant who.now))) }
    {
        self.queues.first(who).is_some()
    }

    /// One turn of a task, or of `!`: `turn` or `turn_directive`.
    pub fn take_turn(&mut self, who: &Who) -> Option<Reply>
        ensures { IsReady (C.world self.old.state.world)
            → TurnsAs C.world self.old (who_meant who.now) (option_map reply_meant result) self.new }
    {
        let first = self.queues.first(who)?;
        let line = first.line;
        let answer = self.state.turn(who, &first.item)?;
        self.queues.shorten(who);
        Some(Reply { line, answer })
    }

    /// One turn of a task: the next word of the first call in its queue is walked, or the call is judged and done. One
    /// for an empty queue does nothing.
    ///
    /// Where an allocation fails the call is answered by S5 (ENOMEM), and has no effect.
    pub fn turn(&mut self, name: TaskName) -> Option<Reply>
        ensures { IsReady (C.world self.old.state.world)
            → TurnsAs C.world self.old (Someone name) (option_map reply_meant result) self.new }
    {
        self.take_turn(&Who::Task(name))
    }

    /// One turn of the queue of `!`.
    ///
    /// Where an allocation fails `! peers` is answered by S5 (ENOMEM).
    pub fn turn_directive(&mut self) -> Option<Reply>
        ensures { IsReady (C.world self.old.state.world)
            → TurnsAs C.world self.old Nobody (option_map reply_meant result) self.new }
    {
        self.take_turn(&Who::Nobody)
    }

    /// One turn as `take_turn`, whose reply, if it has one, is put behind others, for which there is room.
    pub fn take_and_keep(&mut self, who: &Who, replies: &mut Vec<Reply>)
        requires { vec_len replies.old < vec_capacity replies.old }
        ensures turns { IsReady (C.world self.old.state.world)
            → TurnsAndKeeps C.world self.old (who_meant who.now) replies.old.items replies.new.items self.new }
        ensures len { vec_len replies.new ≤ vec_len replies.old + 1 }
        ensures capacity { vec_capacity replies.old ≤ vec_capacity replies.new }
    {
        let Some(reply) = self.take_turn(who) else {
            return;
        };
        let _kept = replies.push(reply);
    }

    /// The turns of a schedule, one after the other, and what they reply.
    ///
    /// S5 (ENOMEM): there was no room for the replies; no turn was taken.
    pub fn play(&mut self, schedule: &[Who]) -> Result<Vec<Reply>, Deny>
        ensures plays { IsReady (C.world self.old.state.world)
            → IfOk result (λ replies. PlaysAs C.world self.old (map who_meant schedule.now)
            (map reply_meant replies.items) self.new) }
        ensures whole { IsReady (C.world self.old.state.world)
            → IfOk result (λ replies. AreRunWhole C.world self.old (map who_meant schedule.now)
            (map reply_meant replies.items) self.new) }
        ensures restarts { IsReady (C.world self.old.state.world) → IsSched (sched_meant C.world self.old)
            → IfOk result (λ replies. RestartsFew C.world self.old (map who_meant schedule.now)
            (map reply_meant replies.items) self.new) }
        ensures err { IfErr result (λ deny. deny ≡ denial S5) }
        ensures unchanged { OnErr result (self.new ≡ self.old) }
    {
        let mut replies = Vec::with_capacity(self.state.world.alloc(), schedule.len())?;
        for who in schedule {
            self.take_and_keep(who, &mut replies);
        }
        Ok(replies)
    }

    /// How many items wait.
    pub fn count_waiting(&self) -> usize {
        self.queues.count()
    }

    /// Appends the lines of the items that wait, queue by queue, for as many as there is room.
    pub fn push_waiting(&self, lines: &mut Vec<u64>) {
        self.queues.push_lines(lines);
    }

    /// Frees the world and the queues.
    pub fn end(self) {
        let Sched {
            queues: _queues,
            state,
        } = self;
        state.end();
    }
}
