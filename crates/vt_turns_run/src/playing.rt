//! A script played in the order of a schedule.
ghost use Rattle.std.specs.Prelude.{◌+◌, ◌<◌, ◌≡◌, ◌≤◌, IfErr, IfOk, map, vec_capacity, vec_len};
ghost use Rattle.vt_spec.specs.declared.errors.Rule.TheVariants.{S5};
ghost use Rattle.vt_spec.specs.Errors.{denial};
ghost use Rattle.vt_laws_turns.specs.Commits.{text_of_replies};
ghost use Rattle.vt_line.specs.Versions.{version_of};
ghost use Rattle.vt_queues.specs.QueuesValue.{who_meant};
ghost use Rattle.vt_turns.specs.Ends.{IsReady};
ghost use Rattle.vt_turns.specs.SchedValue.{reply_meant, sched_meant};
ghost use Rattle.vt_turns.specs.Turned.{PlaysAs, TurnsAndKeeps};
ghost use Rattle.vt_turns_run.specs.Played.{IsPlayed, IsTextOfTurns, TakesLine, turns_in};

use crate::reading::{queues_of, turns_of};
use std::alloc::Global;
use vt_line::version::Version;
use vt_spec::errors::Deny;
use vt_turns::{Reply, Sched, TakesTurns, Who};

/// What the turns of a schedule replied, and what they left.
#[derive(Debug, Drop)]
pub struct Played {
    /// The replies, in the order of their turns.
    pub replies: Vec<Reply>,
    /// How many lines of the schedule gave no turn, or one for an empty queue.
    pub idle: u64,
    /// The number of the first of them, from 1.
    pub first_idle: Option<u64>,
    /// The numbers of the script's lines that were not answered, queue by queue.
    pub left: Vec<u64>,
}

impl Played {
    // A line of the schedule gave no turn, or one for an empty queue.
    fn was_idle(&mut self, line: u64)
        ensures { self.new.replies ≡ self.old.replies }
    {
        self.idle = self.idle.saturating_add(1);
        self.first_idle = self.first_idle.or(Some(line));
    }

    // A turn that a line of the schedule gives.
    fn turn<C: TakesTurns>(&mut self, sched: &mut Sched<C>, line: u64, who: &Who)
        requires { vec_len self.old.replies < vec_capacity self.old.replies }
        ensures turns { IsReady (sched_meant C.world sched.old).world → TurnsAndKeeps C.world sched.old (who_meant who.now)
            self.old.replies.items self.new.replies.items sched.new }
        ensures len { vec_len self.new.replies ≤ vec_len self.old.replies + 1 }
        ensures capacity { vec_capacity self.old.replies ≤ vec_capacity self.new.replies }
    {
        if !sched.waits(who) {
            self.was_idle(line);
        }
        sched.take_and_keep(who, &mut self.replies);
    }

    // The turn that a line of the schedule gives, if it gives one.
    fn take_line<C: TakesTurns>(&mut self, sched: &mut Sched<C>, line: u64, turn: &Option<Who>)
        requires { vec_len self.old.replies < vec_capacity self.old.replies }
        ensures turns { IsReady (sched_meant C.world sched.old).world → TakesLine C.world sched.old turn.now
            self.old.replies.items self.new.replies.items sched.new }
        ensures len { vec_len self.new.replies ≤ vec_len self.old.replies + 1 }
        ensures capacity { vec_capacity self.old.replies ≤ vec_capacity self.new.replies }
    {
        match turn {
            Some(who) => self.turn(sched, line, who),
            None => self.was_idle(line),
        }
    }
}

// The turns, one after the other.
//
// S5 (ENOMEM): an allocation failed before the first turn.
fn play<C: TakesTurns>(
    sched: &mut Sched<C>,
    alloc: Global,
    turns: &[Option<Who>],
) -> Result<Played, Deny>
    ensures plays { IsReady (sched_meant C.world sched.old).world → IfOk result (λ played. PlaysAs C.world sched.old
        (turns_in turns.now) (map reply_meant played.replies.items) sched.new) }
    ensures err { IfErr result (λ deny. deny ≡ denial S5) }
{
    let mut played = Played {
        replies: Vec::with_capacity(alloc, turns.len())?,
        idle: 0,
        first_idle: None,
        left: Vec::with_capacity(alloc, sched.count_waiting())?,
    };
    let mut line: u64 = 0;
    for turn in turns {
        line = line.saturating_add(1);
        played.take_line(sched, line, turn);
    }
    sched.push_waiting(&mut played.left);
    Ok(played)
}

/// Answers a script in turns: each task, and `!`, has a queue of its lines, and each line of the schedule gives one of
/// them a turn.
///
/// The replies are those of `Sched::play` in the order of the turns, and their text is the definitions' (`text`), also
/// where an allocation fails in a turn. S5 (ENOMEM): an allocation failed before the first turn.
pub fn play_script<C: TakesTurns>(
    version: Version,
    alloc: Global,
    script: &[u8],
    schedule: &[u8],
) -> Result<Played, Deny>
    ensures plays { IfOk result (λ played. IsPlayed C.world (version_of version) script.now schedule.now
        (map reply_meant played.replies.items)) }
    ensures text { IfOk result (λ played. IsTextOfTurns (version_of version) script.now schedule.now
        (text_of_replies (map reply_meant played.replies.items))) }
    ensures err { IfErr result (λ deny. deny ≡ denial S5) }
{
    let queues = queues_of(version, alloc, script)?;
    let turns = turns_of(alloc, schedule)?;
    let mut sched = Sched::<C>::new(C::opening(alloc)?, queues);
    let played = play(&mut sched, alloc, &turns);
    sched.end();
    played
}
