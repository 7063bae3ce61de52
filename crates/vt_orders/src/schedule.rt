//! The schedule of turns in which the lines of a script are answered in an order.
use crate::queues::{Queues, numbers_of};
use std::alloc::{AllocError, Global};
use vt_check::draft::Draft;
use vt_lines::told::{Teller, answer_told};
use vt_queues::Who;
use vt_request::{Answer, Call, CallKind, TaskName};
use vt_script::Calls;
use vt_spec::errors::{Deny, Rule};

/// What knows how many turns calls take.
pub trait Turns<C> {
    /// How many turns a call takes in a world where no other task has one between them, unless a rule refuses it before
    /// its first word.
    fn turns(
        &self,
        alloc: Global,
        world: &C,
        name: &TaskName,
        call: &Call<'_>,
    ) -> Result<u64, AllocError>;
}

/// The turns of a task, or of `!`, that answer a line.
#[derive(Clone, Copy)]
pub struct Share {
    /// The place of the queue.
    pub queue: usize,
    pub turns: u64,
}

// The turns of the line that is answered. An allocation that fails is noted.
#[derive(Drop)]
struct Counting<'t, T> {
    alloc: Global,
    by: &'t T,
    turns: u64,
    failed: bool,
}

// Whether a rule refuses a call before its first word: those of lines, tasks, descriptors and capabilities.
fn comes_first(rule: Rule) -> bool {
    matches!(
        rule,
        Rule::S1 | Rule::S2 | Rule::S3 | Rule::S4 | Rule::S5 | Rule::S6 | Rule::K1
    )
}

impl<C, T: Turns<C>> Teller<C> for Counting<'_, T> {
    fn before(&mut self, world: &C, name: &TaskName, call: &Call<'_>) {
        match self.by.turns(self.alloc, world, name, call) {
            Ok(turns) => self.turns = turns,
            Err(_) => self.failed = true,
        }
    }

    fn after(
        &mut self,
        _world: &C,
        _name: TaskName,
        _kind: CallKind,
        outcome: &Result<Answer, Deny>,
    ) {
        if let Err(deny) = outcome
            && comes_first(deny.rule)
        {
            self.turns = 1;
        }
    }

    fn alone(&mut self, _outcome: &Result<Answer, Deny>) {
        self.turns = 1;
    }
}

// The turns that answer the lines of an order in a world, one after the other.
fn counted<C: Calls, T: Turns<C>>(
    alloc: Global,
    queues: &Queues<'_>,
    order: &[usize],
    by: &T,
    world: &mut C,
) -> Result<Vec<Share>, AllocError> {
    let mut shares = Vec::new(alloc);
    for place in order {
        let Some(line) = queues.lines.get(*place) else {
            continue;
        };
        let mut counting = Counting {
            alloc,
            by,
            turns: 0,
            failed: false,
        };
        answer_told(queues.version, alloc, world, line.text, &mut counting);
        if counting.failed {
            return Err(AllocError);
        }
        shares.push(Share {
            queue: line.queue,
            turns: counting.turns,
        })?;
    }
    Ok(shares)
}

/// The turns that answer the lines of an order, one after the other.
pub fn schedule_of<C: Calls, T: Turns<C>>(
    alloc: Global,
    queues: &Queues<'_>,
    order: &[usize],
    by: &T,
) -> Result<Vec<Share>, AllocError> {
    let Ok(mut world) = C::opening(alloc) else {
        return Err(AllocError);
    };
    let shares = counted(alloc, queues, order, by, &mut world);
    world.end();
    shares
}

/// Appends the name of a task, or `!`.
pub fn push_who(text: &mut Draft, who: &Who) {
    let Some(numbers) = numbers_of(who) else {
        return text.push("!");
    };
    text.push("t");
    for number in numbers {
        text.push_char('.');
        text.push_number(u64::from(*number));
    }
}

/// Appends a schedule: who has each turn, with this before and that behind it.
pub fn push_schedule(
    text: &mut Draft,
    queues: &Queues<'_>,
    shares: &[Share],
    before: &str,
    behind: &str,
) {
    for share in shares {
        let Some(queue) = queues.queues.get(share.queue) else {
            continue;
        };
        for _ in 0..share.turns {
            text.push(before);
            push_who(text, &queue.who);
            text.push(behind);
        }
    }
}
