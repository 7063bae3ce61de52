//! Orders of the lines of a script, tried one after the other.
use crate::queues::{Queue, Queued, Queues, numbers_of};
use crate::told::Told;
use indexmap::IndexSet;
use std::alloc::{AllocError, Global};
use vt_lines::told::answer_told;
use vt_script::Calls;

// Where an order stands in a queue.
#[derive(Clone, Copy)]
struct Front {
    // How many of its lines were answered.
    done: usize,
    // How many of its forks were not.
    forks: usize,
    is_born: bool,
    // How many of its lines are among the last that changed nothing.
    still: u64,
}

/// An order of the lines, as far as it was tried.
#[derive(Drop)]
pub struct Trial {
    alloc: Global,
    // Whether lines of a task are answered before it is born.
    unborn: bool,
    fronts: Vec<Front>,
    /// The lines in this order, by their places among all. Those at its beginning are answered first.
    pub order: Vec<usize>,
    // For each of them, the next line that may be answered in its place.
    others: Vec<Option<usize>>,
    /// The answer of each line, by its place among all answers.
    pub answers: Vec<usize>,
    // The line that was answered last, if it changed nothing.
    last_still: Option<usize>,
    // How many lines were answered since one changed something.
    still: u64,
    // How many orders of these there are, and of those before them.
    ways: u64,
    ways_before: u64,
}

// A queue before its first line.
fn front_of(queue: &Queue) -> Front {
    let is_born = match numbers_of(&queue.who) {
        Some(numbers) => numbers.is_empty(),
        None => true,
    };
    Front {
        done: 0,
        forks: queue.forks,
        is_born,
        still: 0,
    }
}

// Whether this place comes before another one.
fn is_earlier(place: usize, other: Option<usize>) -> bool {
    match other {
        Some(other) => place < other,
        None => true,
    }
}

// Answers a line in a world, and tells of it.
fn answered<C: Calls>(
    alloc: Global,
    queues: &Queues<'_>,
    world: &mut C,
    line: &Queued<'_>,
) -> Told {
    let mut told = Told::new(alloc, line.number);
    answer_told(queues.version, alloc, world, line.text, &mut told);
    told
}

impl Trial {
    /// Before the first order.
    pub fn new(alloc: Global, queues: &Queues<'_>, unborn: bool) -> Result<Self, AllocError> {
        let mut trial = Trial {
            alloc,
            unborn,
            fronts: Vec::new(alloc),
            order: Vec::new(alloc),
            others: Vec::new(alloc),
            answers: Vec::new(alloc),
            last_still: None,
            still: 0,
            ways: 1,
            ways_before: 1,
        };
        trial.begin(queues)?;
        Ok(trial)
    }

    // Stands before the first line.
    fn begin(&mut self, queues: &Queues<'_>) -> Result<(), AllocError> {
        self.last_still = None;
        self.still = 0;
        self.ways = 1;
        self.ways_before = 1;
        self.others.clear();
        self.fronts.clear();
        for queue in &queues.queues {
            self.fronts.push(front_of(queue))?;
        }
        self.answers.clear();
        for _ in &queues.lines {
            self.answers.push(0)?;
        }
        Ok(())
    }

    /// How many orders it stands for, itself among them.
    pub fn stands_for(&self) -> u64 {
        self.ways_before.saturating_mul(self.ways)
    }

    // Whether the lines of a queue wait for the birth of their task.
    fn waits(&self, queue: &Queue, front: &Front) -> bool {
        if self.unborn || front.is_born {
            return false;
        }
        let Some(birth) = queue.birth else {
            return false;
        };
        matches!(self.fronts.get(birth.queue), Some(parent) if parent.forks > 0)
    }

    // Whether a line that changes nothing stands behind one that does not either, and comes before it in the script: the
    // order in which they are exchanged is tried in place of this one.
    fn is_exchanged(&self, place: usize) -> bool {
        matches!(self.last_still, Some(last) if last > place)
    }

    // The first line from this place on that may be answered next.
    fn next_from(&self, queues: &Queues<'_>, from: usize) -> Option<usize> {
        let mut next = None;
        for (queue, front) in queues.queues.iter().zip(&self.fronts) {
            let Some(place) = queue.lines.get(front.done) else {
                continue;
            };
            let only_looks = matches!(queues.lines.get(*place), Some(line) if line.only_looks);
            if *place >= from
                && is_earlier(*place, next)
                && !self.waits(queue, front)
                && !(only_looks && self.is_exchanged(*place))
            {
                next = Some(*place);
            }
        }
        next
    }

    // Goes on behind a line that changed nothing.
    fn count_still(&mut self, queue: usize, place: usize) {
        self.last_still = Some(place);
        self.still = self.still.saturating_add(1);
        if let Some(front) = self.fronts.get_mut(queue) {
            front.still = front.still.saturating_add(1);
            let ways = self.ways.saturating_mul(self.still);
            self.ways = ways.checked_div(front.still).unwrap_or(ways);
        }
    }

    // Goes on behind a line that changed something.
    fn count_change(&mut self) {
        self.ways_before = self.stands_for();
        self.ways = 1;
        self.still = 0;
        self.last_still = None;
        for front in &mut self.fronts {
            front.still = 0;
        }
    }

    // Goes on behind a line, and returns whether this order is tried further.
    fn pass(&mut self, queues: &Queues<'_>, place: usize, line: &Queued<'_>, told: &Told) -> bool {
        let is_still = line.only_looks || (told.is_refused && !line.forks);
        if is_still && self.is_exchanged(place) {
            return false;
        }
        if is_still {
            self.count_still(line.queue, place);
        } else {
            self.count_change();
        }
        if let Some(front) = self.fronts.get_mut(line.queue) {
            front.done = front.done.saturating_add(1);
            front.forks = front.forks.saturating_sub(usize::from(line.forks));
        }
        if let Some(name) = &told.child
            && let Some(child) = queues.find(name)
            && let Some(front) = self.fronts.get_mut(child)
        {
            front.is_born = true;
        }
        true
    }

    // Answers a line, keeps its answer, and returns whether this order is tried further.
    fn answer<C: Calls>(
        &mut self,
        queues: &Queues<'_>,
        world: &mut C,
        place: usize,
        answers: &mut IndexSet<Vec<u8>>,
    ) -> Result<bool, AllocError> {
        let Some(line) = queues.lines.get(place) else {
            return Ok(false);
        };
        let told = answered(self.alloc, queues, world, line);
        if told.failed {
            return Err(AllocError);
        }
        let goes_on = self.pass(queues, place, line, &told);
        let (kept, _) = answers.insert_full(told.text)?;
        if let Some(answer) = self.answers.get_mut(place) {
            *answer = kept;
        }
        Ok(goes_on)
    }

    /// Tries an order that begins as it is kept, in a new world, and returns whether it came to its end: else another
    /// order is tried in its place.
    pub fn run<C: Calls>(
        &mut self,
        queues: &Queues<'_>,
        world: &mut C,
        answers: &mut IndexSet<Vec<u8>>,
    ) -> Result<bool, AllocError> {
        for step in 0..queues.lines.len() {
            let kept = self.order.get(step).copied();
            let Some(place) = kept.or(self.next_from(queues, 0)) else {
                return Ok(false);
            };
            let other = self.next_from(queues, place.saturating_add(1));
            self.others.push(other)?;
            if kept.is_none() {
                self.order.push(place)?;
            }
            if !self.answer(queues, world, place, answers)? {
                return Ok(false);
            }
        }
        Ok(true)
    }

    /// Keeps the beginning of the next order, and returns whether there is one.
    pub fn go_back(&mut self, queues: &Queues<'_>) -> Result<bool, AllocError> {
        for _ in 0..self.order.len() {
            self.order.pop();
            if let Some(Some(place)) = self.others.pop() {
                self.order.push(place)?;
                self.begin(queues)?;
                return Ok(true);
            }
        }
        Ok(false)
    }
}
