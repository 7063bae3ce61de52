//! How many orders there are: in which lines of different queues stand in any order, and those of one queue in theirs.
use crate::queues::{Birth, Queue, Queues};

/// In how many ways so many of these are chosen; nothing for more than 2^64 - 1.
fn choose(of: u64, some: u64) -> Option<u64> {
    let few = some.min(of.saturating_sub(some));
    let others = of.saturating_sub(few);
    let mut ways: u64 = 1;
    for step in 0..few {
        let number = u128::from(step.saturating_add(1));
        let more = u128::from(others).checked_add(number)?;
        let next = u128::from(ways).checked_mul(more)?.checked_div(number)?;
        ways = u64::try_from(next).ok()?;
    }
    Some(ways)
}

/// How many orders there are of all lines; nothing for more than 2^64 - 1.
pub fn orders_of_all(queues: &Queues<'_>) -> Option<u64> {
    let mut count: u64 = 1;
    let mut before: u64 = 0;
    for queue in &queues.queues {
        let lines = queue.lines.len() as u64;
        before = before.saturating_add(lines);
        count = count.checked_mul(choose(before, lines)?)?;
    }
    Some(count)
}

// A queue, by its place, and behind which line its task is born.
#[derive(Clone, Copy)]
struct Born {
    place: usize,
    birth: Option<Birth>,
}

impl Born {
    // Whether its lines are counted before those of another queue: of queues that are born from one queue those of the
    // last born first, then in their order.
    fn is_before(self, other: Born) -> bool {
        match (self.birth, other.birth) {
            (None, None) => self.place < other.place,
            (Some(own), Some(birth)) => {
                let is_later = own.place > birth.place
                    || (own.place == birth.place && self.place < other.place);
                own.queue == birth.queue && is_later
            }
            _ => false,
        }
    }
}

// How many lines of a queue stand behind a birth from it.
fn lines_behind(queues: &[Queue], birth: Option<Birth>) -> u64 {
    let Some(birth) = birth else {
        return 0;
    };
    match queues.get(birth.queue) {
        Some(parent) => {
            let behind = parent.lines.len().saturating_sub(birth.place);
            (behind as u64).saturating_sub(1)
        }
        None => 0,
    }
}

// Among how many lines those of a queue and of its family stand in any order, but for those of queues that are counted
// after it.
fn lines_beside(queues: &[Queue], this: Born) -> u64 {
    let mut beside = lines_behind(queues, this.birth);
    for (place, queue) in queues.iter().enumerate() {
        let other = Born {
            place,
            birth: queue.birth,
        };
        if other.is_before(this) {
            beside = beside.saturating_add(queue.family);
        }
    }
    beside
}

/// How many orders there are in which the lines of a task come behind the fork by which it is born at the earliest;
/// nothing for more than 2^64 - 1.
///
/// Queues and the lines behind which they are born are a forest, and orders are those of its nodes from the roots on.
pub fn orders_of_born(queues: &Queues<'_>) -> Option<u64> {
    let mut count: u64 = 1;
    for (place, queue) in queues.queues.iter().enumerate() {
        let this = Born {
            place,
            birth: queue.birth,
        };
        let beside = lines_beside(&queues.queues, this);
        let ways = choose(beside.saturating_add(queue.family), queue.family)?;
        count = count.checked_mul(ways)?;
    }
    Some(count)
}
