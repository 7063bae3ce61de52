//! The lines of a script in their queues: one of each task, and one of `!`.
use std::alloc::{AllocError, Global};
use vt_io::line::LONGEST_LINE;
use vt_line::line::{Line, Unescaped};
use vt_line::version::Version;
use vt_lines::lines::first_line;
use vt_lines::reading::{free, reading};
use vt_queues::{Who, first_named};
use vt_request::{Call, CallKind, TaskName};

/// The numbers of a task's name; nothing for `!`.
pub fn numbers_of(who: &Who) -> Option<&[u8]> {
    match who {
        Who::Task(name) => Some(name.numbers()),
        Who::Nobody => None,
    }
}

// Whether this is the task with these numbers in its name, or `!` where there are none.
fn has_numbers(who: &Who, numbers: Option<&[u8]>) -> bool {
    match (numbers_of(who), numbers) {
        (Some(own), Some(numbers)) => own == numbers,
        (None, None) => true,
        _ => false,
    }
}

/// A line that waits in a queue.
#[derive(Clone, Copy)]
pub struct Queued<'a> {
    /// Its number in the file, from 1.
    pub number: u64,
    pub text: &'a [u8],
    /// The place of its queue.
    pub queue: usize,
    /// Whether it changes nothing, however it is answered.
    pub only_looks: bool,
    /// Whether it is a `fork`.
    pub forks: bool,
}

/// Behind which line of which queue a task is born at the earliest, if all forks of its parent succeed.
#[derive(Clone, Copy)]
pub struct Birth {
    /// The place of the parent's queue.
    pub queue: usize,
    /// The place of the line in that queue.
    pub place: usize,
}

/// The lines of a task, or of `!`.
#[derive(Drop)]
pub struct Queue {
    pub who: Who,
    /// The places of its lines among all, in their order.
    pub lines: Vec<usize>,
    /// How many of them are forks.
    pub forks: usize,
    /// Nothing where no line of the parent is a fork, and for the first task and `!`.
    pub birth: Option<Birth>,
    /// How many lines there are in it, and in the queues of tasks that are born from it.
    pub family: u64,
}

/// The queues of a script, in the order of their first lines.
#[derive(Drop)]
pub struct Queues<'a> {
    pub version: Version,
    pub lines: Vec<Queued<'a>>,
    pub queues: Vec<Queue>,
    /// How many lines are not of the grammar.
    pub refused: u64,
    /// The number of the first line that stands in no queue, as neither a task nor `!` begins it.
    pub nobodys: Option<u64>,
}

// What a line is to the queues.
#[derive(Drop)]
enum Place {
    /// It has no answer.
    Silent,
    /// It is not of the grammar, and stands in no queue.
    Nowhere,
    /// It is not of the grammar, and stands in this queue.
    Refused(Who),
    Queued {
        who: Who,
        only_looks: bool,
        forks: bool,
    },
}

// Whose line a line of the grammar is, and what it asks for.
fn place_of(line: &Line<'_>) -> Result<Place, AllocError> {
    match line {
        Line::Silent => Ok(Place::Silent),
        Line::Call(name, call) => Ok(Place::Queued {
            who: Who::Task(name.clone()?),
            only_looks: call.only_looks(),
            forks: is_fork(call),
        }),
        Line::Ask(_) => Ok(Place::Queued {
            who: Who::Nobody,
            only_looks: true,
            forks: false,
        }),
    }
}

fn is_fork(call: &Call<'_>) -> bool {
    call.kind() == CallKind::Fork
}

// Where a line stands that is not of the grammar: in the queue that its first token names.
fn refused_place(alloc: Global, line: &[u8]) -> Result<Place, AllocError> {
    if line.len() > LONGEST_LINE {
        return Ok(Place::Nowhere);
    }
    match first_named(alloc, line)? {
        Some(who) => Ok(Place::Refused(who)),
        None => Ok(Place::Nowhere),
    }
}

// Where a line stands.
fn read_line(version: Version, alloc: Global, line: &[u8]) -> Result<Place, AllocError> {
    let mut texts: Option<Unescaped> = None;
    let read = reading(version, alloc, line, &mut texts)?;
    let place = match &read {
        Some(line) => place_of(line),
        None => refused_place(alloc, line),
    };
    free(read);
    place
}

// The place of the queue of the task with these numbers in its name, or of `!`.
fn find(queues: &[Queue], numbers: Option<&[u8]>) -> Option<usize> {
    for (place, queue) in queues.iter().enumerate() {
        if has_numbers(&queue.who, numbers) {
            return Some(place);
        }
    }
    None
}

impl<'a> Queues<'a> {
    /// The queues of a script, before which there are so many lines in its file.
    pub fn new(
        version: Version,
        alloc: Global,
        script: &'a [u8],
        before: u64,
    ) -> Result<Self, AllocError> {
        let mut queues = Queues {
            version,
            lines: Vec::new(alloc),
            queues: Vec::new(alloc),
            refused: 0,
            nobodys: None,
        };
        queues.fill(alloc, script, before)?;
        queues.link();
        Ok(queues)
    }

    // Puts each line of a script into its queue.
    fn fill(&mut self, alloc: Global, script: &'a [u8], before: u64) -> Result<(), AllocError> {
        let mut rest = script;
        for number in 1..u64::MAX {
            let Some((line, after)) = first_line(rest) else {
                break;
            };
            self.take(alloc, before.saturating_add(number), line)?;
            rest = after;
        }
        Ok(())
    }

    // Puts a line into its queue.
    fn take(&mut self, alloc: Global, number: u64, text: &'a [u8]) -> Result<(), AllocError> {
        let line = Queued {
            number,
            text,
            queue: 0,
            only_looks: true,
            forks: false,
        };
        match read_line(self.version, alloc, text)? {
            Place::Silent => Ok(()),
            Place::Nowhere => {
                self.refused = self.refused.saturating_add(1);
                self.nobodys = self.nobodys.or(Some(number));
                Ok(())
            }
            Place::Refused(who) => {
                self.refused = self.refused.saturating_add(1);
                self.push(alloc, who, line)
            }
            Place::Queued {
                who,
                only_looks,
                forks,
            } => {
                let line = Queued {
                    only_looks,
                    forks,
                    ..line
                };
                self.push(alloc, who, line)
            }
        }
    }

    // Puts a line last into the queue of this task, or of `!`.
    fn push(&mut self, alloc: Global, who: Who, line: Queued<'a>) -> Result<(), AllocError> {
        let place = match find(&self.queues, numbers_of(&who)) {
            Some(place) => place,
            None => {
                let place = self.queues.len();
                self.queues.push(Queue {
                    who,
                    lines: Vec::new(alloc),
                    forks: 0,
                    birth: None,
                    family: 0,
                })?;
                place
            }
        };
        if let Some(queue) = self.queues.get_mut(place) {
            queue.lines.push(self.lines.len())?;
            queue.forks = queue.forks.saturating_add(usize::from(line.forks));
        }
        self.lines.push(Queued {
            queue: place,
            ..line
        })?;
        Ok(())
    }

    // The place in a queue of the last of so many forks, or of its last fork.
    fn fork_in(&self, queue: &Queue, number: u8) -> Option<usize> {
        let mut found = None;
        let mut count: u8 = 0;
        for (place, line) in queue.lines.iter().enumerate() {
            let forks = matches!(self.lines.get(*line), Some(line) if line.forks);
            if forks && count < number {
                count = count.saturating_add(1);
                found = Some(place);
            }
        }
        found
    }

    // Behind which line the task of a queue is born.
    fn birth_of(&self, queue: &Queue) -> Option<Birth> {
        let (number, parent) = numbers_of(&queue.who)?.split_last()?;
        let parent = find(&self.queues, Some(parent))?;
        Some(Birth {
            queue: parent,
            place: self.fork_in(self.queues.get(parent)?, *number)?,
        })
    }

    // Notes behind which line the task of each queue is born.
    fn link(&mut self) {
        for place in 0..self.queues.len() {
            let birth = match self.queues.get(place) {
                Some(queue) => self.birth_of(queue),
                None => None,
            };
            if let Some(queue) = self.queues.get_mut(place) {
                queue.birth = birth;
            }
        }
        for place in 0..self.queues.len() {
            self.count_family(place);
        }
    }

    // Counts the lines of a queue in its own family, and in those of all from which its task is born.
    fn count_family(&mut self, place: usize) {
        let lines = match self.queues.get(place) {
            Some(queue) => queue.lines.len() as u64,
            None => 0,
        };
        let mut here = place;
        for _ in 0..self.queues.len() {
            let Some(queue) = self.queues.get_mut(here) else {
                break;
            };
            queue.family = queue.family.saturating_add(lines);
            let Some(birth) = queue.birth else {
                break;
            };
            here = birth.queue;
        }
    }

    /// The place of the queue of a task.
    pub fn find(&self, name: &TaskName) -> Option<usize> {
        find(&self.queues, Some(name.numbers()))
    }
}
