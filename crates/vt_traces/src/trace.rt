//! A trace as it is read, and the script that it becomes.
use crate::call::{Call, Outcome, call_of};
use crate::lines::{Event, Traced, line_of};
use crate::needs::Needs;
use crate::process::{Process, Why};
use crate::rows::{Row, Verb, row_named};
use crate::saying::Saying;
use std::alloc::{AllocError, Global};
use std::collections::BTreeMap;
use vt_from::lines::Taking;
use vt_from::script::{Script, Written};
use vt_from::words::owned;

/// A call of a process that is not over.
#[derive(Drop)]
pub struct Begun {
    pub text: String,
    /// Whether the process that it makes was seen already.
    pub is_followed: bool,
}

/// A trace as it is read. An allocation that fails is noted.
#[derive(Drop)]
pub struct Trace {
    pub alloc: Global,
    pub processes: Vec<Process>,
    /// The processes by their numbers; threads of one are that one.
    pub places: BTreeMap<u64, usize>,
    pub begun: BTreeMap<u64, Begun>,
    pub needs: Needs,
    pub body: Script,
    failed: bool,
}

/// Who calls: the place of its process, and the line of the trace.
#[derive(Clone, Copy)]
pub struct Caller {
    pub place: usize,
    pub line: u64,
}

// A call as a script has it: its words, and the answer that is wanted.
#[derive(Drop)]
struct Said {
    words: String,
    wanted: String,
}

// A call as a script has it, or why it is not said.
fn said_of(saying: Saying<'_>) -> Result<Said, Why> {
    if saying.process.task.is_empty() {
        return Err(Why::Kind("a process past the limits of tasks"));
    }
    if matches!(saying.call.outcome, Outcome::Open) {
        return Err(Why::Kind("a call without a result"));
    }
    Ok(Said {
        words: saying.words()?,
        wanted: saying.wanted()?,
    })
}

impl Taking for Trace {
    fn take(&mut self, number: u64, line: &str) -> bool {
        match line_of(line) {
            Some(event) => {
                self.failed |= self.take_event(number, event).is_err();
                true
            }
            None => false,
        }
    }
}

impl Trace {
    /// Before its first line.
    pub fn new(alloc: Global) -> Self {
        Trace {
            alloc,
            processes: Vec::new(alloc),
            places: BTreeMap::new(alloc),
            begun: BTreeMap::new(alloc),
            needs: Needs::new(alloc),
            body: Script::empty(alloc),
            failed: false,
        }
    }

    // Goes on by a line.
    fn take_event(&mut self, number: u64, line: Traced<'_>) -> Result<(), AllocError> {
        match line.event {
            Event::Nothing => Ok(()),
            Event::Ended => self.end_process(number, line.process),
            Event::Begun(text) => {
                let begun = Begun {
                    text: owned(self.alloc, text)?,
                    is_followed: false,
                };
                self.begun.insert(line.process, begun)?;
                Ok(())
            }
            Event::Resumed(rest) => self.resume(number, line.process, rest),
            Event::Call(text) => self.take_text(number, line.process, text),
        }
    }

    // Goes on by the rest of a call.
    fn resume(&mut self, number: u64, process: u64, rest: &str) -> Result<(), AllocError> {
        let Some(begun) = self.begun.remove(&process) else {
            self.body.count("a call whose front was not seen");
            return Ok(());
        };
        let front = begun.text.as_str();
        let whole = format!(in self.alloc; "{front}{rest}")?;
        self.take_text(number, process, whole.as_str())
    }

    // Goes on by a call with its result.
    fn take_text(&mut self, number: u64, process: u64, text: &str) -> Result<(), AllocError> {
        let place = self.place_of(number, process)?;
        match call_of(self.alloc, text)? {
            Some(call) => {
                let caller = Caller {
                    place,
                    line: number,
                };
                self.take_call(caller, &call)
            }
            None => {
                self.body.count("a call of another form");
                Ok(())
            }
        }
    }

    // Goes on by a call.
    fn take_call(&mut self, caller: Caller, call: &Call<'_>) -> Result<(), AllocError> {
        let Some(row) = row_named(call.name) else {
            self.body.skip("another call", call.text);
            return Ok(());
        };
        match row.verb {
            Verb::Exit => Ok(()),
            Verb::Look => {
                self.body.count(row.name);
                Ok(())
            }
            Verb::Fork => self.fork_called(caller, call),
            Verb::Close => self.close(caller, call),
            Verb::Dup => self.copy(caller.place, call),
            Verb::Setns => self.set_namespace(caller, call),
            _ => self.say(caller, call, row),
        }
    }

    /// Appends a line of a task, behind the line of the trace from which it comes.
    pub fn write(
        &mut self,
        number: u64,
        source: &str,
        task: &str,
        words: &str,
    ) -> Result<(), AllocError> {
        let from = format!(in self.alloc; "line {number}")?;
        self.body.quote(from.as_str(), source);
        self.body.say("{} {}", &[task, words]);
        Ok(())
    }

    /// The name of the task of a process; empty if it has none.
    pub fn task_at(&self, place: usize) -> Result<String, AllocError> {
        match self.processes.get(place) {
            Some(process) => owned(self.alloc, process.task.as_str()),
            None => Ok(String::new(self.alloc)),
        }
    }

    // A call as a script has it, or why it is not said.
    fn said(&self, place: usize, call: &Call<'_>, row: Row) -> Result<Said, Why> {
        match self.processes.get(place) {
            Some(process) => said_of(Saying {
                alloc: self.alloc,
                process,
                call,
                row,
            }),
            None => Err(Why::Kind("a process that was not seen")),
        }
    }

    // Appends a call, or why it is not said, and follows what it does.
    fn say(&mut self, caller: Caller, call: &Call<'_>, row: Row) -> Result<(), AllocError> {
        let said = self.said(caller.place, call, row);
        self.close_before(caller, call, row)?;
        let is_said = match said {
            Ok(said) => {
                let (words, wanted) = (said.words.as_str(), said.wanted.as_str());
                let line = format!(in self.alloc; "{words}{wanted}")?;
                let task = self.task_at(caller.place)?;
                self.write(caller.line, call.text, task.as_str(), line.as_str())?;
                true
            }
            Err(Why::Memory) => return Err(AllocError),
            Err(Why::Kind(kind)) => {
                self.body.skip(kind, call.text);
                false
            }
            Err(Why::Look(kind)) => {
                self.body.count(kind);
                false
            }
        };
        self.follow(caller, call, row, is_said)
    }
}

/// The script of a trace, with what its paths need before it, if that is asked for.
pub fn script_of(trace: Trace, are_files_made: bool) -> Result<Written, AllocError> {
    if trace.failed {
        return Err(AllocError);
    }
    let mut script = Script::new(trace.alloc, "strace", "test");
    if are_files_made {
        script.say("# What the calls find, as far as the trace tells.", &[]);
        trace.needs.write(&mut script);
    }
    script.append(trace.body);
    script.end()
}
