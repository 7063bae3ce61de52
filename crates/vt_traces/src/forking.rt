//! Processes that come and go.
use crate::call::{Call, number_in};
use crate::process::Process;
use crate::texts::has_flag;
use crate::trace::{Caller, Trace};
use std::alloc::AllocError;
use vt_from::words::owned;

// How often a task may fork, and the numbers that a name may have.
const MOST_FORKS: u64 = 64;

const MOST_NUMBERS: usize = 8;

// Whether a call that is not over makes a process.
fn is_fork(text: &str) -> bool {
    text.starts_with("clone") || text.starts_with("fork(") || text.starts_with("vfork(")
}

// How many numbers the name of a task has.
fn numbers_in(task: &str) -> usize {
    let mut count: usize = 0;
    for byte in task.bytes() {
        count = count.saturating_add(usize::from(byte == b'.'));
    }
    count
}

// Whether the flags of a call of clone have this one: they stand among its arguments.
fn clones_with(text: &str, flag: &str) -> bool {
    for argument in text.split(',') {
        let (_, list) = argument.split_once("flags=").unwrap_or(("", argument));
        if has_flag(list.trim(), flag) {
            return true;
        }
    }
    false
}

impl Trace {
    // The process with a call that is not over and makes one that was not seen yet, and that call.
    fn forking(&mut self) -> Result<Option<(u64, String)>, AllocError> {
        let alloc = self.alloc;
        for (process, begun) in self.begun.iter_mut() {
            if !begun.is_followed && is_fork(begun.text.as_str()) {
                begun.is_followed = true;
                return Ok(Some((*process, owned(alloc, begun.text.as_str())?)));
            }
        }
        Ok(None)
    }

    /// The place of the process of this number. One that was not seen yet is the child of one that makes a process.
    pub fn place_of(&mut self, number: u64, process: u64) -> Result<usize, AllocError> {
        if let Some(place) = self.places.get(&process) {
            return Ok(*place);
        }
        if self.processes.is_empty() {
            self.processes.push(Process::first(self.alloc)?)?;
            self.places.insert(process, 0)?;
            return Ok(0);
        }
        match self.forking()? {
            Some((parent, text)) => {
                let place = self.places.get(&parent).copied().unwrap_or_default();
                self.fork(number, place, text.as_str(), process)
            }
            None => self.fork(number, 0, "a process whose parent was not seen", process),
        }
    }

    // The name of the next child of a task, or nothing where it may have none.
    fn next_child(&mut self, place: usize) -> Result<Option<String>, AllocError> {
        let alloc = self.alloc;
        let Some(parent) = self.processes.get_mut(place) else {
            return Ok(None);
        };
        let is_past = parent.forks >= MOST_FORKS
            || numbers_in(parent.task.as_str()) >= MOST_NUMBERS;
        if is_past || parent.task.is_empty() {
            return Ok(None);
        }
        parent.forks = parent.forks.saturating_add(1);
        let (task, forks) = (parent.task.as_str(), parent.forks);
        Ok(Some(format!(in alloc; "{task}.{forks}")?))
    }

    // Keeps a process as the child of another one, with a task of this name.
    fn keep_child(&mut self, parent: usize, task: String, child: u64) -> Result<usize, AllocError> {
        let place = self.processes.len();
        let process = match self.processes.get(parent) {
            Some(process) => process.child(self.alloc, task)?,
            None => Process::first(self.alloc)?,
        };
        self.processes.push(process)?;
        self.places.insert(child, place)?;
        Ok(place)
    }

    // Appends that a process makes another one, and returns the place of that.
    fn fork(
        &mut self,
        number: u64,
        parent: usize,
        text: &str,
        child: u64,
    ) -> Result<usize, AllocError> {
        if clones_with(text, "CLONE_THREAD") {
            self.places.insert(child, parent)?;
            return Ok(parent);
        }
        let Some(task) = self.next_child(parent)? else {
            self.body.skip("a process past the limits of tasks", text);
            return self.keep_child(parent, String::new(self.alloc), child);
        };
        let caller = self.task_at(parent)?;
        let name = task.as_str();
        let words = format!(in self.alloc; "fork => ok {name}")?;
        self.write(number, text, caller.as_str(), words.as_str())?;
        if clones_with(text, "CLONE_NEWNS") {
            self.body.say("{} unshare", &[name]);
        }
        let place = self.keep_child(parent, task, child)?;
        Ok(place)
    }

    /// Appends a call that makes a process, unless that was seen before the call was over.
    pub fn fork_called(&mut self, caller: Caller, call: &Call<'_>) -> Result<(), AllocError> {
        let Some(child) = call.number() else {
            self.body.skip("a process that is not made", call.text);
            return Ok(());
        };
        if self.places.contains_key(&child) {
            return Ok(());
        }
        self.fork(caller.line, caller.place, call.text, child)?;
        Ok(())
    }

    // Whether another thread of a process is there.
    fn has_thread(&self, place: usize) -> bool {
        for other in self.places.values() {
            if *other == place {
                return true;
            }
        }
        false
    }

    /// Appends that a process ends, if it was the last of its threads.
    pub fn end_process(&mut self, number: u64, process: u64) -> Result<(), AllocError> {
        let Some(place) = self.places.remove(&process) else {
            return Ok(());
        };
        let task = self.task_at(place)?;
        if self.has_thread(place) || task.is_empty() {
            return Ok(());
        }
        self.write(number, "it has ended", task.as_str(), "exit")
    }

    // The task whose namespace of mounts a path of /proc names.
    fn task_named(&self, path: &str) -> Option<&str> {
        let (process, of) = path.strip_prefix("/proc/")?.split_once('/')?;
        if of != "ns/mnt" {
            return None;
        }
        let place = self.places.get(&number_in(process)?)?;
        Some(self.processes.get(*place)?.task.as_str())
    }

    // The words of a call of setns(2), if it enters the namespace of a task that was seen.
    fn entering(&self, place: usize, call: &Call<'_>) -> Result<Option<String>, AllocError> {
        let Some(process) = self.processes.get(place) else {
            return Ok(None);
        };
        let Ok(path) = process.path_of(self.alloc, call.argument(0)) else {
            return Ok(None);
        };
        match self.task_named(path.as_str()) {
            Some(task) => Ok(Some(format!(in self.alloc; "setns {task}")?)),
            None => Ok(None),
        }
    }

    /// Appends a call of setns(2).
    pub fn set_namespace(&mut self, caller: Caller, call: &Call<'_>) -> Result<(), AllocError> {
        let words = self.entering(caller.place, call)?;
        let task = self.task_at(caller.place)?;
        match words {
            Some(words) if call.is_done() && !task.is_empty() => {
                self.write(caller.line, call.text, task.as_str(), words.as_str())
            }
            _ => {
                self.body
                    .skip("a namespace of another kind, or of no task", call.text);
                Ok(())
            }
        }
    }
}
