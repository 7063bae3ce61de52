//! What calls do to processes, their descriptors, and what is needed before a trace.
use crate::call::{Call, number_in};
use crate::needs::Need;
use crate::process::{Opened, Process};
use crate::rows::{Row, Verb};
use crate::saying::Saying;
use crate::texts::has_flag;
use crate::trace::{Caller, Trace};
use std::alloc::{AllocError, Global};
use vt_from::words::owned;

// The paths of a call, from the first root of the trace; empty where they are not known.
#[derive(Drop)]
struct Wholes {
    first: String,
    second: String,
}

// A path of a call from the first root of the trace, if it can be said.
fn whole_of<E: Drop>(
    alloc: Global,
    process: &Process,
    path: Result<String, E>,
) -> Result<String, AllocError> {
    match path {
        Ok(path) => process.whole(alloc, path.as_str()),
        Err(_) => Ok(String::new(alloc)),
    }
}

// What a status tells of an object.
fn need_of_status(text: &str) -> Option<Need> {
    if text.contains("mode=S_IFDIR") {
        Some(Need::Directory)
    } else if text.contains("mode=S_IFREG") {
        Some(Need::File)
    } else {
        None
    }
}

// What a call that did what it was to do has found at its first path.
fn need_of_first(call: &Call<'_>, row: Row) -> Option<Need> {
    match row.verb {
        Verb::Stat | Verb::Lstat => need_of_status(call.text),
        Verb::Unlink if has_flag(call.argument(row.rest), "AT_REMOVEDIR") => Some(Need::Directory),
        Verb::Open if has_flag(call.argument(row.rest), "O_DIRECTORY") => Some(Need::Directory),
        Verb::Access | Verb::Unlink | Verb::Open | Verb::Chmod | Verb::Chown | Verb::Link => {
            Some(Need::File)
        }
        Verb::Rename => Some(Need::File),
        Verb::Exec => Some(Need::Program),
        Verb::Rmdir | Verb::Chdir | Verb::Getcwd | Verb::Chroot | Verb::Pivot => {
            Some(Need::Directory)
        }
        Verb::Mount if has_flag(call.argument(3), "MS_BIND") => Some(Need::Directory),
        _ => None,
    }
}

// Whether a call makes what stands at its first path.
fn makes_first(call: &Call<'_>, row: Row) -> bool {
    match row.verb {
        Verb::Mkdir | Verb::Symlink | Verb::Creat => true,
        Verb::Open => has_flag(call.argument(row.rest), "O_CREAT"),
        _ => false,
    }
}

// Whether a call of mount(2) makes a mount.
fn makes_mount(call: &Call<'_>) -> bool {
    for flag in [
        "MS_REMOUNT",
        "MS_SHARED",
        "MS_SLAVE",
        "MS_PRIVATE",
        "MS_UNBINDABLE",
    ] {
        if has_flag(call.argument(3), flag) {
            return false;
        }
    }
    true
}

// A path that a process knows, by which a descriptor may be named later; empty where it is relative to what is not known.
fn path_known(alloc: Global, process: &Process, path: &str) -> Result<String, AllocError> {
    if path.starts_with('/') {
        return owned(alloc, path);
    }
    if process.root.as_str() == "/" {
        return process.whole(alloc, path);
    }
    Ok(String::new(alloc))
}

impl Trace {
    // The paths of a call.
    fn wholes(&self, place: usize, call: &Call<'_>, row: Row) -> Result<Wholes, AllocError> {
        let alloc = self.alloc;
        let Some(process) = self.processes.get(place) else {
            return Ok(Wholes {
                first: String::new(alloc),
                second: String::new(alloc),
            });
        };
        let saying = Saying {
            alloc,
            process,
            call,
            row,
        };
        let first = match row.verb {
            Verb::Fchdir => process.path_of(alloc, call.argument(0)),
            Verb::Getcwd => saying.text(0),
            _ => saying.first(),
        };
        Ok(Wholes {
            first: whole_of(alloc, process, first)?,
            second: whole_of(alloc, process, saying.second())?,
        })
    }

    // This was at a path before the trace, if the path is known.
    fn want(&mut self, path: &str, need: Need) -> Result<(), AllocError> {
        if path.is_empty() {
            return Ok(());
        }
        self.needs.want(path, need)
    }

    // The trace makes this, if its path is known.
    fn make(&mut self, path: &str) -> Result<(), AllocError> {
        if path.is_empty() {
            return Ok(());
        }
        self.needs.make(path)
    }

    // Notes what a call has found, and what it has made and taken away.
    fn note_needs(&mut self, call: &Call<'_>, row: Row, paths: &Wholes) -> Result<(), AllocError> {
        let (first, second) = (paths.first.as_str(), paths.second.as_str());
        if makes_first(call, row) {
            return self.make(first);
        }
        if let Some(need) = need_of_first(call, row) {
            self.want(first, need)?;
        }
        match row.verb {
            Verb::Unlink | Verb::Rmdir | Verb::Umount => self.needs.forget(first),
            Verb::Rename => {
                self.needs.forget(first);
                self.make(second)?;
            }
            Verb::Link => self.make(second)?,
            Verb::Mount | Verb::Pivot => self.want(second, Need::Directory)?,
            _ => {}
        }
        if row.verb == Verb::Mount && makes_mount(call) {
            self.make(second)?;
        }
        Ok(())
    }

    // A call that was refused has told what was there.
    fn note_refused(
        &mut self,
        call: &Call<'_>,
        row: Row,
        paths: &Wholes,
    ) -> Result<(), AllocError> {
        let found = match row.verb {
            Verb::Mkdir if call.text.contains(" EEXIST ") => paths.first.as_str(),
            Verb::Umount | Verb::Rmdir if call.text.contains(" EBUSY ") => paths.first.as_str(),
            Verb::Mount if !call.text.contains(" ENOENT ") => paths.second.as_str(),
            _ => "",
        };
        self.want(found, Need::Directory)
    }

    // Notes where a process has come to.
    fn note_place(&mut self, place: usize, row: Row, first: &str) -> Result<(), AllocError> {
        let alloc = self.alloc;
        let Some(process) = self.processes.get_mut(place) else {
            return Ok(());
        };
        match row.verb {
            Verb::Chdir | Verb::Fchdir | Verb::Getcwd => {
                process.directory = owned(alloc, first)?;
                process.is_placed = true;
            }
            Verb::Chroot => {
                process.root = owned(alloc, first)?;
                process.opened.clear();
            }
            Verb::Pivot => {
                process.root = String::new(alloc);
                process.directory = String::new(alloc);
                process.opened.clear();
            }
            _ => {}
        }
        Ok(())
    }

    // Notes the descriptor that a call has opened.
    fn note_opened(
        &mut self,
        place: usize,
        call: &Call<'_>,
        row: Row,
        is_said: bool,
    ) -> Result<(), AllocError> {
        let (alloc, Some(number)) = (self.alloc, call.number()) else {
            return Ok(());
        };
        let Some(process) = self.processes.get(place) else {
            return Ok(());
        };
        let saying = Saying {
            alloc,
            process,
            call,
            row,
        };
        let path = match saying.first() {
            Ok(path) => path_known(alloc, process, path.as_str())?,
            Err(_) => String::new(alloc),
        };
        let opened = Opened {
            path,
            number: if is_said {
                Some(process.free_number())
            } else {
                None
            },
            is_closed_by_exec: has_flag(call.argument(row.rest), "O_CLOEXEC"),
        };
        if let Some(process) = self.processes.get_mut(place) {
            process.opened.insert(number, opened)?;
        }
        Ok(())
    }

    /// Follows what a call does to the process, and what it tells of what was there.
    pub fn follow(
        &mut self,
        caller: Caller,
        call: &Call<'_>,
        row: Row,
        is_said: bool,
    ) -> Result<(), AllocError> {
        let place = caller.place;
        let paths = self.wholes(place, call, row)?;
        if !call.is_done() {
            return self.note_refused(call, row, &paths);
        }
        self.note_needs(call, row, &paths)?;
        match row.verb {
            Verb::Open | Verb::Creat => self.note_opened(place, call, row, is_said),
            Verb::Exec => self.close_by_exec(caller, call.text),
            _ if is_said => self.note_place(place, row, paths.first.as_str()),
            _ => Ok(()),
        }
    }

    // Takes a descriptor of a process away, and returns that of its task, if there is one.
    fn taken(&mut self, place: usize, number: u64) -> Option<u64> {
        self.processes
            .get_mut(place)?
            .opened
            .remove(&number)?
            .number
    }

    // Appends that a descriptor is closed, if the task has it open.
    fn close_number(&mut self, caller: Caller, number: u64, text: &str) -> Result<(), AllocError> {
        let Some(open) = self.taken(caller.place, number) else {
            return Ok(());
        };
        let task = self.task_at(caller.place)?;
        let words = format!(in self.alloc; "close {open}")?;
        self.write(caller.line, text, task.as_str(), words.as_str())
    }

    /// Appends that a descriptor is closed, if a call returns it again.
    pub fn close_before(
        &mut self,
        caller: Caller,
        call: &Call<'_>,
        row: Row,
    ) -> Result<(), AllocError> {
        match (row.verb, call.number()) {
            (Verb::Open | Verb::Creat, Some(number)) => {
                self.close_number(caller, number, "closed before, since it is returned again")
            }
            _ => Ok(()),
        }
    }

    /// Appends a call of close(2).
    pub fn close(&mut self, caller: Caller, call: &Call<'_>) -> Result<(), AllocError> {
        match number_in(call.argument(0)) {
            Some(number) if call.is_done() => self.close_number(caller, number, call.text),
            _ => Ok(()),
        }
    }

    // The first descriptor that exec closes.
    fn closed_by_exec(&self, place: usize) -> Option<u64> {
        for (number, opened) in &self.processes.get(place)?.opened {
            if opened.is_closed_by_exec {
                return Some(*number);
            }
        }
        None
    }

    // Appends that descriptors are closed, as exec does.
    fn close_by_exec(&mut self, caller: Caller, text: &str) -> Result<(), AllocError> {
        for _ in 0..u64::MAX {
            let Some(number) = self.closed_by_exec(caller.place) else {
                break;
            };
            self.close_number(caller, number, text)?;
        }
        Ok(())
    }

    /// Follows that a descriptor is copied: its path is known, but the task has no copy.
    pub fn copy(&mut self, place: usize, call: &Call<'_>) -> Result<(), AllocError> {
        let is_copy = call.name != "fcntl" || call.argument(1).starts_with("F_DUPFD");
        let (alloc, Some(process)) = (self.alloc, self.processes.get_mut(place)) else {
            return Ok(());
        };
        let (true, Ok(path), Some(number)) = (
            is_copy,
            process.path_of(alloc, call.argument(0)),
            call.number(),
        ) else {
            return Ok(());
        };
        process.opened.insert(
            number,
            Opened {
                path,
                number: None,
                is_closed_by_exec: false,
            },
        )?;
        self.body.count("a copy of a descriptor");
        Ok(())
    }
}
