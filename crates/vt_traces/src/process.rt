//! Processes of a trace, and where their paths lead.
use crate::call::number_in;
use std::alloc::{AllocError, Global};
use std::collections::BTreeMap;
use vt_from::words::{joined, owned};

/// Why a call is not said.
#[derive(Clone, Copy)]
pub enum Why {
    Memory,
    /// It is not modelled, of this kind.
    Kind(&'static str),
    /// The same, and it changes nothing.
    Look(&'static str),
}

impl From<AllocError> for Why {
    fn from(_error: AllocError) -> Why {
        Why::Memory
    }
}

const NO_DIRECTORY: &str = "a relative path, where no working directory was seen";

const NO_DESCRIPTOR: &str = "a descriptor whose path was not seen";

/// A descriptor of a process.
#[derive(Drop)]
pub struct Opened {
    /// The path, from the root of the process; empty where it was not seen.
    pub path: String,
    /// The descriptor of its task, if that has it open.
    pub number: Option<u64>,
    pub is_closed_by_exec: bool,
}

/// A process of a trace.
#[derive(Drop)]
pub struct Process {
    /// Its task; empty if it has none.
    pub task: String,
    /// How often it has forked.
    pub forks: u64,
    /// Whether its working directory was seen, so that its task has the same.
    pub is_placed: bool,
    /// Its working directory and its root, from the first root of the trace; empty where that is not known.
    pub directory: String,
    pub root: String,
    pub opened: BTreeMap<u64, Opened>,
}

// A copy of a descriptor.
fn copy_of(alloc: Global, opened: &Opened) -> Result<Opened, AllocError> {
    Ok(Opened {
        path: owned(alloc, opened.path.as_str())?,
        number: opened.number,
        is_closed_by_exec: opened.is_closed_by_exec,
    })
}

impl Process {
    /// The first process.
    pub fn first(alloc: Global) -> Result<Self, AllocError> {
        Ok(Process {
            task: owned(alloc, "t")?,
            forks: 0,
            is_placed: false,
            directory: String::new(alloc),
            root: owned(alloc, "/")?,
            opened: BTreeMap::new(alloc),
        })
    }

    /// A child, as fork(2) makes it, with a task of this name.
    pub fn child(&self, alloc: Global, task: String) -> Result<Self, AllocError> {
        let mut opened = BTreeMap::new(alloc);
        for (number, one) in &self.opened {
            opened.insert(*number, copy_of(alloc, one)?)?;
        }
        Ok(Process {
            task,
            forks: 0,
            is_placed: self.is_placed,
            directory: owned(alloc, self.directory.as_str())?,
            root: owned(alloc, self.root.as_str())?,
            opened,
        })
    }

    // The path of the directory that an argument names.
    fn directory_named(&self, alloc: Global, argument: &str) -> Result<String, Why> {
        let Some(number) = number_in(argument) else {
            return Err(Why::Kind(NO_DESCRIPTOR));
        };
        match self.opened.get(&number) {
            Some(opened) if !opened.path.is_empty() => { Ok(owned(alloc, opened.path.as_str())?) }
            _ => Err(Why::Kind(NO_DESCRIPTOR)),
        }
    }

    /// A path as the task is to have it: relative to its working directory, or to that of a descriptor that an argument
    /// names.
    pub fn path(&self, alloc: Global, directory: &str, word: String) -> Result<String, Why> {
        if word.starts_with('/') {
            return Ok(word);
        }
        if directory.is_empty() || directory == "AT_FDCWD" {
            return if self.is_placed {
                Ok(word)
            } else {
                Err(Why::Kind(NO_DIRECTORY))
            };
        }
        let top = self.directory_named(alloc, directory)?;
        // The empty path is that of the descriptor.
        if word.as_str() == "\\e" {
            return Ok(top);
        }
        Ok(format!(in alloc; "{top}/{word}")?)
    }

    /// The path of a descriptor.
    pub fn path_of(&self, alloc: Global, argument: &str) -> Result<String, Why> {
        self.directory_named(alloc, argument)
    }

    /// A path from the first root of the trace; empty where that is not known.
    pub fn whole(&self, alloc: Global, path: &str) -> Result<String, AllocError> {
        let top = if path.starts_with('/') {
            self.root.as_str()
        } else {
            self.directory.as_str()
        };
        if top.is_empty() || path.contains("..") {
            return Ok(String::new(alloc));
        }
        let path = path.strip_suffix('/').unwrap_or(path);
        if path.is_empty() || path == "." {
            return owned(alloc, top);
        }
        if path.starts_with('/') {
            return joined(alloc, top, path);
        }
        if top == "/" {
            return format!(in alloc; "/{path}");
        }
        format!(in alloc; "{top}/{path}")
    }

    // Whether a descriptor of the task has this number.
    fn has_number(&self, number: u64) -> bool {
        for opened in self.opened.values() {
            if opened.number == Some(number) {
                return true;
            }
        }
        false
    }

    /// The lowest number of a descriptor that its task does not have open.
    pub fn free_number(&self) -> u64 {
        for number in 0..256 {
            if !self.has_number(number) {
                return number;
            }
        }
        0
    }
}
