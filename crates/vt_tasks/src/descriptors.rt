//! The open files of a task, by their numbers.
ghost use Rattle.std.specs.Prelude.{◌≡◌, ◌<◌, ◌≤◌, ◌==◌, ◌⊎◌, [], length, map, find, filter, not, option_map, Some, Ok, Err, IfOk, IfErr, OnOk, OnErr};
ghost use Rattle.std.specs.Fn.{FnOnceReturnsAtMut, FnOnceTakesAtMut};
ghost use Rattle.vt_spec.specs.Language.Calls.{opens_for_writing};
ghost use Rattle.vt_spec.specs.Machine.Descriptors.{free_from, inserted};
ghost use Rattle.vt_location.specs.Locations.{location_of};
ghost use Rattle.vt_request.specs.Requests.{access_of};
ghost use Rattle.vt_tasks.specs.Open.{numbered};

use indexmap::IndexMap;
use std::alloc::{AllocError, Global};
use std::marker::Model;
use vt_location::Location;
use vt_request::Access;

/// The most files that a task has open: RLIMIT_NOFILE of setrlimit(2).
pub const MAX_DESCRIPTORS: usize = 256;

/// An open file, and what it was opened for.
#[derive(Clone, Copy, Debug, PartialEq, Eq)]
pub struct OpenFile {
    pub location: Location,
    pub access: Access,
}

/// The open files of a task, in the order of their numbers.
#[derive(Debug, Drop)]
pub struct Descriptors {
    by_number: IndexMap<u8, OpenFile>,
}

impl Model for Descriptors {
    ghost use Rattle.std.specs.Prelude.{ℕ, List, map, ◌≡◌, true};
    ghost use Rattle.vt_spec.specs.Machine.World.{Descriptor};
    ghost use Rattle.vt_tasks.specs.Open.{descriptor_of, are_ascending};

    ghost Value = { List (Descriptor ℕ) };

    ghost view = { λ d. map descriptor_of d.by_number.entries };

    ghost invariant = { λ d. are_ascending 0 d.by_number.entries ≡ true };
}

impl Descriptors {
    /// No open files. It does not allocate.
    pub fn new(alloc: Global) -> Self
        ensures { result ≡ [] }
    {
        Descriptors {
            by_number: IndexMap::new(alloc),
        }
    }

    /// How many files are open.
    pub fn len(&self) -> usize
        ensures { result ≡ length self.now }
    {
        self.by_number.len()
    }

    /// The open file of this number.
    pub fn get(&self, number: u8) -> Option<OpenFile>
        ensures { option_map (numbered number) result ≡ find (λ descriptor. number == descriptor.number) self.now }
    {
        self.by_number.get(&number).copied()
    }

    /// The least free number.
    pub fn free_number(&self) -> usize
        ensures value { result ≡ free_from 0 self.now }
        ensures limit { result ≤ length self.now }
    {
        let mut free = 0;
        for number in self.by_number.keys() {
            if usize::from(*number) != free {
                return free;
            }
            free += 1;
        }
        free
    }

    /// Opens a file under the least free number, and returns that number.
    pub fn insert(&mut self, opened: OpenFile) -> Result<u8, AllocError>
        requires few { length self.old < MAX_DESCRIPTORS }
        ensures number { IfOk result (λ number. number ≡ free_from 0 self.old) }
        ensures ok { IfOk result (λ number. self.new ≡ inserted (numbered number opened) self.old) }
        ensures err { OnErr result (self.new ≡ self.old) }
    {
        let free = self.free_number();
        let number = free as u8;
        self.by_number.insert_before(free, number, opened)?;
        Ok(number)
    }

    /// Opens a file under the least free number, and returns that number. Before that, and after all memory is
    /// reserved, it takes one more step, which may fail and change something else.
    ///
    /// If an allocation fails, that step has not been taken.
    pub fn insert_after<S, F: FnOnce(&mut S) -> Result<(), AllocError>>(
        &mut self,
        opened: OpenFile,
        other: &mut S,
        step: F,
    ) -> Result<u8, AllocError>
        requires few { length self.old < MAX_DESCRIPTORS }
        requires callable { FnOnceTakesAtMut F.FnOnce step other.old }
        ensures number { IfOk result (λ number. number ≡ free_from 0 self.old) }
        ensures ok { IfOk result (λ number. self.new ≡ inserted (numbered number opened) self.old) }
        ensures step_ok { OnOk result (FnOnceReturnsAtMut F.FnOnce step other.old (Ok tt) other.new) }
        ensures step_err { IfErr result (λ refused. (other.new ≡ other.old)
            ⊎ FnOnceReturnsAtMut F.FnOnce step other.old (Err refused) other.new) }
        ensures err { OnErr result (self.new ≡ self.old) }
    {
        self.by_number.reserve(1)?;
        step(other)?;
        let free = self.free_number();
        let number = free as u8;
        // It cannot fail: room is reserved.
        let _ = self.by_number.insert_before(free, number, opened);
        Ok(number)
    }

    /// Closes the file of this number, and returns it. It does not allocate.
    pub fn remove(&mut self, number: u8) -> Option<OpenFile>
        ensures value { option_map (numbered number) result
            ≡ find (λ descriptor. number == descriptor.number) self.old }
        ensures rest { self.new ≡ filter (λ descriptor. not (number == descriptor.number)) self.old }
    {
        self.by_number.shift_remove(&number)
    }

    /// The open files, in the order of their numbers.
    pub fn files(&self) -> &[OpenFile]
        ensures locations { map (λ held. location_of held.location) result.now
            ≡ map (λ descriptor. descriptor.location) self.now }
        ensures writes { map (λ held. opens_for_writing (access_of held.access)) result.now
            ≡ map (λ descriptor. descriptor.writes) self.now }
    {
        self.by_number.values().as_slice()
    }
}
