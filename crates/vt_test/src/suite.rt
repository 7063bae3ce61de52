//! Files of scripts, each line beside its answer.
//!
//! `== NAME` begins a script, on a new world. `LINE => ANSWER` is a line and its answer, `LINE =>` one that has none,
//! `LINE` one that is answered `ok`, and `=> MORE` a further line of the answer above. A comment and a line of spaces
//! have no answer. What stands before the first name is a script too.
ghost use Rattle.std.specs.Prelude.{◌<◌, ◌++◌, ◌∷◌, ◌≡◌, [], IfOk, OnOk, false, length};
ghost use Rattle.vt_line.specs.Versions.{version_of};
ghost use Rattle.vt_wanted.specs.Entries.{call_of};
ghost use Rattle.vt_test.specs.Suite.{AreScriptsOf, Ends, ReadsAll, ReadsOn, SaysMore, has_call, is_kept};

use std::alloc::{AllocError, Global};
use std::collections::BTreeMap;
use std::mem;
use thiserror::Error;
use vt_lines::lines::first_line;
use vt_script::Version;
pub use vt_verdict::compare::Answer;
use vt_wanted::entry::{Entry, entry_of, is_silent};

/// A script with what it wants. Lines of the file that are none of the script are empty lines of it.
#[derive(Drop)]
pub struct Script<'a> {
    pub name: &'a [u8],
    /// Of its language.
    pub version: Version,
    /// How many lines of the file come before its first.
    pub before: u64,
    pub text: Vec<u8>,
    /// What is wanted, in the order of the lines.
    pub wanted: Vec<Answer<'a>>,
}

/// Why a file is none of scripts, with the number of the line.
#[derive(Debug, Drop, Error)]
pub enum SuiteFault {
    #[error("line {line}: a script of this name stands in line {first} too; give it another name")]
    SameName { line: u64, first: u64 },
    #[error("line {line}: there is no answer above that goes on here; write `LINE => ANSWER` first")]
    NothingAbove { line: u64 },
    #[error("line {line}: a script has a name; write `== NAME`")]
    NoName { line: u64 },
    #[error("no memory is left; give fewer files at a time")]
    Memory,
}

impl From<AllocError> for SuiteFault {
    fn from(_error: AllocError) -> SuiteFault {
        SuiteFault::Memory
    }
}

impl<'a> Script<'a> {
    fn new(version: Version, alloc: Global, name: &'a [u8], before: u64) -> Self
        ensures name { result.name ≡ name.entry }
        ensures version { result.version ≡ version }
        ensures text { result.text.items ≡ [] }
    {
        Script {
            name,
            version,
            before,
            text: Vec::new(alloc),
            wanted: Vec::new(alloc),
        }
    }

    // Whether it has a line that is neither a comment nor of spaces alone.
    fn has_call(&self) -> bool
        ensures { result ≡ has_call self.now.text.items }
    {
        let mut rest = self.text.as_slice();
        while let Some((line, after)) = first_line(rest) {
            if !is_silent(line) {
                return true;
            }
            rest = after;
        }
        false
    }

    // Whether it is one of the file's, where it ends: it has a name or a call.
    fn is_kept(&self) -> bool
        ensures { result ≡ is_kept self.now }
    {
        !self.name.is_empty() || self.has_call()
    }
}

// The scripts of a file, as far as it is read. An allocation that fails is noted, and told at the end.
#[derive(Drop)]
struct Reading<'a> {
    done: Vec<Script<'a>>,
    script: Script<'a>,
    names: BTreeMap<Vec<u8>, u64>,
    failed: bool,
}

impl<'a> Reading<'a> {
    // Notes the line of a name.
    fn note(&mut self, alloc: Global, line: u64, name: &[u8])
        ensures failed { self.new.failed ≡ false → self.old.failed ≡ false }
        ensures done { self.new.done ≡ self.old.done }
        ensures script { self.new.script ≡ self.old.script }
    {
        match name.to_vec(alloc) {
            Ok(name) => self.failed |= self.names.insert(name, line).is_err(),
            Err(_) => self.failed = true,
        }
    }

    // Begins a script.
    fn begin(&mut self, alloc: Global, line: u64, name: &'a [u8]) -> Result<(), SuiteFault>
        ensures { OnOk result (ReadsOn (10 ∷ []) self.old self.new) }
    {
        if name.is_empty() {
            return Err(SuiteFault::NoName { line });
        }
        if let Some(first) = self.names.get(name) {
            return Err(SuiteFault::SameName {
                line,
                first: *first,
            });
        }
        self.note(alloc, line, name);
        self.end(Script::new(self.script.version, alloc, name, line));
        Ok(())
    }

    // Ends a script, where another begins.
    fn end(&mut self, next: Script<'a>)
        ensures { self.new.failed ≡ false → Ends next.entry self.old self.new }
    {
        let script = mem::replace(&mut self.script, next);
        if !script.is_kept() {
            return;
        }
        self.failed |= self.done.push(script).is_err();
    }

    // Notes what a line wants, if it wants an answer.
    fn want(&mut self, number: u64, answer: Option<&'a [u8]>)
        ensures failed { self.new.failed ≡ false → self.old.failed ≡ false }
        ensures done { self.new.done ≡ self.old.done }
        ensures script { self.new.script ≡ record self.old.script { wanted = self.new.script.wanted } }
    {
        let Some(text) = answer else {
            return;
        };
        self.failed |= self.script.wanted.push(Answer { number, text }).is_err();
    }

    // Goes on with a script by a line of the file, which is line `number` of the script.
    fn say(&mut self, number: u64, call: &[u8], answer: Option<&'a [u8]>)
        ensures { self.new.failed ≡ false → SaysMore (call.now ++ 10 ∷ []) self.old self.new }
    {
        self.failed |= self.script.text.extend_from_slice(call).is_err();
        self.failed |= self.script.text.push(b'\n').is_err();
        self.want(number, answer);
    }

    // Goes on with the answer above by a further line of it, which is a line of the file.
    fn say_more(&mut self, line: u64, more: &'a [u8]) -> Result<(), SuiteFault>
        ensures { OnOk result (self.new.failed ≡ false → SaysMore (10 ∷ []) self.old self.new) }
    {
        let Some(above) = self.script.wanted.last() else {
            return Err(SuiteFault::NothingAbove { line });
        };
        let number = above.number;
        self.say(number, b"", Some(more));
        Ok(())
    }

    // Goes on by a line of the file.
    fn take(&mut self, alloc: Global, line: u64, text: &'a [u8]) -> Result<(), SuiteFault>
        ensures { OnOk result (ReadsOn (call_of text.now ++ 10 ∷ []) self.old self.new) }
    {
        match entry_of(text) {
            Entry::Name(name) => self.begin(alloc, line, name),
            Entry::More(more) => self.say_more(line, more),
            Entry::Line(call, answer) => {
                let number = line.saturating_sub(self.script.before);
                self.say(number, call, answer);
                Ok(())
            }
        }
    }

    // Goes on by all lines of a file.
    fn read(&mut self, version: Version, alloc: Global, file: &'a [u8]) -> Result<(), SuiteFault>
        ensures { OnOk result (ReadsAll file.now self.old self.new) }
    {
        let mut rest = file;
        let mut number: u64 = 0;
        while let Some((line, after)) = first_line(rest) {
            number = number.saturating_add(1);
            self.take(alloc, number, line)?;
            rest = after;
        }
        self.end(Script::new(version, alloc, b"", 0));
        Ok(())
    }
}

/// The scripts of a file, all in this version of their language.
pub fn scripts(version: Version, alloc: Global, file: &[u8]) -> Result<Vec<Script<'_>>, SuiteFault>
    ensures { IfOk result (λ scripts. AreScriptsOf (version_of version) file.now scripts.items) }
{
    let mut reading = Reading {
        done: Vec::new(alloc),
        script: Script::new(version, alloc, b"", 0),
        names: BTreeMap::new(alloc),
        failed: false,
    };
    match reading.read(version, alloc, file) {
        Ok(()) if reading.failed => Err(SuiteFault::Memory),
        Ok(()) => Ok(reading.done),
        Err(fault) => Err(fault),
    }
}
