//! A file of scripts with the answers that are given.
ghost use Rattle.std.specs.Prelude.{⊤};

use crate::compare::{Comparing, Difference, compare_all, is_refused};
use crate::suite::{Answer, Script, SuiteFault};
use std::alloc::{AllocError, Global};
use vt_lines::lines::first_line;
use vt_script::{Calls, Version};
use vt_wanted::entry::{Entry, entry_of};

// The lines of a script that are answered otherwise, by their numbers in the file, each with its answers as they are
// written there.
#[derive(Drop)]
struct Change {
    line: u64,
    answers: Vec<u8>,
}

// The answers of a line as they stand in a file.
fn written(alloc: Global, given: &[Answer<'_>]) -> Result<Vec<u8>, AllocError> {
    let mut text = Vec::new(alloc);
    for (place, answer) in given.iter().enumerate() {
        text.extend_from_slice(if place == 0 { b" => " } else { b"\n=> " })?;
        text.extend_from_slice(answer.text)?;
    }
    Ok(text)
}

// The changes of scripts, as they are answered. An allocation that fails is noted.
#[derive(Drop)]
struct Changes {
    alloc: Global,
    all: Vec<Change>,
    // How many of the lines are S1.
    refused: u64,
    failed: bool,
}

impl Comparing for Changes {
    ghost goes_on = { λ old lines new. ⊤ };

    fn tell(&mut self, script: &Script<'_>, found: &[Difference<'_>]) {
        for one in found {
            let line = script.before.saturating_add(one.number);
            self.refused = self
                .refused
                .saturating_add(u64::from(is_refused(one.given)));
            match written(self.alloc, one.given) {
                Ok(answers) => self.failed |= self.all.push(Change { line, answers }).is_err(),
                Err(_) => self.failed = true,
            }
        }
    }
}

// A file as it is written anew, with these changes. An allocation that fails is noted, and told at the end.
#[derive(Drop)]
struct Rewriting {
    changes: Changes,
    // How many of the changes are made.
    made: usize,
    // Whether further lines of an answer are left out, since it is written anew.
    leaves_out: bool,
    text: Vec<u8>,
    failed: bool,
}

impl Rewriting {
    // Writes a line of the file, whose call this is.
    fn write(&mut self, number: u64, line: &[u8], call: &[u8]) {
        match self.changes.all.get(self.made) {
            Some(change) if change.line == number => {
                self.failed |= self.text.extend_from_slice(call).is_err();
                let answers = change.answers.as_slice();
                self.failed |= self.text.extend_from_slice(answers).is_err();
                self.leaves_out = true;
                self.made = self.made.saturating_add(1);
            }
            _ => self.failed |= self.text.extend_from_slice(line).is_err(),
        }
        self.failed |= self.text.push(b'\n').is_err();
    }

    // Goes on by a line of the file.
    fn take(&mut self, number: u64, line: &[u8]) {
        let call = match entry_of(line) {
            Entry::More(_) if self.leaves_out => return,
            Entry::Line(call, _) => call,
            _ => line,
        };
        self.leaves_out = false;
        self.write(number, line, call);
    }

    // Writes a file, without a last newline where the file has none.
    fn write_all(&mut self, file: &[u8]) {
        let mut rest = file;
        let mut number: u64 = 0;
        while let Some((line, after)) = first_line(rest) {
            number = number.saturating_add(1);
            self.take(number, line);
            rest = after;
        }
        if file.last() != Some(&b'\n') {
            self.text.pop();
        }
    }

    // Finds the changes of a file, and makes them.
    fn rewrite<C: Calls>(
        &mut self,
        version: Version,
        alloc: Global,
        file: &[u8],
    ) -> Result<(), SuiteFault> {
        compare_all::<C, _>(version, alloc, file, &mut self.changes)?;
        self.write_all(file);
        if self.failed || self.changes.failed {
            return Err(SuiteFault::Memory);
        }
        Ok(())
    }
}

/// A file with other answers.
#[derive(Drop)]
pub struct Rewritten {
    pub text: Vec<u8>,
    /// How many lines have other answers.
    pub changes: usize,
    /// How many of them are S1.
    pub refused: u64,
}

/// The file, whose scripts are in a version of their language, with the given answers in the place of those that are
/// wanted and are not given; all else stays.
pub fn with_given_answers<C: Calls>(
    version: Version,
    alloc: Global,
    file: &[u8],
) -> Result<Rewritten, SuiteFault> {
    let mut rewriting = Rewriting {
        changes: Changes {
            alloc,
            all: Vec::new(alloc),
            refused: 0,
            failed: false,
        },
        made: 0,
        leaves_out: false,
        text: Vec::new(alloc),
        failed: false,
    };
    match rewriting.rewrite::<C>(version, alloc, file) {
        Ok(()) => Ok(Rewritten {
            text: rewriting.text,
            changes: rewriting.made,
            refused: rewriting.changes.refused,
        }),
        Err(fault) => Err(fault),
    }
}
