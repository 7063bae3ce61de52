//! A script that is being written, and what of its source is not modelled.
use std::alloc::{AllocError, Global};
use vt_check::draft::Draft;

// The most bytes of a source's line that a comment shows, so that the comment is no line that is too long.
const MOST_SHOWN: usize = 4096;

/// Why a part of a source is not modelled, and how often that was.
#[derive(Clone, Copy)]
pub struct Count {
    pub kind: &'static str,
    pub count: u64,
}

/// A script that is being written. An allocation that fails is noted, and told at the end.
#[derive(Drop)]
pub struct Script {
    alloc: Global,
    text: Draft,
    lines: u64,
    counts: Vec<Count>,
}

/// A script that was written.
#[derive(Drop)]
pub struct Written {
    pub text: String,
    /// How many lines it has.
    pub lines: u64,
    /// What is not modelled.
    pub counts: Vec<Count>,
}

impl Script {
    /// A script without lines.
    pub fn empty(alloc: Global) -> Self {
        Script {
            alloc,
            text: Draft::new(alloc),
            lines: 0,
            counts: Vec::new(alloc),
        }
    }

    /// A script of version 2 for a command, with this on where it comes from.
    pub fn new(alloc: Global, source: &str, command: &str) -> Self {
        let mut script = Script::empty(alloc);
        script.say("#!/usr/bin/env -S vtree {} --script 2", &[command]);
        script.say(
            "# By `vtree from {}`; version 2 of the language.",
            &[source],
        );
        script
    }

    /// Appends a line: a form, with the parts in the places of its `{}`.
    pub fn say(&mut self, form: &str, parts: &[&str]) {
        self.text.fill(form, parts);
        self.text.push_char('\n');
        self.lines = self.lines.saturating_add(1);
    }

    /// Appends a comment: what it says of a line of the source, and that line.
    pub fn quote(&mut self, said: &str, line: &str) {
        let shown = line.get(..MOST_SHOWN).unwrap_or(line);
        self.say("# {}: {}", &[said, shown]);
    }

    /// Appends a comment on what is not modelled, and counts it.
    pub fn skip(&mut self, kind: &'static str, what: &str) {
        let shown = what.get(..MOST_SHOWN).unwrap_or(what);
        self.say("# not modelled: {}: {}", &[kind, shown]);
        self.count(kind);
    }

    /// Counts what is not modelled.
    pub fn count(&mut self, kind: &'static str) {
        self.add(kind, 1);
    }

    // Counts so much that is not modelled.
    fn add(&mut self, kind: &'static str, count: u64) {
        for known in self.counts.iter_mut() {
            if known.kind == kind {
                known.count = known.count.saturating_add(count);
                return;
            }
        }
        if self.counts.push(Count { kind, count }).is_err() {
            self.text.fail();
        }
    }

    /// Appends the lines of another script, and counts what it counted.
    pub fn append(&mut self, other: Script) {
        self.text.push_draft(&other.text);
        self.lines = self.lines.saturating_add(other.lines);
        for known in &other.counts {
            self.add(known.kind, known.count);
        }
    }

    /// Notes that an allocation failed.
    pub fn fail(&mut self) {
        self.text.fail();
    }

    /// The allocator.
    pub fn alloc(&self) -> Global {
        self.alloc
    }

    /// The script, if no allocation failed.
    pub fn end(self) -> Result<Written, AllocError> {
        let (lines, counts) = (self.lines, self.counts);
        Ok(Written {
            text: self.text.end()?,
            lines,
            counts,
        })
    }
}
