//! The outcome of a script as JSON, one object a line.
use crate::compare::Difference;
use crate::suite::{Answer, Script};
use crate::text::push_name;
use serde_json::Value;
use std::alloc::{AllocError, Global};
use vt_check::draft::Draft;
use vt_check::object::{List, Object};
use vt_lines::lines::first_line;
use vt_wanted::entry::without_end;

// The lines of a script from one of them on.
#[derive(Clone, Copy)]
struct Lines<'a> {
    text: &'a [u8],
    // The number of the first.
    first: u64,
}

impl<'a> Lines<'a> {
    // From the one of this number on, which does not stand before them. So a script is read once.
    fn from_line(self, number: u64) -> Lines<'a> {
        let mut text = self.text;
        for _ in self.first..number {
            match first_line(text) {
                Some((_, after)) => text = after,
                None => break,
            }
        }
        Lines {
            text,
            first: number,
        }
    }

    // The first, without spaces at its end; an empty one where there is none.
    fn first_line(self) -> &'a [u8] {
        match first_line(self.text) {
            Some((line, _)) => without_end(line),
            None => &[],
        }
    }
}

// Answers as texts.
fn texts(alloc: Global, answers: &[Answer<'_>]) -> Result<Value, AllocError> {
    let mut texts = List::new(alloc);
    for answer in answers {
        texts.push_bytes(answer.text);
    }
    texts.end()
}

// The differences of a script, in the order of its lines, each as an object.
fn differences(
    alloc: Global,
    script: &Script<'_>,
    found: &[Difference<'_>],
) -> Result<Value, AllocError> {
    let mut all = List::new(alloc);
    let mut lines = Lines {
        text: script.text.as_slice(),
        first: 1,
    };
    for one in found {
        lines = lines.from_line(one.number);
        let mut object = Object::new(alloc);
        object.put_number("line", script.before.saturating_add(one.number));
        object.put_bytes("call", lines.first_line());
        object.put("wanted", texts(alloc, one.wanted));
        object.put("given", texts(alloc, one.given));
        all.push(object.end());
    }
    all.end()
}

/// Appends a script and its differences, as an object and a newline.
pub fn push_outcome(
    text: &mut Draft,
    alloc: Global,
    file: &str,
    script: &Script<'_>,
    found: &[Difference<'_>],
) {
    let mut object = Object::of_kind(alloc, "script");
    object.put_text("file", file);
    object.put_number("line", script.before.saturating_add(1));
    let mut name = object.draft();
    push_name(&mut name, file, script.name);
    object.put_draft("script", name);
    object.put("passed", Ok(Value::Bool(found.is_empty())));
    object.put("differences", differences(alloc, script, found));
    object.push_line(text);
}

/// Appends a file that cannot be tested, as an object and a newline.
pub fn push_fault(text: &mut Draft, alloc: Global, file: &str, said: &str) {
    let mut object = Object::of_kind(alloc, "fault");
    object.put_text("file", file);
    object.put_text("error", said);
    object.push_line(text);
}

/// Appends how many scripts have passed and failed, as an object and a newline.
pub fn push_totals(text: &mut Draft, alloc: Global, passed: u64, failed: u64) {
    let mut object = Object::of_kind(alloc, "totals");
    object.put_number("passed", passed);
    object.put_number("failed", failed);
    object.push_line(text);
}
