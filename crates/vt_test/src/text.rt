//! The outcome of a script as text.
use crate::compare::{Difference, is_refused};
use crate::suite::{Answer, Script};
use std::alloc::{AllocError, Global};
use vt_check::check::{NumberedLine, push_explained};
use vt_check::draft::Draft;
use vt_check::report::line_at;
use vt_wanted::entry::without_end;

/// The most differences of a script that are shown.
pub const MOST_SHOWN: usize = 50;

/// Appends the name of a script as it is shown: its own, or that of its file where it has none.
pub fn push_name(text: &mut Draft, file: &str, name: &[u8]) {
    if name.is_empty() {
        text.push(file);
        return;
    }
    match str::from_utf8(name) {
        Ok(name) => text.push(name),
        Err(_) => text.push_bytes(name),
    }
}

// A line of a script, by its number, without spaces at its end.
fn line_of<'a>(script: &'a Script<'_>, number: u64) -> &'a [u8] {
    without_end(line_at(script.text.as_slice(), number))
}

// Appends the answers of a line of the file that has this number, each behind a mark.
fn push_answers(text: &mut Draft, number: u64, mark: &str, answers: &[Answer<'_>]) {
    for answer in answers {
        text.push_margin(number, mark);
        text.push_bytes(answer.text);
        text.push_char('\n');
    }
}

// Appends a difference: where the line stands in the file, the line, and the answers; where the line is refused as none
// of the grammar, and that is not wanted, also what is wrong.
fn push_difference(
    text: &mut Draft,
    alloc: Global,
    file: &str,
    script: &Script<'_>,
    found: &Difference<'_>,
) {
    let line = NumberedLine {
        number: script.before.saturating_add(found.number),
        text: line_of(script, found.number),
    };
    let number = line.number;
    text.push_margin(number, "--> ");
    text.push(file);
    text.push_char(':');
    text.push_number(number);
    text.push_char('\n');
    text.push_margin(number, " |\n");
    text.push_number(number);
    text.push(" | ");
    text.push_bytes(line.text);
    text.push_char('\n');
    push_answers(text, number, " | - ", found.wanted);
    push_answers(text, number, " | + ", found.given);
    if is_refused(found.given) {
        push_explained(text, script.version, alloc, file, line);
    }
}

/// What is written of a script that fails.
pub fn failure(
    alloc: Global,
    file: &str,
    script: &Script<'_>,
    found: &[Difference<'_>],
) -> Result<String, AllocError> {
    let mut text = Draft::new(alloc);
    push_failure(&mut text, alloc, file, script, found);
    text.end()
}

/// Appends what is written of a script that fails.
pub fn push_failure(
    text: &mut Draft,
    alloc: Global,
    file: &str,
    script: &Script<'_>,
    found: &[Difference<'_>],
) {
    text.push("failed: ");
    push_name(text, file, script.name);
    text.push_char('\n');
    for one in found.get(..MOST_SHOWN).unwrap_or(found) {
        push_difference(text, alloc, file, script, one);
    }
    let hidden = found.len().saturating_sub(MOST_SHOWN);
    if hidden > 0 {
        text.push("note: ");
        text.push_number(hidden as u64);
        text.push(" more differences are not shown\n");
    }
    if !text.ends_with("\n\n") {
        text.push_char('\n');
    }
}
