//! The lines of a file of scripts.
//!
//! `== NAME` begins a script, on a new world. `LINE => ANSWER` is a line and its answer, `LINE =>` one that has none,
//! `LINE` one that is answered `ok`, and `=> MORE` a further line of the answer above. A comment and a line of spaces
//! have no answer.
ghost use Rattle.std.specs.Prelude.{◌≡◌, IfOk};
ghost use Rattle.vt_spec.specs.Language.Script.{is_silent};
ghost use Rattle.vt_wanted.specs.Entries.{before_mark, begins_apart, call_in, call_of, calls_of, is_mark};

use std::alloc::{AllocError, Global};
use vt_io::line::LONGEST_LINE;
use vt_lines::lines::first_line;

// What stands before an answer.
const MARK: &[u8] = b" =>";

/// What a line of a file is.
#[derive(Clone, Copy)]
pub enum Entry<'a> {
    /// The name of a new script.
    Name(&'a [u8]),
    /// A further line of the answer above.
    More(&'a [u8]),
    /// A line of a script, and its answer if it has one.
    Line(&'a [u8], Option<&'a [u8]>),
}

// A text without the spaces before it.
fn without_front(text: &[u8]) -> &[u8] {
    for (place, byte) in text.iter().enumerate() {
        if *byte != b' ' {
            return text.get(place..).unwrap_or_default();
        }
    }
    &[]
}

/// A text without the spaces behind it.
pub fn without_end(text: &[u8]) -> &[u8] {
    let mut end: usize = 0;
    for (place, byte) in text.iter().enumerate() {
        if *byte != b' ' {
            end = place.saturating_add(1);
        }
    }
    text.get(..end).unwrap_or_default()
}

// A text without the spaces around it.
fn trimmed(text: &[u8]) -> &[u8] {
    without_front(without_end(text))
}

// Whether a text is empty, or begins with a space.
fn begins_apart(text: &[u8]) -> bool
    ensures { result ≡ begins_apart text.now }
{
    matches!(text.first(), None | Some(b' '))
}

// Whether a text begins with the mark of an answer.
fn is_mark(text: &[u8]) -> bool
    ensures { result ≡ is_mark text.now }
{
    match text.strip_prefix(MARK) {
        Some(rest) => begins_apart(rest),
        None => false,
    }
}

// What stands in a line before its first mark.
fn before_mark(line: &[u8]) -> &[u8]
    ensures { result.now ≡ before_mark line.now }
{
    for place in 0..line.len() {
        let (before, rest) = line.split_at(place);
        if is_mark(rest) {
            return before;
        }
    }
    line
}

/// Whether a line is of spaces alone, or a comment.
pub fn is_silent(line: &[u8]) -> bool
    ensures { result ≡ is_silent line.now }
{
    match line.iter().find(|byte| **byte != b' ') {
        None => true,
        Some(first) => *first == b'#',
    }
}

// The line and its answer, whose call this is.
fn line_of<'a>(line: &'a [u8], call: &'a [u8]) -> Entry<'a>
    ensures { call_in result ≡ call.now }
{
    if call.len() == line.len() {
        return Entry::Line(call, Some(b"ok"));
    }
    let answer = line.get(call.len().saturating_add(MARK.len())..);
    let answer = trimmed(answer.unwrap_or_default());
    Entry::Line(call, (!answer.is_empty()).then_some(answer))
}

/// What a line of a file is. One that is a comment or of spaces alone, and not too long to be one, has no answer.
pub fn entry_of(line: &[u8]) -> Entry<'_>
    ensures { call_in result ≡ call_of line.now }
{
    if let Some(name) = line.strip_prefix(b"==") {
        if begins_apart(name) {
            return Entry::Name(trimmed(name));
        }
    }
    if let Some(more) = line.strip_prefix(b"=> ") {
        return Entry::More(trimmed(more));
    }
    if is_silent(line) && line.len() <= LONGEST_LINE {
        return Entry::Line(line, None);
    }
    line_of(line, before_mark(line))
}

/// The calls of a file, a line for each of its lines, without the answers that they want. It is empty for the name of
/// a script, and for a further line of an answer.
pub fn calls_of(alloc: Global, file: &[u8]) -> Result<Vec<u8>, AllocError>
    ensures { IfOk result (λ calls. calls.items ≡ calls_of file.now) }
{
    let mut calls = Vec::new(alloc);
    let mut rest = file;
    while let Some((line, after)) = first_line(rest) {
        if let Entry::Line(call, _) = entry_of(line) {
            calls.extend_from_slice(call)?;
        }
        calls.push(b'\n')?;
        rest = after;
    }
    Ok(calls)
}

/// Whether a file holds names of scripts, or answers that they want.
pub fn holds_answers(file: &[u8]) -> bool {
    let mut rest = file;
    while let Some((line, after)) = first_line(rest) {
        match entry_of(line) {
            Entry::Line(call, _) if call.len() == line.len() => {}
            _ => return true,
        }
        rest = after;
    }
    false
}
