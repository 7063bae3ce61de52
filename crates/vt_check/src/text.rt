//! A report as text, in the form of a compiler's errors.
use crate::bytes::TOLD_ONCE;
use crate::draft::Draft;
use crate::report::{Finding, Report};

// The most columns of a line of a script that are shown.
const MOST_COLUMNS: usize = 84;

// How many columns before a fault are shown of a long line.
const COLUMNS_BEFORE: usize = 30;

// Faults that are told at the first line alone that has them: what the further lines have.
static TOLD: [&str; TOLD_ONCE] = [
    "CR LF at the end",
    "a byte order mark",
    "a tab",
    "a byte above 0x7e",
];

// Appends the part of a line in which a fault stands, from one column on to another, and carets below it behind a
// margin.
fn push_part(text: &mut Draft, line: &[u8], column: usize, end: usize) -> (usize, usize) {
    let begin = text.len();
    let from = if line.len() <= MOST_COLUMNS {
        0
    } else {
        column.saturating_sub(COLUMNS_BEFORE)
    };
    if from > 0 {
        text.push("...");
    }
    let shown = text.len().saturating_sub(begin);
    let mut before = column.saturating_sub(from).saturating_add(shown);
    let mut width: usize = 0;
    for (place, byte) in line.iter().enumerate() {
        if place < from {
            continue;
        }
        let shown = text.len().saturating_sub(begin);
        if shown >= MOST_COLUMNS {
            text.push("...");
            break;
        }
        text.push_byte(*byte);
        let now = text.len().saturating_sub(begin);
        if place < column {
            before = now;
        } else if place < end {
            width = width.saturating_add(now.saturating_sub(shown));
        }
    }
    (before, width)
}

// Appends where a finding is, and its line with carets below what is at fault.
fn push_excerpt(text: &mut Draft, name: &str, finding: &Finding<'_>) {
    let (number, found) = (finding.line, &finding.diagnosis);
    text.push_margin(number, "--> ");
    text.push(name);
    text.push_char(':');
    text.push_number(number);
    text.push_char(':');
    text.push_number((found.column as u64).saturating_add(1));
    text.push_char('\n');
    text.push_margin(number, " |\n");
    text.push_number(number);
    text.push(" | ");
    let end = found.column.saturating_add(found.width);
    let (before, width) = push_part(text, finding.text, found.column, end);
    text.push_char('\n');
    text.push_margin(number, " | ");
    text.push_times(' ', before);
    text.push_times('^', width.max(1));
    text.push_char('\n');
}

// Appends what is said behind a mark, if something is.
fn push_said(text: &mut Draft, number: u64, mark: &str, said: &str) {
    if !said.is_empty() {
        text.push_margin(number, mark);
        text.push(said);
        text.push_char('\n');
    }
}

// Appends what to write, and what else is to be known. Words about lines that are proposed are a note.
fn push_help(text: &mut Draft, finding: &Finding<'_>) {
    let (number, found) = (finding.line, &finding.diagnosis);
    let mut mark = " = help: ";
    for (place, line) in found.lines.iter().enumerate() {
        if place == 0 {
            text.push_margin(number, " = help: write `");
        } else {
            text.push("`, then `");
        }
        text.push(line.as_str());
        mark = " = note: ";
    }
    if !found.lines.is_empty() {
        text.push("`\n");
    }
    push_said(text, number, mark, found.words);
    push_said(text, number, " = note: ", found.note);
}

/// Appends what is found in a line, as several lines and an empty one.
pub fn push_found(text: &mut Draft, name: &str, strict: bool, finding: &Finding<'_>) {
    text.push(finding.told_level(strict));
    match finding.rule() {
        "" => {}
        rule => text.fill("[{}]", &[rule]),
    }
    text.push(": ");
    text.push_draft(&finding.diagnosis.message);
    text.push_char('\n');
    push_excerpt(text, name, finding);
    push_help(text, finding);
    text.push_char('\n');
}

// Appends how many of a thing there are.
fn push_count(text: &mut Draft, count: u64, one: &str, several: &str) {
    text.push_number(count);
    text.push(if count == 1 { one } else { several });
}

// Appends a note about a number of lines or findings, if there are any: what is said of one or of several.
fn push_note(text: &mut Draft, count: u64, [one, several]: [&str; 2], what: &str) {
    if count > 0 {
        text.push("note: ");
        push_count(text, count, one, several);
        text.push(what);
        text.push_char('\n');
    }
}

/// Appends what is said behind the findings of the file of this name; nothing where nothing was found.
pub fn push_summary(text: &mut Draft, name: &str, report: &Report<'_>) {
    let found = report.errors.saturating_add(report.warnings);
    let mut hidden = found.saturating_sub(report.findings.len() as u64);
    for (kind, what) in TOLD.iter().enumerate() {
        let told = report.told.get(kind).copied().unwrap_or_default();
        let further = told.saturating_sub(1);
        hidden = hidden.saturating_sub(further);
        push_note(
            text,
            further,
            [" more line has ", " more lines have "],
            what,
        );
    }
    push_note(text, hidden, [" more are not shown"; 2], "");
    if found > 0 {
        text.push(name);
        text.push(": ");
        push_count(text, report.errors, " error, ", " errors, ");
        push_count(text, report.warnings, " warning\n", " warnings\n");
    }
}
