//! The outcome of scripts as JUnit's XML.
use crate::compare::Difference;
use crate::suite::Script;
use crate::test::Totals;
use crate::text::{push_failure, push_name};
use std::alloc::Global;
use vt_check::draft::Draft;

/// What stands before all files, and behind them.
pub const HEAD: &str = "<?xml version=\"1.0\" encoding=\"UTF-8\"?>\n<testsuites>\n";

pub const FOOT: &str = "</testsuites>\n";

// Appends a text as XML has it; a control character is shown as a replacement, since XML has none.
fn push_text(text: &mut Draft, part: &str) {
    for character in part.chars() {
        match character {
            '<' => text.push("&lt;"),
            '>' => text.push("&gt;"),
            '&' => text.push("&amp;"),
            '"' => text.push("&quot;"),
            '\n' => text.push_char('\n'),
            '\u{0}'..='\u{1f}' | '\u{fffe}' | '\u{ffff}' => text.push_char('\u{fffd}'),
            _ => text.push_char(character),
        }
    }
}

// Appends a text that was written, as XML has it.
fn push_draft(text: &mut Draft, part: Draft) {
    match part.end() {
        Ok(part) => push_text(text, part.as_str()),
        Err(_) => text.fail(),
    }
}

// Appends the head of a test case of this class, up to the mark that ends the text of its name.
fn push_class(text: &mut Draft, file: &str) {
    text.push("<testcase classname=\"");
    push_text(text, file);
    text.push("\" name=\"");
}

// Appends an attribute that is a number.
fn push_count(text: &mut Draft, name: &str, count: u64) {
    text.push(name);
    text.push("=\"");
    text.push_number(count);
    text.push_char('"');
}

/// Appends a file as a test suite of these test cases, of which so many failed, and the last one because of an error.
pub fn push_file(text: &mut Draft, file: &str, cases: &Draft, totals: Totals, is_error: bool) {
    let errors = if is_error { 1 } else { 0 };
    text.push("<testsuite name=\"");
    push_text(text, file);
    push_count(
        text,
        "\" tests",
        totals.passed.saturating_add(totals.failed),
    );
    push_count(text, " failures", totals.failed.saturating_sub(errors));
    push_count(text, " errors", errors);
    text.push(">\n");
    text.push_draft(cases);
    text.push("</testsuite>\n");
}

/// Appends a script as a test case.
pub fn push_outcome(
    text: &mut Draft,
    alloc: Global,
    file: &str,
    script: &Script<'_>,
    found: &[Difference<'_>],
) {
    let mut name = Draft::new(alloc);
    push_name(&mut name, file, script.name);
    push_class(text, file);
    push_draft(text, name);
    if found.is_empty() {
        text.push("\"/>\n");
        return;
    }
    text.push("\">\n<failure message=\"answers that differ: ");
    text.push_number(found.len() as u64);
    text.push("\">");
    let mut told = Draft::new(alloc);
    push_failure(&mut told, alloc, file, script, found);
    push_draft(text, told);
    text.push("</failure>\n</testcase>\n");
}

/// Appends a file that cannot be tested, as a test case that fails.
pub fn push_fault(text: &mut Draft, file: &str, said: &str) {
    push_class(text, file);
    push_text(text, file);
    text.push("\">\n<error message=\"");
    push_text(text, said);
    text.push("\"/>\n</testcase>\n");
}
