//! A report as JSON, one object a line.
use crate::draft::Draft;
use crate::object::{List, Object};
use crate::report::{Finding, Report};
use std::alloc::Global;

/// Appends a finding of the file of this name, as an object and a newline.
pub fn push_found(
    text: &mut Draft,
    alloc: Global,
    name: &str,
    strict: bool,
    finding: &Finding<'_>,
) {
    let found = &finding.diagnosis;
    let mut lines = List::new(alloc);
    for line in &found.lines {
        lines.push_text(line.as_str());
    }
    let mut message = Draft::new(alloc);
    message.push_draft(&found.message);
    let mut object = Object::of_kind(alloc, "finding");
    object.put_text("file", name);
    object.put_number("line", finding.line);
    object.put_number("column", (found.column as u64).saturating_add(1));
    object.put_number("width", found.width as u64);
    object.put_bytes("text", finding.text);
    object.put_text("level", finding.told_level(strict));
    object.put_text("rule", finding.rule());
    object.put_draft("message", message);
    object.put("write", lines.end());
    object.put_text("help", found.words);
    object.put_text("note", found.note);
    object.push_line(text);
}

/// Appends how much was found in the file of this name, as an object and a newline.
pub fn push_summary(text: &mut Draft, alloc: Global, name: &str, report: &Report<'_>) {
    let mut object = Object::of_kind(alloc, "file");
    object.put_text("file", name);
    object.put_number("errors", report.errors);
    object.put_number("warnings", report.warnings);
    object.push_line(text);
}
