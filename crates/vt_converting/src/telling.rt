//! What a conversion reports on the error output.
use std::alloc::{AllocError, Global};
use vt_check::draft::Draft;
use vt_files::told;
use vt_from::lines::Unknown;
use vt_from::script::Count;

/// Says which lines of a file have no known form.
pub fn tell_unknown<R: Eprint>(rt: &R, name: &str, unknown: &[Unknown]) {
    let name = told(name);
    for line in unknown {
        let (number, text) = (line.number, line.text.as_str());
        let _ = eprintln!(rt; "vtree: {name}: line {number} has no known form: {text}");
    }
}

// How many parts of a file are not modelled, by kind.
fn counted(alloc: Global, counts: &[Count]) -> Result<String, AllocError> {
    let mut text = Draft::new(alloc);
    for count in counts {
        let before = if text.len() == 0 {
            "; not modelled: "
        } else {
            "; "
        };
        text.push(before);
        text.push(count.kind);
        text.push(" (");
        text.push_number(count.count);
        text.push_char(')');
    }
    text.end()
}

/// Says how many lines were read, and how many parts of them are not modelled, by kind.
pub fn tell_counts<R: Eprint>(
    rt: &R,
    alloc: Global,
    name: &str,
    lines: u64,
    counts: &[Count],
) -> Result<(), AllocError> {
    let (name, counted) = (told(name), counted(alloc, counts)?);
    let counted = counted.as_str();
    let _ = eprintln!(rt; "vtree: {name}: {lines} lines{counted}");
    Ok(())
}
