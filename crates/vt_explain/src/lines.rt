//! The line that is asked for, and calls near it.
use std::alloc::{AllocError, Global};
use vt_line::line::Line;
use vt_lines::lines::{first_line, lines_before};
use vt_script::Version;

/// The lines before the one of this number, from 1, and that line without its newline.
pub fn line_at(
    alloc: Global,
    text: &[u8],
    number: u64,
) -> Result<Option<(&[u8], &[u8])>, AllocError> {
    let length = lines_before(alloc, text, number)?.len();
    let before = text.get(..length).unwrap_or(text);
    let rest = text.get(length..).unwrap_or_default();
    match first_line(rest) {
        Some((line, _rest)) => Ok(Some((before, line))),
        None => Ok(None),
    }
}

/// Whether a line has an answer.
pub fn is_spoken(version: Version, alloc: Global, line: &[u8]) -> bool {
    let mut texts = None;
    !matches!(
        Line::parse_as(version, alloc, line, &mut texts),
        Ok(Line::Silent)
    )
}

/// The number of the line with an answer that is nearest to this one; of two that are as near, the earlier.
pub fn nearest_call(version: Version, alloc: Global, text: &[u8], number: u64) -> Option<u64> {
    let mut nearest: Option<u64> = None;
    let mut rest = text;
    for here in 1..u64::MAX {
        let Some((line, after)) = first_line(rest) else {
            return nearest;
        };
        let is_nearer = match nearest {
            Some(other) => here.abs_diff(number) < other.abs_diff(number),
            None => true,
        };
        if is_nearer && is_spoken(version, alloc, line) {
            nearest = Some(here);
        }
        rest = after;
    }
    nearest
}
