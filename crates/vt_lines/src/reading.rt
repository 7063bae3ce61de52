//! Whether a run takes a line, in a version of the language, as the reader of lines decides.
ghost use Rattle.std.specs.Prelude.{◌≡◌, IfOk, is_none, not};
ghost use Rattle.vt_line.specs.Versions.{version_of};
ghost use Rattle.vt_lines.specs.Refused.{is_refused, refused_in};

use crate::lines::first_line;
use std::alloc::{AllocError, Global};
use vt_line::line::{Line, Unescaped};
use vt_line::version::Version;
use vt_spec::errors::Rule;

/// A line as a run reads it, or nothing where a run refuses it by S1.
pub fn reading<'a>(
    version: Version,
    alloc: Global,
    line: &'a [u8],
    texts: &'a mut Option<Unescaped>,
) -> Result<Option<Line<'a>>, AllocError>
    ensures { IfOk result (λ read. is_none read ≡ is_refused (version_of version) line.now) }
{
    match Line::parse_as(version, alloc, line, texts) {
        Ok(line) => Ok(Some(line)),
        Err(deny) if deny.rule == Rule::S1 => Ok(None),
        Err(_) => Err(AllocError),
    }
}

/// Frees a line that was read. Crates above may free lines by this call, so that one crate proves the drop of a line.
pub fn free(_read: Option<Line<'_>>) {}

/// Whether a run takes the line.
pub fn is_taken(version: Version, alloc: Global, line: &[u8]) -> Result<bool, AllocError>
    ensures { IfOk result (λ taken. not taken ≡ is_refused (version_of version) line.now) }
{
    let mut texts = None;
    Ok(reading(version, alloc, line, &mut texts)?.is_some())
}

/// How many lines of a text a run refuses by S1.
#[tactic(auto, using(crate::proofs::LineLemmas::refused_lines))]
pub fn refused_lines(version: Version, alloc: Global, text: &[u8]) -> Result<u64, AllocError>
    ensures { IfOk result (λ count. count ≡ refused_in (version_of version) text.now) }
{
    let mut rest = text;
    let mut refused: u64 = 0;
    while let Some((line, after)) = first_line(rest) {
        if !is_taken(version, alloc, line)? {
            refused += 1;
        }
        rest = after;
    }
    Ok(refused)
}
