//! The lines of a text.
ghost use Rattle.std.specs.Prelude.{◌≡◌, ◌-◌, ◌<◌, [], ◌∷◌, length, take, IfOk, IfSome, MatchOption};
ghost use Rattle.vt_spec.specs.Language.Script.{lines_of};
ghost use Rattle.vt_script.specs.Progress.{HasNoNewline, whole_lines};

use memchr::memchr;
use std::alloc::{AllocError, Global};

/// The first line of a text, without its newline, and what follows.
pub fn first_line(text: &[u8]) -> Option<(&[u8], &[u8])>
    ensures lines { MatchOption result (text.now ≡ [])
        (λ parts. lines_of text.now ≡ parts.0.now ∷ lines_of parts.1.now) }
    ensures one { IfSome result (λ parts. HasNoNewline parts.0.now) }
    ensures shorter { MatchOption result (text.now ≡ []) (λ parts. length parts.1.now < length text.now) }
{
    if text.is_empty() {
        return None;
    }
    let Some(newline) = memchr(b'\n', text) else {
        return Some((text, &[]));
    };
    let (line, rest) = text.split_at(newline);
    Some((line, &rest[1..]))
}

/// The lines of a text before the one of this number, from 1, each with a newline; all of them where there are fewer.
pub fn lines_before(alloc: Global, text: &[u8], number: u64) -> Result<Vec<u8>, AllocError>
    ensures whole { IfOk result (λ front. whole_lines front.items ≡ front.items) }
    ensures lines { IfOk result (λ front. lines_of front.items ≡ take (number - 1) (lines_of text.now)) }
{
    let mut front = Vec::new(alloc);
    let mut rest = text;
    let mut left = number.saturating_sub(1);
    while left > 0 {
        let Some((line, after)) = first_line(rest) else {
            return Ok(front);
        };
        front.extend_from_slice(line)?;
        front.push(b'\n')?;
        rest = after;
        left -= 1;
    }
    Ok(front)
}
