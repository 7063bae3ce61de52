//! The last word of a path, and those before it.
ghost use Rattle.std.specs.Prelude.{◌≡◌, reverse};
ghost use Rattle.vt_spec.specs.Lists.{rest_of};
ghost use Rattle.vt_spec.specs.Machine.Walking.{final_word};
ghost use Rattle.vt_spec.specs.PathText.{words};
ghost use Rattle.vt_looks.specs.Places.{last_of};

use vt_looks::LastWord;
use vt_text::link;
use vt_text::path::Words;

// The words of a text before its last, and that one.
pub(crate) fn front_and_last(text: &[u8]) -> (Words<'_>, LastWord<'_>)
    ensures front { reverse result.0 ≡ rest_of (reverse (words text.now)) }
    ensures last { last_of result.1 ≡ final_word (reverse (words text.now)) }
{
    match link::split_last(text) {
        Some((front, word)) => (front, LastWord::of(word)),
        None => (link::words(&[]), LastWord::NoWord),
    }
}
