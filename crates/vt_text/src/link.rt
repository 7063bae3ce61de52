//! The text of a symbolic link is walked as a path is, but no limit is known of it: symlink(7).
ghost use Rattle.std.specs.Prelude.{◌≡◌, ◌++◌, ◌∷◌, [], length, MatchOption, nat_lt};
ghost use Rattle.std.specs.List.{list_any};
ghost use Rattle.vt_spec.specs.PathText.{words as words_in, is_absolute as begins_at_root, ends_in_slash as asks_for_directory};
ghost use Rattle.vt_spec.specs.Language.Limits.{longest_name};

use crate::path::{self, Words};

/// Its words, from the first to the last.
pub fn words(text: &[u8]) -> Words<'_>
    ensures { result ≡ words_in text.now }
{
    Words::of(text)
}

/// Whether it begins with a slash, and so at the task's root.
pub fn is_absolute(text: &[u8]) -> bool
    ensures { result ≡ begins_at_root text.now }
{
    text.first() == Some(&b'/')
}

/// Whether it ends in a slash, and so asks for a directory.
pub fn ends_in_slash(text: &[u8]) -> bool
    ensures { result ≡ asks_for_directory text.now }
{
    text.last() == Some(&b'/')
}

/// Whether one of its words is over its limit: NAME_MAX of limits.h.
pub fn has_long_word(text: &[u8]) -> bool
    ensures { result ≡ list_any (λ word. nat_lt longest_name (length word)) (words_in text.now) }
{
    path::has_long_word(text)
}

/// The words before the last, and the last word, if there is one.
pub fn split_last(text: &[u8]) -> Option<(Words<'_>, &[u8])>
    ensures { MatchOption result (words_in text.now ≡ []) (λ parts. words_in text.now ≡ parts.0 ++ parts.1.now ∷ []) }
{
    let (front, last) = path::split_last_word(text)?;
    Some((Words::of(front), last))
}
