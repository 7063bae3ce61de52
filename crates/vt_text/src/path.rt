//! A path is its words: path_resolution(7), and limits.h for PATH_MAX and NAME_MAX.
ghost use Rattle.std.specs.Prelude.{◌≡◌, ◌≢◌, ◌≤◌, ◌<◌, ◌↔◌, ◌-◌, ◌++◌, ◌∷◌, [], ◌||◌, List, ℕ, length, slice_index, IsOk, IfOk, MatchOption, nat_lt};
ghost use Rattle.std.specs.Iterator.{item_count, YieldsFirstRef};
ghost use Rattle.std.specs.List.{list_any};
ghost use Rattle.vt_spec.specs.declared.errors.Rule.TheVariants.{W1, W2};
ghost use Rattle.vt_spec.specs.Errors.{denial};
ghost use Rattle.vt_spec.specs.PathText.{words, ends_in_slash, parsed_path};
ghost use Rattle.vt_spec.specs.Language.Limits.{longest_path, longest_name};
ghost use Rattle.vt_spec.specs.Lists.{is_empty_list};
ghost use Rattle.vt_text.specs.Walkable.{IsTooLong, IsWalkable};

use crate::{Deny, Rule};
use std::iter::FusedIterator;
use std::marker::Model;

/// The longest path, in bytes: PATH_MAX of limits.h without its final zero byte.
pub const LONGEST_PATH: usize = 4095;

/// The longest name, in bytes: NAME_MAX of limits.h.
pub const LONGEST_NAME: usize = 255;

// The index of the first slash, or the text's length.
fn first_slash(text: &[u8]) -> usize
    ensures within { result ≤ length text.now }
    ensures before { (k : ℕ) → k < result → slice_index text.now k ≢ 47 }
    ensures slash { result < length text.now → slice_index text.now result ≡ 47 }
{
    text.iter()
        .position(|byte| *byte == b'/')
        .unwrap_or(text.len())
}

// The index after the last slash, or 0.
fn after_last_slash(text: &[u8]) -> usize
    ensures within { result ≤ length text.now }
    ensures after { (k : ℕ) → result ≤ k → k < length text.now → slice_index text.now k ≢ 47 }
    ensures slash { 0 < result → slice_index text.now (result - 1) ≡ 47 }
{
    match text.iter().rposition(|byte| *byte == b'/') {
        Some(slash) => slash + 1,
        None => 0,
    }
}

// The first word of a text, and what follows it.
fn split_first_word(text: &[u8]) -> Option<(&[u8], &[u8])>
    ensures { MatchOption result (words text.now ≡ []) (λ parts. words text.now ≡ parts.0.now ∷ words parts.1.now) }
{
    let start = text.iter().position(|byte| *byte != b'/')?;
    let text = &text[start..];
    Some(text.split_at(first_slash(text)))
}

// What stands before the last word of a text, and that word.
pub(crate) fn split_last_word(text: &[u8]) -> Option<(&[u8], &[u8])>
    ensures { MatchOption result (words text.now ≡ [])
        (λ parts. words text.now ≡ words parts.0.now ++ parts.1.now ∷ []) }
{
    let last = text.iter().rposition(|byte| *byte != b'/')?;
    let text = &text[..last + 1];
    Some(text.split_at(after_last_slash(text)))
}

/// The words of a path that are still to come, from the first to the last, each a part of the text.
#[derive(Debug, Drop)]
pub struct Words<'a> {
    text: &'a [u8],
}

impl<'a> Words<'a> {
    // The words of any text.
    pub(crate) fn of(text: &'a [u8]) -> Words<'a>
        ensures { result ≡ words text.now }
    {
        Words { text }
    }

    /// Whether no word is left.
    pub fn is_empty(&self) -> bool
        ensures { result ≡ is_empty_list self.now }
    {
        match self.text.iter().position(|byte| *byte != b'/') {
            Some(_) => false,
            None => true,
        }
    }
}

impl<'a> Model for Words<'a> {
    ghost Value = { List (List ℕ) };

    ghost view = { λ w. words w.text.now };
}

impl<'a> Iterator for Words<'a> {
    type Item = &'a [u8];

    ghost next_gives = { YieldsFirstRef (λ rest. rest) };

    ghost remaining = { item_count (λ rest. rest) };

    // By `next_gives`, the clause `steps` says that the result is the head of the list and that the tail
    // is left, or that the list was and is empty.
    fn next(&mut self) -> Option<&'a [u8]> {
        let (word, rest) = split_first_word(self.text)?;
        self.text = rest;
        Some(word)
    }
}

impl<'a> FusedIterator for Words<'a> {}

/// A text that may be walked: it is not empty, and neither it nor one of its words is too long.
#[derive(Debug, Drop)]
pub struct PathText<'a> {
    text: &'a [u8],
}

impl<'a> Model for PathText<'a> {
    ghost Value = { List ℕ };

    ghost view = { λ path. path.text.now };

    ghost invariant = { λ path. IsWalkable path.text.now };
}

// Whether a word of the text is over its limit. Of each stretch of one byte more than that limit only what follows
// its last slash is looked at: a word that is too long would leave no slash there.
pub(crate) fn has_long_word(text: &[u8]) -> bool
    ensures { result ≡ list_any (λ word. nat_lt longest_name (length word)) (words text.now) }
{
    let mut rest = text;
    while rest.len() > LONGEST_NAME {
        let start = after_last_slash(&rest[..LONGEST_NAME + 1]);
        if start == 0 {
            return true;
        }
        rest = &rest[start..];
    }
    false
}

// Whether the text, or one of its words, is over its limit.
fn is_too_long(text: &[u8]) -> bool
    ensures { result ≡ (nat_lt longest_path (length text.now)
        || list_any (λ word. nat_lt longest_name (length word)) (words text.now)) }
{
    text.len() > LONGEST_PATH || has_long_word(text)
}

impl<'a> PathText<'a> {
    /// The text as a path, if it may be walked, in one pass.
    ///
    /// An empty text is refused by W1 (ENOENT), and one that is too long, or that has a word that is
    /// too long, by W2 (ENAMETOOLONG): path_resolution(7).
    pub fn parse(text: &'a [u8]) -> Result<PathText<'a>, Deny>
        ensures value { result ≡ parsed_path text.now }
        ensures text { IfOk result (λ path. path ≡ text.now) }
        ensures empty { result ≡ Err (denial W1) ↔ (text.now ≡ []) }
        ensures too_long { result ≡ Err (denial W2) ↔ (text.now ≢ [] × IsTooLong text.now) }
        ensures ok { IsOk result ↔ IsWalkable text.now }
    {
        if text.is_empty() {
            return Err(Rule::W1.denial());
        }
        if is_too_long(text) {
            return Err(Rule::W2.denial());
        }
        Ok(PathText { text })
    }

    /// The text itself.
    pub fn as_bytes(&self) -> &'a [u8]
        ensures value { result.now ≡ self.now }
        ensures limits { IsWalkable self.now }
    {
        self.text
    }

    /// Its words, from the first to the last.
    pub fn words(&self) -> Words<'a>
        ensures value { result ≡ words self.now }
        ensures count { length result ≤ longest_path }
        ensures limits { IsWalkable self.now }
    {
        Words { text: self.text }
    }

    /// Whether it ends in a slash, and so asks for a directory.
    pub fn ends_in_slash(&self) -> bool
        ensures { result ≡ ends_in_slash self.now }
    {
        self.text.last() == Some(&b'/')
    }
}
