//! The answers of a run beside those that are wanted.
ghost use Rattle.std.specs.Prelude.{◌≡◌, IfNone, IfOk, IfSome, None, map};
ghost use Rattle.vt_verdict.specs.Compared.{HaveAllGiven, HaveAllWanted, IsSplit, after_line, are_alike, are_met, differing, first_number, has_word, has_words, is_met, line_of, of_line};

use std::alloc::{AllocError, Global};

/// An answer that is wanted or given, or a further line of one.
#[derive(Clone, Copy)]
pub struct Answer<'a> {
    /// The number of the line in its script, from 1.
    pub number: u64,
    pub text: &'a [u8],
}

/// A line of a script that is answered otherwise than is wanted.
#[derive(Clone, Copy)]
pub struct Difference<'a> {
    pub number: u64,
    pub wanted: &'a [Answer<'a>],
    pub given: &'a [Answer<'a>],
}

// Whether a text has this word.
fn has_word(text: &[u8], word: &[u8]) -> bool
    ensures { result ≡ has_word text.now word.now }
{
    for other in text.split(|byte| *byte == b' ') {
        if other == word {
            return true;
        }
    }
    false
}

// Whether a text has each word of another.
fn has_words(text: &[u8], words: &[u8]) -> bool
    ensures { result ≡ has_words text.now words.now }
{
    for word in words.split(|byte| *byte == b' ') {
        if !has_word(text, word) {
            return false;
        }
    }
    true
}

/// Whether a line is what is wanted: the same, or of the kind that `deny`, `deny EBUSY`, `deny M8` or `ok ..` asks for.
pub fn is_met(wanted: &[u8], given: &[u8]) -> bool
    ensures { result ≡ is_met wanted.now given.now }
{
    if wanted == given {
        return true;
    }
    if wanted == b"ok ..".as_slice() {
        return given == b"ok".as_slice() || given.starts_with(b"ok ");
    }
    let is_denial = wanted == b"deny".as_slice() || wanted.starts_with(b"deny ");
    is_denial && given.starts_with(b"deny ") && has_words(given, wanted)
}

// Whether each line is what is wanted, as far as there are both.
fn are_alike(wanted: &[Answer<'_>], given: &[Answer<'_>]) -> bool
    ensures { result ≡ are_alike wanted.now given.now }
{
    for (wanted, given) in wanted.iter().zip(given) {
        if !is_met(wanted.text, given.text) {
            return false;
        }
    }
    true
}

/// Whether the lines of an answer are what is wanted. `ok ..` wants no further lines, and takes any.
pub fn are_met(wanted: &[Answer<'_>], given: &[Answer<'_>]) -> bool
    ensures { result ≡ are_met wanted.now given.now }
{
    if !are_alike(wanted, given) {
        return false;
    }
    if wanted.len() == given.len() {
        return true;
    }
    match wanted {
        [first] => first.text == b"ok ..".as_slice() && !given.is_empty(),
        _ => false,
    }
}

// The first answers, which are those of a line, and those that follow.
fn split_line<'a>(answers: &'a [Answer<'a>], number: u64) -> (&'a [Answer<'a>], &'a [Answer<'a>])
    ensures line { result.0.now ≡ of_line number answers.now }
    ensures rest { result.1.now ≡ after_line number answers.now }
{
    for (place, answer) in answers.iter().enumerate() {
        if answer.number != number {
            return answers.split_at(place);
        }
    }
    (answers, &[])
}

// The answers that are wanted and those that are given, as far as they are not compared.
#[derive(Clone, Copy)]
struct Rest<'a> {
    wanted: &'a [Answer<'a>],
    given: &'a [Answer<'a>],
}

impl<'a> Rest<'a> {
    // The number of the first line that has an answer.
    fn first_number(self) -> Option<u64>
        ensures { result ≡ first_number self.entry.wanted.now self.entry.given.now }
    {
        match (self.wanted.first(), self.given.first()) {
            (Some(wanted), Some(given)) => Some(wanted.number.min(given.number)),
            (Some(answer), None) | (None, Some(answer)) => Some(answer.number),
            (None, None) => None,
        }
    }

    // The first line that has an answer, with its answers, and what follows them.
    fn split(self) -> Option<(Difference<'a>, Rest<'a>)>
        ensures none { IfNone result (first_number self.entry.wanted.now self.entry.given.now ≡ None) }
        ensures some { IfSome result (λ parts.
            IsSplit self.entry.wanted.now self.entry.given.now (line_of parts.0) parts.1.wanted.now parts.1.given.now) }
    {
        let number = self.first_number()?;
        let (wanted, more_wanted) = split_line(self.wanted, number);
        let (given, more_given) = split_line(self.given, number);
        let line = Difference {
            number,
            wanted,
            given,
        };
        let rest = Rest {
            wanted: more_wanted,
            given: more_given,
        };
        Some((line, rest))
    }
}

/// The lines that are answered otherwise than is wanted.
pub fn differences<'a>(
    alloc: Global,
    wanted: &'a [Answer<'a>],
    given: &'a [Answer<'a>],
) -> Result<Vec<Difference<'a>>, AllocError>
    ensures { IfOk result (λ found. map line_of found.items ≡ differing wanted.now given.now) }
{
    let mut found = Vec::new(alloc);
    let mut rest = Rest { wanted, given };
    for _ in 0..wanted.len() + given.len() {
        let Some((line, more)) = rest.split() else {
            break;
        };
        if !are_met(line.wanted, line.given) {
            found.push(line)?;
        }
        rest = more;
    }
    Ok(found)
}

/// A theorem of the definitions, which does nothing: each answer, wanted or given, is of one of the lines compared.
pub fn no_answer_is_left_out()
    ensures wanted { HaveAllWanted }
    ensures given { HaveAllGiven }
{}
