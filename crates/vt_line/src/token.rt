//! The tokens of a line, and the texts that they spell.
ghost use Rattle.std.specs.Prelude.{◌≡◌, ◌≢◌, ◌+◌, ◌≤◌, ◌<◌, ◌||◌, ◌==◌, ◌++◌, ◌∷◌, [], ℕ, Some, None, false, length, option_map, slice_index, cond, sum, true, All, IfSome, IsTrue, MatchOption};
ghost use Rattle.std.specs.List.{list_all};
ghost use Rattle.vt_spec.specs.Language.Script.{is_silent, is_plain, raw_tokens, spelled, token_text, each_of};
ghost use Rattle.vt_spec.specs.Language.Script.Reading.{AfterX, Between};
ghost use Rattle.vt_spec.specs.Lists.{is_empty_list};
ghost use Rattle.vt_line.specs.Tokens.{cut, few_texts};

use crate::hex::HexDigit;
use arrayvec::ArrayVec;
use memchr::memchr;
use std::marker::Model;
use vt_io::line::LONGEST_LINE;
use vt_request::request::MOST_NAMED_TASKS;

/// The most texts that a line of the grammar has: those of `sealed` with the most tasks.
pub const MOST_TEXTS: usize = 2 + MOST_NAMED_TASKS;

/// How many bytes of a line the processor looks at together.
const GROUP: usize = 8;

/// How many bytes of a long line are looked at one by one.
const NEAR: usize = 64;

/// Whether a line has no answer: it is spaces alone, or a comment.
pub fn is_silent(line: &[u8]) -> bool
    ensures { result ≡ is_silent line.now }
{
    match line.iter().find(|byte| **byte != b' ') {
        None => true,
        Some(first) => *first == b'#',
    }
}

/// Whether a byte stands for itself in a token, and is printed as it is.
pub fn is_plain(byte: u8) -> bool
    ensures { result ≡ is_plain byte }
{
    matches!(byte, 0x21..=0x7e) && byte != b'\\'
}

/// The longest front of bytes that stand for themselves, and what follows it.
pub fn split_plain(text: &[u8]) -> (&[u8], &[u8])
    ensures whole { result.0.now ++ result.1.now ≡ text.now }
    ensures plain { All (λ byte. IsTrue (is_plain byte)) result.0.now }
    ensures stops { 0 < length result.1.now → is_plain (slice_index result.1.now 0) ≡ false }
{
    let plain = text.iter().position(|byte| !is_plain(*byte));
    text.split_at(plain.unwrap_or(text.len()))
}

/// The byte that the two digits at a text's front make, and what follows them.
#[inline(always)]
fn split_digits(text: &[u8]) -> Option<(u8, &[u8])>
    ensures spelled { MatchOption result (spelled AfterX text.now ≡ None)
        (λ parts. spelled AfterX text.now ≡ option_map (λ bytes. parts.0 ∷ bytes) (spelled Between parts.1.now)) }
    ensures shorter { IfSome result (λ parts. length parts.1.now < length text.now) }
{
    let (high, rest) = text.split_first()?;
    let high = HexDigit::from_byte(*high)?;
    let (low, rest) = rest.split_first()?;
    let low = HexDigit::from_byte(*low)?;
    Some((high.with_low(low), rest))
}

/// The byte of the escape `\xhh` at a text's front, and what follows it.
#[inline(always)]
fn split_escape(text: &[u8]) -> Option<(u8, &[u8])>
    requires some { 0 < length text.now }
    requires stops { is_plain (slice_index text.now 0) ≡ false }
    ensures spelled { MatchOption result (spelled Between text.now ≡ None)
        (λ parts. spelled Between text.now ≡ option_map (λ bytes. parts.0 ∷ bytes) (spelled Between parts.1.now)) }
    ensures shorter { IfSome result (λ parts. length parts.1.now < length text.now) }
{
    split_digits(text.strip_prefix(b"\\x".as_slice())?)
}

/// Whether a byte of a line is a space, or stands for itself in a token.
fn is_unescaped_byte(byte: u8) -> bool
    ensures { result ≡ (byte == 32 || is_plain byte) }
{
    matches!(byte, b' '..=b'~') & (byte != b'\\')
}

/// Whether each byte of a line is a space, or stands for itself in a token.
#[inline(always)]
fn are_unescaped_bytes(line: &[u8]) -> bool
    ensures { result ≡ list_all (λ byte. byte == 32 || is_plain byte) line.now }
{
    let mut unescaped = true;
    for byte in line {
        unescaped &= is_unescaped_byte(*byte);
    }
    unescaped
}

/// Whether each token of a line is its own text: it has no escape and no byte that a token cannot have.
///
/// The bytes are looked at in whole groups. Those behind the last group are looked at with some before them.
#[inline(always)]
pub fn is_unescaped(line: &[u8]) -> bool
    ensures { result ≡ list_all (λ byte. byte == 32 || is_plain byte) line.now }
{
    if line.len() < GROUP {
        return are_unescaped_bytes(line);
    }
    let (groups, _) = line.split_at(line.len() - line.len() % GROUP);
    let (_, last) = line.split_at(line.len() - GROUP);
    let in_groups = are_unescaped_bytes(groups);
    let in_last = are_unescaped_bytes(last);
    in_groups & in_last
}

/// The index of the first space, or the line's length.
fn first_space(line: &[u8]) -> usize
    ensures within { result ≤ length line.now }
    ensures before { (k : ℕ) → k < result → slice_index line.now k ≢ 32 }
    ensures space { result < length line.now → slice_index line.now result ≡ 32 }
{
    if line.len() > NEAR {
        return first_space_of_long(line);
    }
    line.iter()
        .position(|byte| *byte == b' ')
        .unwrap_or(line.len())
}

// As `first_space`. Most words are short, and end before `memchr` would have begun.
#[inline(never)]
fn first_space_of_long(line: &[u8]) -> usize
    ensures within { result ≤ length line.now }
    ensures before { (k : ℕ) → k < result → slice_index line.now k ≢ 32 }
    ensures space { result < length line.now → slice_index line.now result ≡ 32 }
{
    let (near, far) = line.split_at(line.len().min(NEAR));
    match near.iter().position(|byte| *byte == b' ') {
        Some(space) => space,
        None => near.len() + memchr(b' ', far).unwrap_or(far.len()),
    }
}

/// The first token of a line, and what follows it.
pub fn split_first_token(line: &[u8]) -> Option<(&[u8], &[u8])>
    ensures parts { MatchOption result (raw_tokens line.now ≡ [])
        (λ parts. raw_tokens line.now ≡ parts.0.now ∷ raw_tokens parts.1.now) }
    ensures token { IfSome result (λ parts. raw_tokens parts.0.now ≡ parts.0.now ∷ []) }
{
    let start = line.iter().position(|byte| *byte != b' ')?;
    let line = &line[start..];
    Some(line.split_at(first_space(line)))
}

/// Whether a line has no token.
pub fn has_no_token(line: &[u8]) -> bool
    ensures { result ≡ is_empty_list (raw_tokens line.now) }
{
    match line.iter().position(|byte| *byte != b' ') {
        Some(_) => false,
        None => true,
    }
}

/// The texts of a line that has escapes, one behind the other.
#[derive(Drop)]
pub struct Unescaped {
    bytes: ArrayVec<u8, LONGEST_LINE>,
    sizes: ArrayVec<usize, MOST_TEXTS>,
}

impl Model for Unescaped {
    ghost use Rattle.std.specs.Prelude.{◌≡◌, ℕ, List, length, sum};
    ghost use Rattle.vt_line.specs.Tokens.{cut};

    ghost Value = { List (List ℕ) };

    ghost view = { λ u. cut u.bytes.items u.sizes.items };

    ghost invariant = { λ u. sum u.sizes.items ≡ length u.bytes.items };
}

/// Appends the text that a token spells, if it spells one; `\e` is the empty text. Bytes that stand for themselves are
/// copied together.
fn unescape(token: &[u8], text: &mut ArrayVec<u8, LONGEST_LINE>) -> bool
    requires { length text.old.items + length token.now ≤ LONGEST_LINE }
    ensures value { cond result (Some text.new.items) None
        ≡ option_map (λ bytes. text.old.items ++ bytes) (token_text token.now) }
    ensures size { length text.new.items ≤ length text.old.items + length token.now }
{
    if token == b"\\e".as_slice() {
        return true;
    }
    let mut rest = token;
    loop {
        let (plain, others) = split_plain(rest);
        let Ok(()) = text.try_extend_from_slice(plain) else {
            unreachable!()
        };
        if others.is_empty() {
            return true;
        }
        let Some((byte, after)) = split_escape(others) else {
            return false;
        };
        text.push(byte);
        rest = after;
    }
}

/// Appends the texts that a line's tokens spell, unless one spells none, or there are more than a line of the grammar has.
fn append_texts(
    line: &[u8],
    bytes: &mut ArrayVec<u8, LONGEST_LINE>,
    sizes: &mut ArrayVec<usize, MOST_TEXTS>,
) -> bool
    requires line { length line.now ≤ LONGEST_LINE }
    requires no_bytes { bytes.old.items ≡ [] }
    requires no_sizes { sizes.old.items ≡ [] }
    ensures value { cond result (Some (cut bytes.new.items sizes.new.items)) None ≡ few_texts line.now }
    ensures whole { result ≡ true → sum sizes.new.items ≡ length bytes.new.items }
{
    let tokens = line
        .split(|byte| *byte == b' ')
        .filter(|token| !token.is_empty());
    for token in tokens {
        if sizes.is_full() {
            return false;
        }
        let start = bytes.len();
        if !unescape(token, bytes) {
            return false;
        }
        sizes.push(bytes.len() - start);
    }
    true
}

impl Unescaped {
    ghost use Rattle.std.specs.Prelude.{◌≡◌, ◌≤◌, [], None, Some, cond, length, sum};
    ghost use Rattle.vt_spec.specs.Language.Limits.{longest_line};
    ghost use Rattle.vt_line.specs.Tokens.{cut, few_texts};

    /// Room for texts.
    pub fn new() -> Self
        ensures { result ≡ [] }
    {
        Unescaped {
            bytes: ArrayVec::new(),
            sizes: ArrayVec::new(),
        }
    }

    /// Takes the texts that a line's tokens spell, in place of those that it had: no room is made anew.
    ///
    /// `false` where a token spells none, or there are more than a line of the grammar has.
    pub fn fill(&mut self, line: &[u8]) -> bool
        requires { length line.now ≤ longest_line }
        ensures { cond result (Some self.new) None ≡ few_texts line.now }
    {
        self.bytes.clear();
        self.sizes.clear();
        let is_filled = append_texts(line, &mut self.bytes, &mut self.sizes);
        if !is_filled {
            self.bytes.clear();
            self.sizes.clear();
        }
        is_filled
    }

    /// The bytes of the texts, and their sizes.
    pub fn parts(&self) -> (&[u8], &[usize])
        ensures texts { cut result.0.now result.1.now ≡ self.now }
        ensures whole { sum result.1.now ≡ length result.0.now }
    {
        (self.bytes.as_slice(), self.sizes.as_slice())
    }
}
