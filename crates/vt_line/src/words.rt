//! The words of a line: its task, its call and what the call is given.
ghost use Rattle.std.specs.Prelude.{◌≡◌, ◌≤◌, ◌<◌, ◌∷◌, [], option_map, length, is_some, true, Some, IfOk, IfSome, OnErr};
ghost use Rattle.vt_spec.specs.Language.Script.{task_word, path_word, capability_named, capabilities_word, access_word, first_flags, flags_word, second_flags, kept_or_identity, groups_word, type_word, yes_or_no_word};
ghost use Rattle.vt_request.specs.declared.task.TheConstants.{INLINE_NUMBERS};
ghost use Rattle.vt_cred.specs.Caps.{capability_bits};
ghost use Rattle.vt_cred.specs.MountFlags.{flags_of};
ghost use Rattle.vt_request.specs.Requests.{access_of, capabilities_of, type_word_of};
ghost use Rattle.vt_line.specs.Versions.{version_of};

use crate::number::{child_number, identity_word};
use crate::token::{Unescaped, has_no_token, split_first_token};
use crate::version::Version;
use arrayvec::ArrayVec;
use std::alloc::{AllocError, Global};
use std::marker::Model;
use std::str;
use vt_cred::{Caps, Flags, MAX_GROUPS, MountFlags};
use vt_request::task::INLINE_NUMBERS;
use vt_request::{Access, CapsWord, TaskName, TypeWord};

/// The groups of a child, of which none takes memory.
pub type Groups = ArrayVec<u32, MAX_GROUPS>;

/// The number of the child of the first task that a word names, if it has one digit.
#[inline(always)]
fn one_digit_child(text: &[u8]) -> Option<u8>
    ensures value { IfSome result (λ k. task_word text.now ≡ Some (k ∷ [])) }
    ensures range { IfSome result (λ k. (1 ≤ k) × (k ≤ 64)) }
{
    match text {
        [b't', b'.', digit @ b'1'..=b'9'] => Some(*digit - b'0'),
        _ => None,
    }
}

/// Whether a word names a task: `t` and any number of `.k`.
#[inline(always)]
pub fn is_task(text: &[u8]) -> bool
    ensures { result ≡ is_some (task_word text.now) }
{
    if text == b"t".as_slice() {
        return true;
    }
    if one_digit_child(text).is_some() {
        return true;
    }
    is_task_of_parts(text)
}

/// The same, for any word, by its parts between points.
#[inline(never)]
pub fn is_task_of_parts(text: &[u8]) -> bool
    ensures { result ≡ is_some (task_word text.now) }
{
    let mut parts = text.split(|byte| *byte == b'.');
    let Some(first) = parts.next() else {
        return false;
    };
    if first != b"t".as_slice() {
        return false;
    }
    for part in parts {
        if child_number(part).is_none() {
            return false;
        }
    }
    true
}

/// The task that a word names. Only a name of many numbers can fail.
#[inline(always)]
pub fn task_name(alloc: Global, text: &[u8]) -> Result<TaskName, AllocError>
    requires { is_some (task_word text.now) ≡ true }
    ensures value { IfOk result (λ name. task_word text.now ≡ Some name) }
    ensures memory { OnErr result (IfSome (task_word text.now) (λ name. INLINE_NUMBERS < length name)) }
{
    if text == b"t".as_slice() {
        return Ok(TaskName::new(alloc));
    }
    if let Some(number) = one_digit_child(text) {
        return TaskName::new(alloc).into_child(number);
    }
    task_name_of_parts(alloc, text)
}

/// The same, for any word, by its parts between points.
#[inline(never)]
pub fn task_name_of_parts(alloc: Global, text: &[u8]) -> Result<TaskName, AllocError>
    requires { is_some (task_word text.now) ≡ true }
    ensures value { IfOk result (λ name. task_word text.now ≡ Some name) }
    ensures memory { OnErr result (IfSome (task_word text.now) (λ name. INLINE_NUMBERS < length name)) }
{
    let mut name = TaskName::new(alloc);
    for part in text.split(|byte| *byte == b'.').skip(1) {
        let Some(number) = child_number(part) else {
            unreachable!()
        };
        name = name.into_child(number)?;
    }
    Ok(name)
}

/// The number that a name goes on with behind its `t`, and what is behind that.
#[inline(always)]
fn first_number(text: &[u8]) -> Option<(u8, &[u8])>
    ensures value { IfSome result (λ found. IfSome (task_word (116 ∷ found.1.now))
        (λ others. task_word (116 ∷ text.now) ≡ Some (found.0 ∷ others))) }
    ensures range { IfSome result (λ found. (1 ≤ found.0) × (found.0 ≤ 64)) }
    ensures shorter { IfSome result (λ found. length found.1.now < length text.now) }
{
    match text {
        [b'.', tens @ b'1'..=b'9', ones @ b'0'..=b'9', rest @ ..] => {
            let number = 10 * (*tens - b'0') + (*ones - b'0');
            if number <= 64 {
                Some((number, rest))
            } else {
                None
            }
        }
        [b'.', ones @ b'1'..=b'9', rest @ ..] => Some((*ones - b'0', rest)),
        _ => None,
    }
}

/// The task that a word names, if by at most [`INLINE_NUMBERS`] numbers: so it cannot fail for want of memory.
#[inline(always)]
pub fn short_task_name(alloc: Global, text: &[u8]) -> Option<TaskName>
    ensures { IfSome result (λ name. task_word text.now ≡ Some name) }
{
    if text == b"t".as_slice() {
        return Some(TaskName::new(alloc));
    }
    if let Some(number) = one_digit_child(text) {
        return TaskName::new(alloc).into_child(number).ok();
    }
    name_of_few(alloc, text)
}

/// The same, for any word. Words that are no names are told from longer names by `is_task_of_parts`.
#[inline(never)]
fn name_of_few(alloc: Global, text: &[u8]) -> Option<TaskName>
    ensures { IfSome result (λ name. task_word text.now ≡ Some name) }
{
    let [b't', rest @ ..] = text else {
        return None;
    };
    let mut rest = rest;
    let mut name = TaskName::new(alloc);
    while !rest.is_empty() {
        if name.numbers().len() == INLINE_NUMBERS {
            return None;
        }
        let (number, behind) = first_number(rest)?;
        name = match name.into_child(number) {
            Ok(name) => name,
            Err(_) => return None,
        };
        rest = behind;
    }
    Some(name)
}

/// A path: any text without byte 0.
pub fn path_word(text: &[u8]) -> Option<&[u8]>
    ensures { option_map (λ path. path.now) result ≡ path_word text.now }
{
    if text.contains(&0) { None } else { Some(text) }
}

/// The capability of this name.
fn capability_named(name: &[u8]) -> Option<Caps>
    ensures { option_map capability_bits result ≡ capability_named name.now }
{
    let Ok(name) = str::from_utf8(name) else {
        return None;
    };
    Caps::from_name(name)
}

/// The capabilities of a word: `-` for none, `*` for all that the caller holds, or names between
/// commas.
pub fn capabilities_word(text: &[u8]) -> Option<CapsWord>
    ensures { option_map capabilities_of result ≡ capabilities_word text.now }
{
    if text == b"-".as_slice() {
        return Some(CapsWord::Named(Caps::empty()));
    }
    if text == b"*".as_slice() {
        return Some(CapsWord::Held);
    }
    let mut caps = Caps::empty();
    for name in text.split(|byte| *byte == b',') {
        caps = caps.union(capability_named(name)?);
    }
    Some(CapsWord::Named(caps))
}

/// What a file is opened for, by the words of open(2)'s flags.
pub fn access_word(text: &[u8]) -> Option<Access>
    ensures { option_map access_of result ≡ access_word text.now }
{
    if text == b"r".as_slice() {
        Some(Access::Read)
    } else if text == b"w".as_slice() {
        Some(Access::Write)
    } else if text == b"rw".as_slice() {
        Some(Access::ReadWrite)
    } else {
        None
    }
}

/// The flags of a mount that both versions know: `rw` or `ro`, and `noexec` behind a comma.
fn first_flags(text: &[u8]) -> Option<MountFlags>
    ensures { option_map flags_of result ≡ first_flags text.now }
{
    if text == b"rw".as_slice() {
        Some(MountFlags::plain())
    } else if text == b"ro".as_slice() {
        Some(MountFlags::MS_RDONLY)
    } else if text == b"rw,noexec".as_slice() {
        Some(MountFlags::MS_NOEXEC)
    } else if text == b"ro,noexec".as_slice() {
        Some(MountFlags::MS_RDONLY.union(MountFlags::MS_NOEXEC))
    } else {
        None
    }
}

/// The flags of a mount that only version 2 knows: those of version 1, and `nosymfollow` behind a comma.
fn second_flags(text: &[u8]) -> Option<MountFlags>
    ensures { option_map flags_of result ≡ second_flags text.now }
{
    if text == b"rw,nosymfollow".as_slice() {
        Some(MountFlags::MS_NOSYMFOLLOW)
    } else if text == b"ro,nosymfollow".as_slice() {
        Some(MountFlags::MS_RDONLY.union(MountFlags::MS_NOSYMFOLLOW))
    } else if text == b"rw,noexec,nosymfollow".as_slice() {
        Some(MountFlags::MS_NOEXEC.union(MountFlags::MS_NOSYMFOLLOW))
    } else if text == b"ro,noexec,nosymfollow".as_slice() {
        let read_only = MountFlags::MS_RDONLY.union(MountFlags::MS_NOEXEC);
        Some(read_only.union(MountFlags::MS_NOSYMFOLLOW))
    } else {
        None
    }
}

/// The flags of a mount, in a version of the language.
pub fn flags_word(version: Version, text: &[u8]) -> Option<MountFlags>
    ensures { option_map flags_of result ≡ flags_word (version_of version) text.now }
{
    if let Some(flags) = first_flags(text) {
        return Some(flags);
    }
    match version {
        Version::One => None,
        Version::Two => second_flags(text),
    }
}

/// The propagation type of a mount.
pub fn type_word(text: &[u8]) -> Option<TypeWord>
    ensures { option_map type_word_of result ≡ type_word text.now }
{
    if text == b"shared".as_slice() {
        Some(TypeWord::Shared)
    } else if text == b"slave".as_slice() {
        Some(TypeWord::Slave)
    } else if text == b"private".as_slice() {
        Some(TypeWord::Private)
    } else if text == b"unbindable".as_slice() {
        Some(TypeWord::Unbindable)
    } else {
        None
    }
}

/// Whether a directory is marked opaque.
pub fn yes_or_no_word(text: &[u8]) -> Option<bool>
    ensures { result ≡ yes_or_no_word text.now }
{
    if text == b"yes".as_slice() {
        Some(true)
    } else if text == b"no".as_slice() {
        Some(false)
    } else {
        None
    }
}

/// A user or group that is given, or `-` for the one that stays.
pub fn kept_or_identity(text: &[u8]) -> Option<Option<u32>>
    ensures { result ≡ kept_or_identity text.now }
{
    if text == b"-".as_slice() {
        return Some(None);
    }
    Some(Some(identity_word(text)?))
}

/// Groups: `-` for none, or 1 to 32 between commas.
pub fn groups_word(text: &[u8]) -> Option<Groups>
    ensures { option_map (λ groups. groups.items) result ≡ groups_word text.now }
{
    let mut groups = Groups::new();
    if text == b"-".as_slice() {
        return Some(groups);
    }
    for part in text.split(|byte| *byte == b',') {
        if groups.is_full() {
            return None;
        }
        groups.push(identity_word(part)?);
    }
    Some(groups)
}

/// The words of a line that are left, read one after the other.
#[derive(Drop)]
pub struct Words<'a> {
    bytes: &'a [u8],
    /// The sizes of words that stand behind one another; else a word ends at a space.
    sizes: Option<&'a [usize]>,
}

impl<'a> Model for Words<'a> {
    ghost use Rattle.std.specs.Prelude.{◌≡◌, ℕ, List, length, sum, IfSome};
    ghost use Rattle.vt_line.specs.Tokens.{words_left};

    ghost Value = { List (List ℕ) };

    ghost view = { λ words. words_left words.bytes.now words.sizes };

    ghost invariant = { λ words. IfSome words.sizes (λ sizes. sum sizes.now ≡ length words.bytes.now) };
}

impl<'a> Words<'a> {
    ghost use Rattle.std.specs.Prelude.{◌≡◌, ◌↔◌, ◌∷◌, [], IsSome, MatchOption};
    ghost use Rattle.vt_spec.specs.Language.Script.{raw_tokens};

    /// The tokens of a line, as they stand there.
    pub fn of_tokens(line: &'a [u8]) -> Self
        ensures { result ≡ raw_tokens line.now }
    {
        Words {
            bytes: line,
            sizes: None,
        }
    }

    /// The texts of a line that has escapes.
    pub fn of_texts(texts: &'a Unescaped) -> Self
        ensures { result ≡ texts.now }
    {
        let (bytes, sizes) = texts.parts();
        Words {
            bytes,
            sizes: Some(sizes),
        }
    }

    /// The same words once more, to be read ahead.
    pub fn again(&self) -> Self
        ensures { result ≡ self.now }
    {
        Words {
            bytes: self.bytes,
            sizes: self.sizes,
        }
    }

    /// The next word.
    #[inline(always)]
    pub fn next(&mut self) -> Option<&'a [u8]>
        ensures { MatchOption result (self.old ≡ []) (λ text. self.old ≡ text.now ∷ self.new) }
    {
        match self.sizes {
            None => {
                let (word, rest) = split_first_token(self.bytes)?;
                self.bytes = rest;
                Some(word)
            }
            Some(sizes) => {
                let (size, others) = sizes.split_first()?;
                let (word, rest) = self.bytes.split_at(*size);
                self.bytes = rest;
                self.sizes = Some(others);
                Some(word)
            }
        }
    }

    /// That there is no more word.
    pub fn end(&self) -> Option<()>
        ensures { IsSome result ↔ (self.now ≡ []) }
    {
        match self.sizes {
            None => has_no_token(self.bytes).then_some(()),
            Some(sizes) => sizes.is_empty().then_some(()),
        }
    }
}
