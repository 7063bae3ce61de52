//! The calls on files that are given more than paths. Both versions of the language read them alike.
ghost use Rattle.std.specs.Prelude.{◌≡◌, ◌<◌, IfOk, OnErr, length, option_map};
ghost use Rattle.vt_spec.specs.Language.Calls.Call.{Chmod, Chown, Mkdir, Opaque, OpenFile, Pwrite, Write};
ghost use Rattle.vt_spec.specs.Language.Script.{creation_words};
ghost use Rattle.vt_spec.specs.Language.Script.Version.{One};
ghost use Rattle.vt_request.specs.Requests.{access_of, call_of, creation_of};
ghost use Rattle.vt_line.specs.Calls.{call_named, call_worded, IsCallRead};

use crate::calls::ReadError;
use crate::names::CallName;
use crate::number::{descriptor_word, mode_word, offset_word};
use crate::words::{Words, access_word, kept_or_identity, path_word, yes_or_no_word};
use std::alloc::{AllocError, Global};
use vt_request::{Access, Call, Creation, DescriptorCall, LookCall, MakeCall, WriteCall};
use vt_spec::attributes::Mode;

/// A copy of the bytes that a call keeps. It does not allocate where there are none.
#[inline(always)]
fn kept_bytes(alloc: Global, bytes: &[u8]) -> Result<Vec<u8>, AllocError>
    ensures ok { IfOk result (λ kept. kept.items ≡ bytes.now) }
    ensures err { OnErr result (0 < length bytes.now) }
{
    if bytes.is_empty() {
        return Ok(Vec::new(alloc));
    }
    bytes.to_vec(alloc)
}

/// The words of `write PATH BYTES`.
#[inline(always)]
fn write_words<'a>(words: &mut Words<'a>) -> Option<(&'a [u8], &'a [u8])>
    ensures { option_map (λ w. Write w.0.now w.1.now) result ≡ call_worded One CallName.Write words.old }
{
    let path = path_word(words.next()?)?;
    let bytes = words.next()?;
    words.end()?;
    Some((path, bytes))
}

/// The words of `mkdir PATH [MODE]`.
fn mkdir_words<'a>(words: &mut Words<'a>) -> Option<(&'a [u8], Option<Mode>)>
    ensures { option_map (λ w. Mkdir w.0.now w.1) result ≡ call_worded One CallName.Mkdir words.old }
{
    let path = path_word(words.next()?)?;
    let Some(mode) = words.next() else {
        return Some((path, None));
    };
    let mode = mode_word(mode)?;
    words.end()?;
    Some((path, Some(mode)))
}

/// The words of `chmod PATH MODE`.
fn chmod_words<'a>(words: &mut Words<'a>) -> Option<(&'a [u8], Mode)>
    ensures { option_map (λ w. Chmod w.0.now w.1) result ≡ call_worded One CallName.Chmod words.old }
{
    let path = path_word(words.next()?)?;
    let mode = mode_word(words.next()?)?;
    words.end()?;
    Some((path, mode))
}

/// The words of `chown PATH UID GID`, of which one may stay.
fn chown_words<'a>(words: &mut Words<'a>) -> Option<(&'a [u8], Option<u32>, Option<u32>)>
    ensures { option_map (λ w. Chown w.0.now w.1 w.2) result ≡ call_worded One CallName.Chown words.old }
{
    let path = path_word(words.next()?)?;
    let uid = kept_or_identity(words.next()?)?;
    let gid = kept_or_identity(words.next()?)?;
    if uid.is_none() && gid.is_none() {
        return None;
    }
    words.end()?;
    Some((path, uid, gid))
}

/// The words of `opaque PATH yes` and `opaque PATH no`.
fn opaque_words<'a>(words: &mut Words<'a>) -> Option<(&'a [u8], bool)>
    ensures { option_map (λ w. Opaque w.0.now w.1) result ≡ call_worded One CallName.Opaque words.old }
{
    let path = path_word(words.next()?)?;
    let mark = yes_or_no_word(words.next()?)?;
    words.end()?;
    Some((path, mark))
}

/// The words that follow the path and the access of `open`: `create MODE`, `excl MODE` or none.
fn creation_words(words: &mut Words<'_>) -> Option<Creation>
    ensures { option_map creation_of result ≡ creation_words words.old }
{
    let Some(word) = words.next() else {
        return Some(Creation::Never);
    };
    let is_exclusive = word == b"excl".as_slice();
    if !is_exclusive && word != b"create".as_slice() {
        return None;
    }
    let mode = mode_word(words.next()?)?;
    words.end()?;
    Some(if is_exclusive {
        Creation::Exclusive(mode)
    } else {
        Creation::OrCreate(mode)
    })
}

/// The words of `open PATH ACCESS`, with what is done where the name is missing.
fn open_words<'a>(words: &mut Words<'a>) -> Option<(&'a [u8], Access, Creation)>
    ensures { option_map (λ w. OpenFile w.0.now (access_of w.1) (creation_of w.2)) result
        ≡ call_worded One CallName.Open words.old }
{
    let path = path_word(words.next()?)?;
    let access = access_word(words.next()?)?;
    let creation = creation_words(words)?;
    Some((path, access, creation))
}

/// The words of `pwrite DESCRIPTOR OFFSET BYTES`.
fn pwrite_words<'a>(words: &mut Words<'a>) -> Option<(u8, u32, &'a [u8])>
    ensures { option_map (λ w. Pwrite w.0 w.1 w.2.now) result ≡ call_worded One CallName.Pwrite words.old }
{
    let descriptor = descriptor_word(words.next()?)?;
    let offset = offset_word(words.next()?)?;
    let bytes = words.next()?;
    words.end()?;
    Some((descriptor, offset, bytes))
}

/// The call of `pread DESCRIPTOR OFFSET SIZE`.
fn pread_call<'a>(words: &mut Words<'a>) -> Option<Call<'a>>
    ensures { option_map call_of result ≡ call_named One CallName.Pread words.old }
{
    let descriptor = descriptor_word(words.next()?)?;
    let offset = offset_word(words.next()?)?;
    let size = offset_word(words.next()?)?;
    words.end()?;
    Some(Call::Look(LookCall::Pread {
        descriptor,
        offset,
        size,
    }))
}

/// The call of `close DESCRIPTOR`.
fn close_call<'a>(words: &mut Words<'a>) -> Option<Call<'a>>
    ensures { option_map call_of result ≡ call_named One CallName.Close words.old }
{
    let descriptor = descriptor_word(words.next()?)?;
    words.end()?;
    Some(Call::Descriptor(DescriptorCall::Close { descriptor }))
}

/// `write PATH BYTES`.
#[inline(always)]
pub fn write<'a>(alloc: Global, words: &mut Words<'a>) -> Result<Call<'a>, ReadError>
    ensures { IsCallRead (call_named One CallName.Write words.old) result }
{
    let Some((path, bytes)) = write_words(words) else {
        return Err(ReadError::Grammar);
    };
    let bytes = kept_bytes(alloc, bytes)?;
    Ok(Call::Write(WriteCall::Write { path, bytes }))
}

/// `mkdir PATH [MODE]`.
#[inline(never)]
pub fn mkdir<'a>(words: &mut Words<'a>) -> Result<Call<'a>, ReadError>
    ensures { IsCallRead (call_named One CallName.Mkdir words.old) result }
{
    let Some((path, mode)) = mkdir_words(words) else {
        return Err(ReadError::Grammar);
    };
    Ok(Call::Make(MakeCall::Mkdir { path, mode }))
}

/// `chmod PATH MODE`.
#[inline(never)]
pub fn chmod<'a>(words: &mut Words<'a>) -> Result<Call<'a>, ReadError>
    ensures { IsCallRead (call_named One CallName.Chmod words.old) result }
{
    let Some((path, mode)) = chmod_words(words) else {
        return Err(ReadError::Grammar);
    };
    Ok(Call::Write(WriteCall::Chmod { path, mode }))
}

/// `chown PATH UID GID`.
#[inline(never)]
pub fn chown<'a>(words: &mut Words<'a>) -> Result<Call<'a>, ReadError>
    ensures { IsCallRead (call_named One CallName.Chown words.old) result }
{
    let Some((path, uid, gid)) = chown_words(words) else {
        return Err(ReadError::Grammar);
    };
    Ok(Call::Write(WriteCall::Chown { path, uid, gid }))
}

/// `opaque PATH yes` or `opaque PATH no`.
#[inline(never)]
pub fn opaque<'a>(words: &mut Words<'a>) -> Result<Call<'a>, ReadError>
    ensures { IsCallRead (call_named One CallName.Opaque words.old) result }
{
    let Some((path, mark)) = opaque_words(words) else {
        return Err(ReadError::Grammar);
    };
    Ok(Call::Write(WriteCall::Opaque { path, mark }))
}

/// `open PATH ACCESS [create MODE | excl MODE]`.
#[inline(never)]
pub fn open<'a>(words: &mut Words<'a>) -> Result<Call<'a>, ReadError>
    ensures { IsCallRead (call_named One CallName.Open words.old) result }
{
    let Some((path, access, creation)) = open_words(words) else {
        return Err(ReadError::Grammar);
    };
    Ok(Call::Descriptor(DescriptorCall::Open {
        path,
        access,
        creation,
    }))
}

/// `pwrite DESCRIPTOR OFFSET BYTES`.
#[inline(never)]
pub fn pwrite<'a>(alloc: Global, words: &mut Words<'a>) -> Result<Call<'a>, ReadError>
    ensures { IsCallRead (call_named One CallName.Pwrite words.old) result }
{
    let Some((descriptor, offset, bytes)) = pwrite_words(words) else {
        return Err(ReadError::Grammar);
    };
    let bytes = kept_bytes(alloc, bytes)?;
    Ok(Call::Write(WriteCall::Pwrite {
        descriptor,
        offset,
        bytes,
    }))
}

/// `pread DESCRIPTOR OFFSET SIZE`.
#[inline(never)]
pub fn pread<'a>(words: &mut Words<'a>) -> Result<Call<'a>, ReadError>
    ensures { IsCallRead (call_named One CallName.Pread words.old) result }
{
    pread_call(words).ok_or(ReadError::Grammar)
}

/// `close DESCRIPTOR`.
#[inline(never)]
pub fn close<'a>(words: &mut Words<'a>) -> Result<Call<'a>, ReadError>
    ensures { IsCallRead (call_named One CallName.Close words.old) result }
{
    close_call(words).ok_or(ReadError::Grammar)
}
