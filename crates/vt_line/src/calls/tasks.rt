//! The calls of a task on itself that are given more than a path. Both versions of the language read them alike.
ghost use Rattle.std.specs.Prelude.{◌≡◌, ◌<◌, length, option_map, is_some, true, IfOk, IfSome, OnErr};
ghost use Rattle.vt_spec.specs.Language.Calls.Call.{Fork, Setns};
ghost use Rattle.vt_spec.specs.Language.Script.{fork_words, task_word};
ghost use Rattle.vt_spec.specs.Language.Script.Version.{One};
ghost use Rattle.vt_spec.specs.Lists.{then_some};
ghost use Rattle.vt_request.specs.Requests.{call_of};
ghost use Rattle.vt_line.specs.Calls.{call_named, call_worded, child_of, IsCallRead};

use crate::calls::ReadError;
use crate::names::CallName;
use crate::number::{identity_word, mode_word};
use crate::words::{Groups, Words, capabilities_word, groups_word, is_task, task_name};
use std::alloc::{AllocError, Global};
use vt_request::{Call, CapsWord, ForkWords, TaskCall};

/// The credentials that a child is given, before they are kept.
#[derive(Drop)]
pub struct Child {
    uid: u32,
    gid: u32,
    groups: Groups,
    caps: CapsWord,
}

/// A copy of the groups that a child is given. It does not allocate where there are none.
fn kept_groups(alloc: Global, groups: &Groups) -> Result<Vec<u32>, AllocError>
    ensures ok { IfOk result (λ kept. kept.items ≡ groups.now.items) }
    ensures err { OnErr result (0 < length groups.now.items) }
{
    if groups.is_empty() {
        return Ok(Vec::new(alloc));
    }
    groups.as_slice().to_vec(alloc)
}

/// The words of `fork [UID GID GROUPS CAPS]`.
fn fork_words(words: &mut Words<'_>) -> Option<Option<Child>>
    ensures { option_map (λ child. Fork (option_map child_of child)) result ≡ fork_words words.old }
{
    let Some(uid) = words.next() else {
        return Some(None);
    };
    let uid = identity_word(uid)?;
    let gid = identity_word(words.next()?)?;
    let groups = groups_word(words.next()?)?;
    let caps = capabilities_word(words.next()?)?;
    words.end()?;
    Some(Some(Child {
        uid,
        gid,
        groups,
        caps,
    }))
}

/// The word of `setns TASK`, which names a task.
fn setns_word<'a>(words: &mut Words<'a>) -> Option<&'a [u8]>
    ensures task { IfSome result (λ task. is_some (task_word task.now) ≡ true) }
    ensures call { then_some result (λ task. option_map Setns (task_word task.now))
        ≡ call_worded One CallName.Setns words.old }
{
    let task = words.next()?;
    words.end()?;
    if is_task(task) { Some(task) } else { None }
}

/// The call of `umask MODE`.
fn umask_call<'a>(words: &mut Words<'a>) -> Option<Call<'a>>
    ensures { option_map call_of result ≡ call_named One CallName.Umask words.old }
{
    let mode = mode_word(words.next()?)?;
    words.end()?;
    Some(Call::Task(TaskCall::Umask { mode }))
}

/// The call of `drop CAPS`.
fn drop_call<'a>(words: &mut Words<'a>) -> Option<Call<'a>>
    ensures { option_map call_of result ≡ call_named One CallName.Drop words.old }
{
    let caps = capabilities_word(words.next()?)?;
    words.end()?;
    Some(Call::Task(TaskCall::Drop { caps }))
}

/// `fork [UID GID GROUPS CAPS]`.
#[inline(never)]
pub fn fork<'a>(alloc: Global, words: &mut Words<'a>) -> Result<Call<'a>, ReadError>
    ensures { IsCallRead (call_named One CallName.Fork words.old) result }
{
    let Some(child) = fork_words(words) else {
        return Err(ReadError::Grammar);
    };
    let Some(child) = child else {
        return Ok(Call::Task(TaskCall::Fork { words: None }));
    };
    let groups = kept_groups(alloc, &child.groups)?;
    let words = Some(ForkWords {
        uid: child.uid,
        gid: child.gid,
        groups,
        caps: child.caps,
    });
    Ok(Call::Task(TaskCall::Fork { words }))
}

/// `setns TASK`. Only a name of many numbers can fail.
#[inline(never)]
pub fn setns<'a>(alloc: Global, words: &mut Words<'a>) -> Result<Call<'a>, ReadError>
    ensures { IsCallRead (call_named One CallName.Setns words.old) result }
{
    let Some(task) = setns_word(words) else {
        return Err(ReadError::Grammar);
    };
    let task = task_name(alloc, task)?;
    Ok(Call::Task(TaskCall::Setns { task }))
}

/// `umask MODE`.
#[inline(never)]
pub fn umask<'a>(words: &mut Words<'a>) -> Result<Call<'a>, ReadError>
    ensures { IsCallRead (call_named One CallName.Umask words.old) result }
{
    umask_call(words).ok_or(ReadError::Grammar)
}

/// `drop CAPS`.
#[inline(never)]
pub fn drop<'a>(words: &mut Words<'a>) -> Result<Call<'a>, ReadError>
    ensures { IsCallRead (call_named One CallName.Drop words.old) result }
{
    drop_call(words).ok_or(ReadError::Grammar)
}

/// `exit`, without words.
#[inline(never)]
pub fn exit<'a>(words: &mut Words<'a>) -> Result<Call<'a>, ReadError>
    ensures { IsCallRead (call_named One CallName.Exit words.old) result }
{
    if words.end().is_none() {
        return Err(ReadError::Grammar);
    }
    Ok(Call::Task(TaskCall::Exit))
}

/// `unshare`, without words.
#[inline(never)]
pub fn unshare<'a>(words: &mut Words<'a>) -> Result<Call<'a>, ReadError>
    ensures { IsCallRead (call_named One CallName.Unshare words.old) result }
{
    if words.end().is_none() {
        return Err(ReadError::Grammar);
    }
    Ok(Call::Task(TaskCall::Unshare))
}
