//! The calls of the grammar, read from the words behind their names.
ghost use Rattle.std.specs.Prelude.{◌≡◌, option_map};
ghost use Rattle.vt_spec.specs.Language.Script.Version.{One};
ghost use Rattle.vt_line.specs.Calls.{call_named, lone_path, path_pair, IsCallRead};
ghost use Rattle.vt_line.specs.Versions.{version_of};

mod files;
mod mounting;
mod tasks;

use crate::names::{CallName, PairCall, PathCall};
use crate::version::Version;
use crate::words::{Words, path_word};
use std::alloc::{AllocError, Global};
use vt_request::Call;
use vt_spec::errors::{Deny, Rule};

/// Why no call was read.
#[derive(Clone, Copy)]
pub enum ReadError {
    /// The words are not of the grammar.
    Grammar,
    /// The call would keep what there was no memory for.
    Memory,
}

impl From<AllocError> for ReadError {
    ghost use Rattle.vt_line.specs.declared.calls.ReadError.TheVariants.{Memory};

    ghost from_gives = { λ _ e. e ≡ Memory };

    fn from(_error: AllocError) -> ReadError {
        ReadError::Memory
    }
}

/// S1 (EINVAL) or S5 (ENOMEM).
impl From<ReadError> for Deny {
    ghost use Rattle.vt_line.specs.Calls.{refusal};

    ghost from_gives = { λ error deny. deny ≡ refusal error };

    fn from(error: ReadError) -> Deny {
        match error {
            ReadError::Grammar => Rule::S1.denial(),
            ReadError::Memory => Rule::S5.denial(),
        }
    }
}

/// The words of a call that has a path alone.
#[tactic(auto, unfolding(crate::specs::Calls::lone_path))]
#[inline(always)]
fn lone_path<'a>(words: &mut Words<'a>) -> Option<&'a [u8]>
    ensures { option_map (λ path. path.now) result ≡ lone_path words.old }
{
    let path = path_word(words.next()?)?;
    words.end()?;
    Some(path)
}

/// The words of a call that has two paths, or a text and a path.
#[tactic(auto, unfolding(crate::specs::Calls::path_pair))]
fn path_pair<'a>(words: &mut Words<'a>) -> Option<(&'a [u8], &'a [u8])>
    ensures { option_map (λ paths. (paths.0.now, paths.1.now)) result ≡ path_pair words.old }
{
    let first = path_word(words.next()?)?;
    let second = path_word(words.next()?)?;
    words.end()?;
    Some((first, second))
}

/// A call that is given a path alone.
#[inline(always)]
fn path_call<'a>(name: PathCall, words: &mut Words<'a>) -> Result<Call<'a>, ReadError>
    ensures { IsCallRead (call_named One (CallName.Path name) words.old) result }
{
    let Some(path) = lone_path(words) else {
        return Err(ReadError::Grammar);
    };
    Ok(name.call(path))
}

/// A call that is given two paths, or a text and a path.
#[inline(never)]
fn pair_call<'a>(name: PairCall, words: &mut Words<'a>) -> Result<Call<'a>, ReadError>
    ensures { IsCallRead (call_named One (CallName.Pair name) words.old) result }
{
    let Some((first, second)) = path_pair(words) else {
        return Err(ReadError::Grammar);
    };
    Ok(name.call(first, second))
}

/// As `call`, of any name.
#[inline(never)]
fn any_call<'a>(
    version: Version,
    alloc: Global,
    name: CallName,
    words: &mut Words<'a>,
) -> Result<Call<'a>, ReadError>
    ensures { IsCallRead (call_named (version_of version) name words.old) result }
{
    match name {
        CallName::Path(name) => path_call(name, words),
        CallName::Pair(name) => pair_call(name, words),
        CallName::Write => files::write(alloc, words),
        CallName::Mkdir => files::mkdir(words),
        CallName::Chmod => files::chmod(words),
        CallName::Chown => files::chown(words),
        CallName::Opaque => files::opaque(words),
        CallName::Open => files::open(words),
        CallName::Pread => files::pread(words),
        CallName::Pwrite => files::pwrite(alloc, words),
        CallName::Close => files::close(words),
        CallName::Umask => tasks::umask(words),
        CallName::Drop => tasks::drop(words),
        CallName::Fork => tasks::fork(alloc, words),
        CallName::Exit => tasks::exit(words),
        CallName::Unshare => tasks::unshare(words),
        CallName::Setns => tasks::setns(alloc, words),
        CallName::Mount => mounting::mount(version, words),
        CallName::Remount => mounting::remount(version, words),
        CallName::SetType => mounting::set_type(words, false),
        CallName::SetTypeRecursive => mounting::set_type(words, true),
        CallName::Mounts => mounting::mounts(words),
        CallName::PivotRoot => mounting::pivot_root(version, words),
    }
}

/// As `any_call`. It is inlined, so that room for what that returns is made only where it is called.
#[inline(always)]
fn other_call<'a>(
    version: Version,
    alloc: Global,
    name: CallName,
    words: &mut Words<'a>,
) -> Result<Call<'a>, ReadError>
    ensures { IsCallRead (call_named (version_of version) name words.old) result }
{
    any_call(version, alloc, name, words)
}

/// The call of this name with these words, in a version of the language. What it owns is copied last.
///
/// The calls that scripts make most are read in place, and so not moved as a whole.
#[inline(always)]
pub fn call<'a>(
    version: Version,
    alloc: Global,
    name: CallName,
    words: &mut Words<'a>,
) -> Result<Call<'a>, ReadError>
    ensures { IsCallRead (call_named (version_of version) name words.old) result }
{
    match name {
        CallName::Path(name) => path_call(name, words),
        CallName::Write => files::write(alloc, words),
        _ => other_call(version, alloc, name, words),
    }
}
