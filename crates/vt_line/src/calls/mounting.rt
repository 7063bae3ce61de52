//! The calls on mounts that are given more than paths, or that one version has.
ghost use Rattle.std.specs.Prelude.{◌≡◌, codes, option_map, false, true};
ghost use Rattle.std.specs.Result.{result_ok};
ghost use Rattle.vt_spec.specs.Language.Calls.Call.{MountOverlay, MountPlain, Remount, SetType};
ghost use Rattle.vt_spec.specs.Language.Script.{known_options, names_no_upper, options_of};
ghost use Rattle.vt_spec.specs.Language.Script.Version.{One};
ghost use Rattle.vt_cred.specs.MountFlags.{flags_of};
ghost use Rattle.vt_request.specs.Requests.{type_word_of};
ghost use Rattle.vt_line.specs.Calls.{call_named, call_worded, mount_named, IsCallRead};
ghost use Rattle.vt_line.specs.Versions.{version_of};

use crate::calls::{ReadError, path_pair};
use crate::names::CallName;
use crate::version::Version;
use crate::words::{Words, flags_word, path_word, type_word};
use vt_cred::MountFlags;
use vt_options::LayerOptions;
use vt_request::{Call, LookCall, MountCall, TypeWord};

/// The path, the options or a text that is none, and the flags of a mount of an overlay.
type OverlayWords<'a> = (&'a [u8], Result<LayerOptions<'a>, &'a [u8]>, MountFlags);

/// The words of `mount plain PATH [FLAGS]` behind the kind.
fn plain_words<'a>(version: Version, words: &mut Words<'a>) -> Option<(&'a [u8], MountFlags)>
    ensures { option_map (λ w. MountPlain w.0.now (flags_of w.1)) result
        ≡ mount_named (version_of version) (codes "plain") words.old }
{
    let path = path_word(words.next()?)?;
    let Some(flags) = words.next() else {
        return Some((path, MountFlags::plain()));
    };
    let flags = flags_word(version, flags)?;
    words.end()?;
    Some((path, flags))
}

/// The options that a text is, if the grammar knows them: scripts have no overlays with an upper layer.
fn options_word(text: &[u8]) -> Result<LayerOptions<'_>, &[u8]>
    ensures { result_ok result ≡ known_options names_no_upper (options_of text.now) }
{
    let Some(options) = LayerOptions::parse(text) else {
        return Err(text);
    };
    if options.upper().is_some() {
        return Err(text);
    }
    Ok(options)
}

/// The words of `mount overlay PATH OPTIONS [FLAGS]` behind the kind.
fn overlay_words<'a>(version: Version, words: &mut Words<'a>) -> Option<OverlayWords<'a>>
    ensures { option_map (λ w. MountOverlay w.0.now (result_ok w.1) (flags_of w.2)) result
        ≡ mount_named (version_of version) (codes "overlay") words.old }
{
    let path = path_word(words.next()?)?;
    let options = options_word(words.next()?);
    let Some(flags) = words.next() else {
        return Some((path, options, MountFlags::plain()));
    };
    let flags = flags_word(version, flags)?;
    words.end()?;
    Some((path, options, flags))
}

/// The words of `remount PATH FLAGS`.
fn remount_words<'a>(version: Version, words: &mut Words<'a>) -> Option<(&'a [u8], MountFlags)>
    ensures { option_map (λ w. Remount w.0.now (flags_of w.1)) result
        ≡ call_worded (version_of version) CallName.Remount words.old }
{
    let path = path_word(words.next()?)?;
    let flags = flags_word(version, words.next()?)?;
    words.end()?;
    Some((path, flags))
}

/// The words of `type PATH TYPE` and `rtype PATH TYPE`.
fn type_words<'a>(words: &mut Words<'a>) -> Option<(&'a [u8], TypeWord)>
    ensures one { option_map (λ w. SetType w.0.now (type_word_of w.1) false) result
        ≡ call_named One CallName.SetType words.old }
    ensures recursive { option_map (λ w. SetType w.0.now (type_word_of w.1) true) result
        ≡ call_named One CallName.SetTypeRecursive words.old }
{
    let path = path_word(words.next()?)?;
    let word = type_word(words.next()?)?;
    words.end()?;
    Some((path, word))
}

/// `mount plain PATH [FLAGS]` behind the kind.
#[inline(never)]
fn mount_plain<'a>(version: Version, words: &mut Words<'a>) -> Result<Call<'a>, ReadError>
    ensures { IsCallRead (mount_named (version_of version) (codes "plain") words.old) result }
{
    let Some((path, flags)) = plain_words(version, words) else {
        return Err(ReadError::Grammar);
    };
    Ok(Call::Mount(MountCall::Plain { path, flags }))
}

/// `mount overlay PATH OPTIONS [FLAGS]` behind the kind.
#[inline(never)]
fn mount_overlay<'a>(version: Version, words: &mut Words<'a>) -> Result<Call<'a>, ReadError>
    ensures { IsCallRead (mount_named (version_of version) (codes "overlay") words.old) result }
{
    let Some((path, options, flags)) = overlay_words(version, words) else {
        return Err(ReadError::Grammar);
    };
    Ok(Call::Mount(MountCall::Overlay {
        path,
        options,
        flags,
    }))
}

/// `mount plain PATH [FLAGS]`, and `mount overlay PATH OPTIONS [FLAGS]`.
#[inline(never)]
pub fn mount<'a>(version: Version, words: &mut Words<'a>) -> Result<Call<'a>, ReadError>
    ensures { IsCallRead (call_named (version_of version) CallName.Mount words.old) result }
{
    let Some(kind) = words.next() else {
        return Err(ReadError::Grammar);
    };
    if kind == b"plain".as_slice() {
        return mount_plain(version, words);
    }
    if kind == b"overlay".as_slice() {
        return mount_overlay(version, words);
    }
    Err(ReadError::Grammar)
}

/// `remount PATH FLAGS`.
#[inline(never)]
pub fn remount<'a>(version: Version, words: &mut Words<'a>) -> Result<Call<'a>, ReadError>
    ensures { IsCallRead (call_named (version_of version) CallName.Remount words.old) result }
{
    let Some((path, flags)) = remount_words(version, words) else {
        return Err(ReadError::Grammar);
    };
    Ok(Call::Mount(MountCall::Remount { path, flags }))
}

/// `type PATH TYPE`, and `rtype PATH TYPE`, which is recursive.
#[inline(never)]
pub fn set_type<'a>(words: &mut Words<'a>, recursive: bool) -> Result<Call<'a>, ReadError>
    ensures one { recursive ≡ false → IsCallRead (call_named One CallName.SetType words.old) result }
    ensures recursive { recursive ≡ true → IsCallRead (call_named One CallName.SetTypeRecursive words.old) result }
{
    let Some((path, word)) = type_words(words) else {
        return Err(ReadError::Grammar);
    };
    Ok(Call::Mount(MountCall::SetType {
        path,
        word,
        recursive,
    }))
}

/// `pivot_root NEW PUT`, which version 1 does not have.
#[inline(never)]
pub fn pivot_root<'a>(version: Version, words: &mut Words<'a>) -> Result<Call<'a>, ReadError>
    ensures { IsCallRead (call_named (version_of version) CallName.PivotRoot words.old) result }
{
    match version {
        Version::One => Err(ReadError::Grammar),
        Version::Two => {
            let Some((new, put)) = path_pair(words) else {
                return Err(ReadError::Grammar);
            };
            Ok(Call::Mount(MountCall::Pivot { new, put }))
        }
    }
}

/// `mounts`, without words.
#[inline(never)]
pub fn mounts<'a>(words: &mut Words<'a>) -> Result<Call<'a>, ReadError>
    ensures { IsCallRead (call_named One CallName.Mounts words.old) result }
{
    if words.end().is_none() {
        return Err(ReadError::Grammar);
    }
    Ok(Call::Look(LookCall::ListMounts))
}
