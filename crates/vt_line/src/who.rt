//! Whose line it is: the text of its first token, and the task that a text names.
ghost use Rattle.std.specs.Prelude.{◌≡◌, ◌≤◌, ◌<◌, length, option_map, IfOk, IsSomeAnd, OnErr};
ghost use Rattle.vt_spec.specs.Language.Limits.{longest_line};
ghost use Rattle.vt_spec.specs.Language.Script.{task_word};
ghost use Rattle.vt_request.specs.declared.task.TheConstants.{INLINE_NUMBERS};
ghost use Rattle.vt_line.specs.Tokens.{first_text};

use crate::token::{Unescaped, is_unescaped, split_first_token};
use crate::words::{Words, is_task, task_name};
use std::alloc::{AllocError, Global};
use vt_request::TaskName;

/// The task that a text names, if it names one: `t` and any number of `.k`. Only a name of many numbers can fail.
pub fn named_task(alloc: Global, text: &[u8]) -> Result<Option<TaskName>, AllocError>
    ensures value { IfOk result (λ named. named ≡ task_word text.now) }
    ensures memory { OnErr result (IsSomeAnd (task_word text.now) (λ name. INLINE_NUMBERS < length name)) }
{
    if !is_task(text) {
        return Ok(None);
    }
    Ok(Some(task_name(alloc, text)?))
}

/// The text of a line's first token, if it has one that spells a text.
///
/// It is lent: from `line`, or from `texts` where it has escapes.
pub fn first_text<'a>(line: &'a [u8], texts: &'a mut Option<Unescaped>) -> Option<&'a [u8]>
    requires { length line.now ≤ longest_line }
    ensures { option_map (λ text. text.now) result ≡ first_text line.now }
{
    let (token, _) = split_first_token(line)?;
    if is_unescaped(token) {
        return Some(token);
    }
    let texts = texts.get_or_insert_with(Unescaped::new);
    if !texts.fill(token) {
        return None;
    }
    Words::of_texts(texts).next()
}
