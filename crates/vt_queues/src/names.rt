//! Whom a text names: a task, or `!`.
ghost use Rattle.std.specs.Prelude.{◌≡◌, ◌≤◌, ◌<◌, IfOk, IsSomeAnd, OnErr, length, option_map};
ghost use Rattle.vt_spec.specs.Language.Limits.{longest_line};
ghost use Rattle.vt_spec.specs.Language.Script.{each_of, task_word, token_text, who_of};
ghost use Rattle.vt_spec.specs.Machine.Turns.{first_token, first_who};
ghost use Rattle.vt_request.specs.declared.task.TheConstants.{INLINE_NUMBERS};
ghost use Rattle.vt_line.specs.Tokens.{first_text};
ghost use Rattle.vt_queues.specs.QueuesValue.{who_meant};

use crate::item::Who;
use std::alloc::{AllocError, Global};
use vt_line::line::Unescaped;
use vt_line::who::{first_text, named_task};

/// The task, or `!`, that a text names, if it names one. Only a name of many numbers can fail.
pub fn named(alloc: Global, text: &[u8]) -> Result<Option<Who>, AllocError>
    ensures value { IfOk result (λ named. option_map who_meant named ≡ who_of text.now) }
    ensures memory { OnErr result (IsSomeAnd (task_word text.now) (λ name. INLINE_NUMBERS < length name)) }
{
    if text == b"!".as_slice() {
        return Ok(Some(Who::Nobody));
    }
    match named_task(alloc, text)? {
        Some(name) => Ok(Some(Who::Task(name))),
        None => Ok(None),
    }
}

/// The task, or `!`, that the first token of a line names, if it names one. Only a name of many numbers can fail.
#[tactic(auto, using(crate::proofs::FirstTokens::first_named))]
pub fn first_named(alloc: Global, line: &[u8]) -> Result<Option<Who>, AllocError>
    requires { length line.now ≤ longest_line }
    ensures value { IfOk result (λ named. option_map who_meant named
        ≡ first_who (each_of token_text (first_token line.now))) }
    ensures memory { OnErr result (IsSomeAnd (first_text line.now)
        (λ text. IsSomeAnd (task_word text) (λ name. INLINE_NUMBERS < length name))) }
{
    let mut texts: Option<Unescaped> = None;
    match first_text(line, &mut texts) {
        Some(text) => named(alloc, text),
        None => Ok(None),
    }
}
