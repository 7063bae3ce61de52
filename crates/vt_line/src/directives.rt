//! The directives: lines that are nobody's calls. Both versions of the language read them alike.
ghost use Rattle.std.specs.Prelude.{◌≡◌, is_some, true, Some, IfOk};
ghost use Rattle.vt_spec.specs.Language.Calls.Directive.{AskPeers};
ghost use Rattle.vt_spec.specs.Language.Script.{directive_words, each_of, no_more, some_tasks, task_word};
ghost use Rattle.vt_line.specs.Calls.{IsDirectiveRead};

use crate::calls::ReadError;
use crate::words::{Words, is_task, task_name};
use std::alloc::{AllocError, Global};
use vt_request::request::MOST_NAMED_TASKS;
use vt_request::{Directive, TaskName};

/// Whether all words name tasks: one at least, and no more than `sealed` takes.
#[tactic(auto, using(crate::proofs::DirectiveLemmas::some_counted, crate::proofs::DirectiveLemmas::some_each))]
fn are_some_tasks(words: &Words<'_>) -> bool
    ensures { result ≡ is_some (some_tasks words.now) }
{
    let mut rest = words.again();
    let mut count = 0;
    while let Some(word) = rest.next() {
        if count == MOST_NAMED_TASKS || !is_task(word) {
            return false;
        }
        count += 1;
    }
    count > 0
}

/// The tasks that the words name.
fn named_tasks(alloc: Global, words: &mut Words<'_>) -> Result<Vec<TaskName>, AllocError>
    requires { is_some (each_of task_word words.old) ≡ true }
    ensures { IfOk result (λ tasks. each_of task_word words.old ≡ Some tasks.items) }
{
    let mut tasks = Vec::new(alloc);
    while let Some(word) = words.next() {
        tasks.push(task_name(alloc, word)?)?;
    }
    Ok(tasks)
}

/// `peers`, without words.
fn peers(words: &Words<'_>) -> Result<Directive, ReadError>
    ensures { IsDirectiveRead (no_more AskPeers words.now) result }
{
    match words.end() {
        Some(()) => Ok(Directive::Peers),
        None => Err(ReadError::Grammar),
    }
}

/// `sealed TASK ..`. The names are copied once all words are of the grammar.
fn sealed(alloc: Global, words: &mut Words<'_>) -> Result<Directive, ReadError>
    ensures { IsDirectiveRead (some_tasks words.old) result }
{
    if !are_some_tasks(words) {
        return Err(ReadError::Grammar);
    }
    let tasks = named_tasks(alloc, words)?;
    Ok(Directive::Sealed { tasks })
}

/// The directive of this name with these words.
#[inline(never)]
pub fn directive(alloc: Global, name: &[u8], words: &mut Words<'_>) -> Result<Directive, ReadError>
    ensures { IsDirectiveRead (directive_words name.now words.old) result }
{
    if name == b"peers".as_slice() {
        peers(words)
    } else if name == b"sealed".as_slice() {
        sealed(alloc, words)
    } else {
        Err(ReadError::Grammar)
    }
}
