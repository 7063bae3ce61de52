//! The lines of a script.
ghost use Rattle.std.specs.Prelude.{◌≡◌, ◌<◌, ◌≤◌, ◌↔◌, ◌⊎◌, ◌∷◌, None, length, option_map, IfOk, IfErr, IsSomeAnd};
ghost use Rattle.vt_spec.specs.Errors.{denial};
ghost use Rattle.vt_spec.specs.Language.Script.{asked_by, overlays};
ghost use Rattle.vt_spec.specs.Language.Script.{request_of, request_of_texts, task_word};
ghost use Rattle.vt_spec.specs.Language.Script.Version.{One};
ghost use Rattle.vt_spec.specs.Language.Script.Who.{Someone};
ghost use Rattle.vt_spec.specs.Language.Limits.{longest_line};
ghost use Rattle.vt_spec.specs.declared.errors.Rule.TheVariants.{S1, S5};
ghost use Rattle.vt_line.specs.Calls.{IsRequestRead, TakesMemory};
ghost use Rattle.vt_line.specs.Lines.{IsSilent, IsSpoken, IsReadingOf};
ghost use Rattle.vt_line.specs.Versions.{version_of};

use crate::calls::call;
use crate::directives::directive;
use crate::names::CallName;
pub use crate::token::Unescaped;
use crate::token::{is_silent, is_unescaped};
use crate::version::Version;
use crate::words::{Words, is_task_of_parts, short_task_name, task_name_of_parts};
use std::alloc::Global;
use vt_io::line::LONGEST_LINE;
use vt_request::{Call, Directive, TaskName};
use vt_spec::errors::{Deny, Rule};

/// A line of a script.
#[derive(Debug, Drop)]
pub enum Line<'a> {
    /// Spaces alone, or a comment: it has no answer.
    Silent,
    /// A task makes a call.
    Call(TaskName, Call<'a>),
    /// Nobody's line, behind a `!` in place of a task.
    Ask(Directive),
}

/// Lets go of a call, where the name of its task was refused memory. Out of line, so that elsewhere a call is moved
/// as a whole.
#[inline(never)]
fn given_up(_call: Call<'_>) -> Deny
    ensures { result ≡ denial S5 }
{
    Rule::S5.denial()
}

/// A task's call, by their texts and the words behind them. What is kept of them is copied once all are of the grammar.
#[inline(always)]
fn task_call<'a>(
    version: Version,
    alloc: Global,
    task: &[u8],
    name: &[u8],
    words: &mut Words<'a>,
) -> Result<Line<'a>, Deny>
    ensures { let task = option_map Someone (task_word task.now) in
        IsRequestRead (asked_by (overlays (version_of version)) task (name.now ∷ words.old)) result }
{
    let Some(name) = CallName::from_text(name) else {
        return Err(Rule::S1.denial());
    };
    // Almost every name is short, and so it is read once, and not checked here and read below.
    let known = short_task_name(alloc, task);
    if known.is_none() && !is_task_of_parts(task) {
        return Err(Rule::S1.denial());
    }
    // By `?` it would be moved more often.
    let call = match call(version, alloc, name, words) {
        Ok(call) => call,
        Err(error) => return Err(Deny::from(error)),
    };
    if let Some(known) = known {
        return Ok(Line::Call(known, call));
    }
    let Ok(task) = task_name_of_parts(alloc, task) else {
        return Err(given_up(call));
    };
    Ok(Line::Call(task, call))
}

/// What a line asks for, by its words. Inlined, so that what was read is not moved as a whole.
#[inline(always)]
fn words_request<'a>(
    version: Version,
    alloc: Global,
    mut words: Words<'a>,
) -> Result<Line<'a>, Deny>
    ensures { IsRequestRead (request_of_texts (overlays (version_of version)) words.entry) result }
{
    let (Some(who), Some(name)) = (words.next(), words.next()) else {
        return Err(Rule::S1.denial());
    };
    if who != b"!".as_slice() {
        return task_call(version, alloc, who, name, &mut words);
    }
    match directive(alloc, name, &mut words) {
        Ok(directive) => Ok(Line::Ask(directive)),
        Err(error) => Err(Deny::from(error)),
    }
}

/// What a line asks for that has escapes, or bytes that no token has. Out of line, since the texts take much of the
/// stack.
#[inline(never)]
fn escaped_request<'a>(
    version: Version,
    alloc: Global,
    line: &[u8],
    texts: &'a mut Option<Unescaped>,
) -> Result<Line<'a>, Deny>
    requires { length line.now ≤ longest_line }
    ensures { IsRequestRead (request_of (overlays (version_of version)) line.now) result }
{
    let texts = texts.get_or_insert_with(Unescaped::new);
    if !texts.fill(line) {
        return Err(Rule::S1.denial());
    }
    words_request(version, alloc, Words::of_texts(texts))
}

/// As `escaped_request`. It is inlined, so that room for what that returns is made only where a line has escapes.
#[inline(always)]
fn request_with_escapes<'a>(
    version: Version,
    alloc: Global,
    line: &[u8],
    texts: &'a mut Option<Unescaped>,
) -> Result<Line<'a>, Deny>
    requires { length line.now ≤ longest_line }
    ensures { IsRequestRead (request_of (overlays (version_of version)) line.now) result }
{
    escaped_request(version, alloc, line, texts)
}

/// What a line asks for, if it is of the grammar.
#[inline(always)]
fn request<'a>(
    version: Version,
    alloc: Global,
    line: &'a [u8],
    texts: &'a mut Option<Unescaped>,
) -> Result<Line<'a>, Deny>
    requires { length line.now ≤ longest_line }
    ensures { IsRequestRead (request_of (overlays (version_of version)) line.now) result }
{
    if !is_unescaped(line) {
        return request_with_escapes(version, alloc, line, texts);
    }
    words_request(version, alloc, Words::of_tokens(line))
}

impl<'a> Line<'a> {
    /// Reads a line of version 1, given without its newline: `parse_as` of that version.
    pub fn parse(
        alloc: Global,
        line: &'a [u8],
        texts: &'a mut Option<Unescaped>,
    ) -> Result<Line<'a>, Deny>
        ensures silent { (result ≡ Ok Line.Silent) ↔ IsSilent line.now }
        ensures reading { IfOk result (IsReadingOf One line.now) }

        // The two refusals, and what each says of the line.
        ensures refused { IfErr result (λ deny. (deny ≡ denial S1) ⊎ (deny ≡ denial S5)) }
        ensures no_request { (result ≡ Err (denial S1))
            ↔ ((longest_line < length line.now) ⊎ (IsSpoken line.now × (request_of (overlays One) line.now ≡ None))) }
        ensures no_memory { result ≡ Err (denial S5)
            → IsSpoken line.now × IsSomeAnd (request_of (overlays One) line.now) TakesMemory }
    {
        Line::parse_as(Version::One, alloc, line, texts)
    }

    /// Reads a line, given without its newline, in a version of the language.
    ///
    /// Its paths and texts are lent: from `line`, or from `texts` where they have escapes. Refused by S1 where it is too
    /// long or not of the grammar, whatever memory there is, and by S5 where there is none for what the line's request
    /// keeps. A line without an answer does not allocate.
    #[inline(always)]
    pub fn parse_as(
        version: Version,
        alloc: Global,
        line: &'a [u8],
        texts: &'a mut Option<Unescaped>,
    ) -> Result<Line<'a>, Deny>
        ensures silent { (result ≡ Ok Line.Silent) ↔ IsSilent line.now }
        ensures reading { IfOk result (IsReadingOf (version_of version) line.now) }

        // The two refusals, and what each says of the line.
        ensures refused { IfErr result (λ deny. (deny ≡ denial S1) ⊎ (deny ≡ denial S5)) }
        ensures no_request { let asked = request_of (overlays (version_of version)) line.now in
            (result ≡ Err (denial S1))
            ↔ ((longest_line < length line.now) ⊎ (IsSpoken line.now × (asked ≡ None))) }
        ensures no_memory { let asked = request_of (overlays (version_of version)) line.now in
            result ≡ Err (denial S5) → IsSpoken line.now × IsSomeAnd asked TakesMemory }
    {
        if line.len() > LONGEST_LINE {
            return Err(Rule::S1.denial());
        }
        if is_silent(line) {
            return Ok(Line::Silent);
        }
        request(version, alloc, line, texts)
    }
}
