//! The command that shows the world to which a script leads.
ghost use Rattle.std.specs.Prelude.{◌≡◌, false, IfErr};
ghost use Rattle.vt_run.specs.Status.{comes_before_output};

use crate::ended::no_task;
use crate::noting::{ScriptRead, note_second};
use std::io::Write;
use std::rt::Files;
use vt_calls::{Calls, Kernel};
use vt_check::object::HEAD;
use vt_files::{count_refused, hand_on, readable, refuse_text, spoken};
use vt_lines::reached::reached_before;
use vt_run::fault::{Fault, out_of_memory};
use vt_script::Version;
use vt_show::show::{Format, Options, show as show_world};
use vt_test::suite::{Script, scripts};

/// The world that is shown, and how.
#[derive(Clone, Copy)]
pub struct WorldAsked<'a> {
    /// Of the scripts' language, unless their first line says so.
    pub version: Option<Version>,
    /// The line before which it is, by its number in the file, from 1; where there is none, it is the world at the end.
    pub line: Option<u64>,
    pub options: Options<'a>,
}

/// The text of the script in which a line of the file is, the last one that begins before it, and how many lines of the
/// file come before that; nothing where there is no such script.
pub fn script_at<'b>(all: &'b [Script<'_>], line: u64) -> (&'b [u8], u64) {
    let mut found: (&[u8], u64) = (&[], 0);
    for script in all {
        if script.before < line {
            found = (script.text.as_slice(), script.before);
        }
    }
    found
}

// What stands before all that is shown in this form.
fn head_of(format: Format) -> &'static [u8] {
    match format {
        Format::Json => HEAD.as_bytes(),
        Format::Text | Format::Dot | Format::Mermaid => &[],
    }
}

// Shows the world that a run of the script has before a line.
fn show_script<R: Eprint + AllocGlobal, W: Write>(
    rt: &R,
    script: ScriptRead<'_>,
    line: u64,
    options: Options<'_>,
    output: &mut W,
) -> Result<(), Fault>
    ensures { IfErr result (λ fault. comes_before_output fault ≡ false) }
{
    let alloc = rt.alloc();
    let is_for_people = matches!(options.format, Format::Text);
    note_second(rt, script, is_for_people, output)?;
    let reached = match reached_before::<Kernel>(script.version, alloc, script.text, line) {
        Ok(reached) => reached,
        Err(fault) => return Err(Fault::Run(fault)),
    };
    count_refused(rt, script.name, reached.refused);
    let mut shown = Vec::new(alloc);
    let outcome = show_world(alloc, reached.world.world(), options, &mut shown);
    reached.world.end();
    match outcome {
        Ok(true) => {
            hand_on(output, head_of(options.format))?;
            hand_on(output, shown.as_slice())
        }
        Ok(false) => {
            let why = no_task(alloc, script, line, options);
            Err(refuse_text(rt, script.name, why))
        }
        Err(error) => Err(out_of_memory(error)),
    }
}

/// The scripts of a file.
pub fn scripts_in<'a, R: Eprint + AllocGlobal>(
    rt: &R,
    version: Version,
    name: &str,
    content: &'a [u8],
) -> Result<Vec<Script<'a>>, Fault>
    ensures { IfErr result (λ fault. comes_before_output fault ≡ false) }
{
    let alloc = rt.alloc();
    match scripts(version, alloc, content) {
        Ok(all) => Ok(all),
        Err(fault) => Err(refuse_text(rt, name, format!(in alloc; "{fault}"))),
    }
}

// How many lines a text has.
fn lines_in(text: &[u8]) -> u64 {
    let mut lines: u64 = 0;
    for byte in text {
        lines = lines.saturating_add(u64::from(*byte == b'\n'));
    }
    match text.last() {
        None | Some(b'\n') => lines,
        Some(_) => lines.saturating_add(1),
    }
}

// Refuses a line that a file does not have.
fn check_line<R: Eprint + AllocGlobal>(
    rt: &R,
    name: &str,
    content: &[u8],
    line: Option<u64>,
) -> Result<(), Fault>
    ensures { IfErr result (λ fault. comes_before_output fault ≡ false) }
{
    let last = lines_in(content);
    match line {
        Some(line) if line > last => {
            let why = format!(in rt.alloc(); "there is no line {line}; the last one is {last}");
            Err(refuse_text(rt, name, why))
        }
        _ => Ok(()),
    }
}

// Shows a world of the content of a file.
fn show_content<R: Eprint + AllocGlobal, W: Write>(
    rt: &R,
    name: &str,
    content: &[u8],
    asked: WorldAsked<'_>,
    output: &mut W,
) -> Result<(), Fault>
    ensures { IfErr result (λ fault. comes_before_output fault ≡ false) }
{
    check_line(rt, name, content, asked.line)?;
    let Some(version) = spoken(rt, name, asked.version, content) else {
        return Err(Fault::Found);
    };
    let all = scripts_in(rt, version, name, content)?;
    let line = asked.line.unwrap_or(u64::MAX);
    let (text, before) = script_at(all.as_slice(), line);
    let line = line.saturating_sub(before);
    let script = ScriptRead {
        name,
        version,
        text,
        before,
    };
    let outcome = show_script(rt, script, line, asked.options, output);
    drop(all);
    outcome
}

/// Shows the world that a run of the script has after the lines before one, or after all.
///
/// Of a file of several scripts it is the one that has the line, or the last one.
pub fn show<R: Files + Input + Eprint + AllocGlobal, W: Write>(
    rt: &R,
    name: &str,
    asked: WorldAsked<'_>,
    output: &mut W,
) -> Result<(), Fault>
    ensures { IfErr result (λ fault. comes_before_output fault ≡ false) }
{
    let Some(content) = readable(rt, name) else {
        return Err(Fault::Found);
    };
    let outcome = show_content(rt, name, content.as_slice(), asked, output);
    drop(content);
    outcome
}
