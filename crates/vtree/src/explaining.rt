//! The command that explains a line of a script.
ghost use Rattle.std.specs.Prelude.{◌≡◌, false, IfErr};
ghost use Rattle.vt_run.specs.Status.{comes_before_output};

use std::alloc::{AllocError, Global};
use std::io::Write;
use std::rt::Files;
use vt_calls::{Calls, Kernel};
use vt_check::check::Format;
use vt_check::object::HEAD;
use vt_commands::{Explainer, Fault, LineAsked};
use vt_explain::{Numbered, explain, is_spoken, line_at, nearest_call};
use vt_files::{count_refused, hand_on, hand_on_text, readable, refuse_text, spoken};
use vt_lines::reached::reached_before;
use vt_run::fault::out_of_memory;
use vt_showing::{ScriptRead, note_second, script_at, scripts_in};

// Why a line is not explained, and the nearest call.
fn no_call(alloc: Global, line: u64, nearest: Option<u64>) -> Result<String, AllocError> {
    match nearest {
        Some(nearest) => format!(in alloc;
            "line {line} is no call; the nearest is in line {nearest}"
        ),
        None => format!(in alloc; "line {line} is no call, and there is none near it"),
    }
}

// A line of a script that is explained.
#[derive(Clone, Copy)]
struct Explained<'a> {
    script: ScriptRead<'a>,
    asked: LineAsked,
}

impl Explained<'_> {
    // The number of the line in the script.
    fn number(&self) -> u64 {
        self.asked.line.saturating_sub(self.script.before)
    }
}

// What stands before what is told in this form.
fn head_of(format: Format) -> &'static [u8] {
    match format {
        Format::Json => HEAD.as_bytes(),
        Format::Text => &[],
    }
}

// Explains a line with an answer, in the world that a run of the script has before it.
fn explain_call<R: Eprint + AllocGlobal, W: Write>(
    rt: &R,
    explained: &Explained<'_>,
    line: Numbered<'_>,
    output: &mut W,
) -> Result<(), Fault>
    ensures { IfErr result (λ fault. comes_before_output fault ≡ false) }
{
    let alloc = rt.alloc();
    let (script, format) = (explained.script, explained.asked.format);
    note_second(rt, script, matches!(format, Format::Text), output)?;
    let number = explained.number();
    let mut reached = match reached_before::<Kernel>(script.version, alloc, script.text, number) {
        Ok(reached) => reached,
        Err(fault) => return Err(Fault::Run(fault)),
    };
    let told = explain(script.version, alloc, &mut reached.world, line, format);
    let refused = reached.refused;
    reached.world.end();
    if told.is_ok() {
        count_refused(rt, script.name, refused);
        hand_on(output, head_of(format))?;
    }
    hand_on_text(told, output)
}

// Says that a line is no call, and which call is near.
fn refuse_line<R: Eprint + AllocGlobal>(rt: &R, explained: &Explained<'_>) -> Fault
    ensures { comes_before_output result ≡ false }
{
    let alloc = rt.alloc();
    let (script, line) = (explained.script, explained.asked.line);
    let nearest = match nearest_call(script.version, alloc, script.text, explained.number()) {
        Some(nearest) => Some(nearest.saturating_add(script.before)),
        None => None,
    };
    refuse_text(rt, script.name, no_call(alloc, line, nearest))
}

// Explains a line of a script.
fn explain_script<R: Eprint + AllocGlobal, W: Write>(
    rt: &R,
    explained: &Explained<'_>,
    output: &mut W,
) -> Result<(), Fault>
    ensures { IfErr result (λ fault. comes_before_output fault ≡ false) }
{
    let alloc = rt.alloc();
    let (script, line) = (explained.script, explained.asked.line);
    match line_at(alloc, script.text, explained.number()) {
        Ok(Some((before, text))) if is_spoken(script.version, alloc, text) => {
            let line = Numbered {
                number: line,
                text,
                before,
            };
            explain_call(rt, explained, line, output)
        }
        Ok(_) => Err(refuse_line(rt, explained)),
        Err(error) => Err(out_of_memory(error)),
    }
}

// Explains a line of the content of a file.
fn explain_content<R: Eprint + AllocGlobal, W: Write>(
    rt: &R,
    name: &str,
    asked: LineAsked,
    content: &[u8],
    output: &mut W,
) -> Result<(), Fault>
    ensures { IfErr result (λ fault. comes_before_output fault ≡ false) }
{
    let Some(version) = spoken(rt, name, asked.version, content) else {
        return Err(Fault::Found);
    };
    let all = scripts_in(rt, version, name, content)?;
    let (text, before) = script_at(all.as_slice(), asked.line);
    let script = ScriptRead {
        name,
        version,
        text,
        before,
    };
    let explained = Explained { script, asked };
    let outcome = explain_script(rt, &explained, output);
    drop(all);
    outcome
}

/// Lines are explained by `vt_explain`.
pub struct LineExplainer;

impl Explainer for LineExplainer {
    fn explain<R: Files + Input + Eprint + AllocGlobal, W: Write>(
        rt: &R,
        name: &str,
        asked: LineAsked,
        output: &mut W,
    ) -> Result<(), Fault> {
        let Some(content) = readable(rt, name) else {
            return Err(Fault::Found);
        };
        let outcome = explain_content(rt, name, asked, content.as_slice(), output);
        drop(content);
        outcome
    }
}
