//! The cases of a file: scripts, each beside the text that is written for it.
//!
//! `== NAME` begins a case. Its script follows, up to a line `--`, and then the text. `\x0d` at the end of a line of the
//! script is a carriage return, which tools that copy files may take away.
use anyhow::{Result, bail};
use std::alloc::{AllocError, Global};
use std::fs;
use std::io::Write;
use std::rt::Files;
use vt_calls::{Calls, Kernel};
use vt_check::check::{Options as CheckOptions, check as check_script};
use vt_explain::{Format as ExplainFormat, Numbered, explain, line_at};
use vt_lines::reached::reached_before;
use vt_script::{Version, WriteSink, write_reply};
use vt_show::show::{Options as ShowOptions, show as show_world};
use vt_turns_dated::TurnKernel;
use vt_turns_run::play_script;

// What stands between a script and its schedule.
const SCHEDULE: &str = "-- turns\n";

/// What writes the text of a script, and how.
#[derive(Clone, Copy)]
pub enum Tool {
    Check(CheckOptions),
    /// The world after all lines of a script in this version of its language is shown.
    Show(Version, ShowOptions<'static>),
    /// The last line of a script in this version of its language is explained.
    Explain(Version, ExplainFormat),
    /// The same, but the cause alone is compared.
    Cause(Version),
    /// A script in this version of its language is answered in turns. A line `-- turns`, and then the schedule, stand behind
    /// it.
    Turns(Version),
}

impl Tool {
    // The text that is written for a script.
    fn text_of(self, alloc: Global, script: &[u8]) -> Result<Vec<u8>> {
        let mut text = Vec::new(alloc);
        match self {
            Tool::Check(options) => {
                check_script(alloc, "script.vt", script, options, &mut text)?;
            }
            Tool::Show(version, options) => {
                let reached = reached_before::<Kernel>(version, alloc, script, u64::MAX)?;
                let outcome = show_world(alloc, reached.world.world(), options, &mut text);
                reached.world.end();
                if !outcome? {
                    bail!("there is no such task");
                }
            }
            Tool::Explain(version, format) => return explained(version, alloc, script, format),
            Tool::Turns(version) => return played(version, alloc, script),
            Tool::Cause(version) => {
                let told = explained(version, alloc, script, ExplainFormat::Text)?;
                let told = str::from_utf8(told.as_slice()).unwrap_or_default();
                for line in told.lines() {
                    if let Some(cause) = line.strip_prefix("  cause        ") {
                        text.extend_from_slice(cause.as_bytes())?;
                        text.push(b'\n')?;
                    }
                }
            }
        }
        Ok(text)
    }
}

// The text that explains the last line of a script.
fn explained(
    version: Version,
    alloc: Global,
    script: &[u8],
    format: ExplainFormat,
) -> Result<Vec<u8>> {
    let mut number: u64 = 0;
    for byte in script {
        if *byte == b'\n' {
            number = number.saturating_add(1);
        }
    }
    let (before, text) = line_at(alloc, script, number)?.unwrap_or_default();
    let mut reached = reached_before::<Kernel>(version, alloc, script, number)?;
    let numbered = Numbered {
        number,
        text,
        before,
    };
    let outcome = explain(version, alloc, &mut reached.world, numbered, format);
    reached.world.end();
    Ok(outcome?.into_bytes())
}

// What a script replies in the order of a schedule, and then which lines of the schedule did nothing, and which of the
// script were not reached.
fn played(version: Version, alloc: Global, script: &[u8]) -> Result<Vec<u8>> {
    let text = str::from_utf8(script).unwrap_or_default();
    let Some((script, schedule)) = text.split_once(SCHEDULE) else {
        bail!("no schedule stands behind the script");
    };
    let outcome = play_script::<TurnKernel>(version, alloc, script.as_bytes(), schedule.as_bytes());
    let Ok(played) = outcome else {
        bail!("an allocation failed");
    };
    let mut text = Vec::new(alloc);
    for reply in &played.replies {
        let mut sink = WriteSink::new(&mut text);
        write_reply(&mut sink, reply.line, &reply.answer)?;
    }
    if let Some(first) = played.first_idle {
        let idle = played.idle;
        write!(text, "idle: {idle}, the first is {first}\n")?;
    }
    for line in &played.left {
        write!(text, "left: {line}\n")?;
    }
    Ok(text)
}

// A script, and the text that is wanted.
#[derive(Drop)]
struct Case {
    name: String,
    script: String,
    wanted: String,
    in_text: bool,
}

impl Case {
    // Its first line is its name.
    fn read(alloc: Global, text: &str) -> Result<Self, AllocError> {
        let mut lines = text.split('\n');
        let mut case = Case {
            name: lines.next().unwrap_or_default().to_string(alloc)?,
            script: String::new(alloc),
            wanted: String::new(alloc),
            in_text: false,
        };
        for line in lines {
            case.say(line)?;
        }
        Ok(case)
    }

    // Goes on with the case by a line of the file.
    fn say(&mut self, line: &str) -> Result<(), AllocError> {
        if line == "--" {
            self.in_text = true;
            return Ok(());
        }
        if self.in_text {
            self.wanted.push_str(line)?;
            return self.wanted.push('\n');
        }
        match line.strip_suffix("\\x0d") {
            Some(text) => {
                self.script.push_str(text)?;
                self.script.push_str("\r\n")
            }
            None => {
                self.script.push_str(line)?;
                self.script.push('\n')
            }
        }
    }

    // An error if another text is written.
    fn check(&self, alloc: Global, tool: Tool) -> Result<()> {
        let given = tool.text_of(alloc, self.script.as_bytes())?;
        if given.as_slice() != self.wanted.as_bytes() {
            let given = str::from_utf8(given.as_slice()).unwrap_or_default();
            bail!("{}: this text is written:\n{given}", self.name);
        }
        Ok(())
    }
}

/// How many cases the file has, or an error if one of them has another text.
pub fn check<R: Files + AllocGlobal>(rt: &R, name: &str, tool: Tool) -> Result<u64> {
    let alloc = rt.alloc();
    let file = fs::read_to_string(rt, name)?;
    let Some(cases) = file.as_str().trim_end().strip_prefix("== ") else {
        bail!("{name}: no case begins it");
    };
    let mut count: u64 = 0;
    for text in cases.split("\n== ") {
        Case::read(alloc, text)?.check(alloc, tool)?;
        count = count.saturating_add(1);
    }
    Ok(count)
}
