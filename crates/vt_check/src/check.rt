//! The findings of a script, written.
ghost use Rattle.std.specs.Prelude.{◌≡◌, ◌⊎◌, ◌<◌, IfOk, false, true};
ghost use Rattle.vt_line.specs.Versions.{version_of};
ghost use Rattle.vt_lines.specs.Refused.{refused_in};
ghost use Rattle.vt_wanted.specs.Entries.{calls_of};
ghost use Rattle.vt_wanted.specs.Headers.{names_no_version};

use crate::diagnose::diagnosis;
use crate::draft::Draft;
use crate::report::{Finding, Level, Report, report_of};
use crate::{json, text};
use std::alloc::{AllocError, Global};
use std::io::{self, Write};
use vt_line::version::Version;
use vt_lines::lines::first_line;
use vt_lines::reading::is_taken;
use vt_verdict::counts::Counts;
use vt_wanted::entry::calls_of;

/// The form in which findings are written.
#[derive(Clone, Copy)]
pub enum Format {
    Text,
    Json,
}

/// How a script is checked.
#[derive(Clone, Copy)]
pub struct Options {
    /// Of the scripts' language.
    pub version: Version,
    pub format: Format,
    /// Whether warnings are errors.
    pub strict: bool,
    /// The most findings that are written as text; JSON has all.
    pub most: usize,
}

// A report as it is written.
fn written(
    alloc: Global,
    name: &str,
    options: Options,
    report: &Report<'_>,
) -> Result<String, AllocError> {
    let (mut text, strict) = (Draft::new(alloc), options.strict);
    match options.format {
        Format::Text => {
            for finding in &report.findings {
                text::push_found(&mut text, name, strict, finding);
            }
            text::push_summary(&mut text, name, report);
        }
        Format::Json => {
            for finding in &report.findings {
                json::push_found(&mut text, alloc, name, strict, finding);
            }
            json::push_summary(&mut text, alloc, name, report);
        }
    }
    text.end()
}

// Counts what is told as an error: a fault of the file, and a warning where warnings are errors.
fn count_for(strict: bool, report: &mut Report<'_>) {
    let of_file = u64::from(report.names_no_version);
    report.errors = report.errors.saturating_add(of_file);
    if strict {
        report.errors = report.errors.saturating_add(report.warnings);
        report.warnings = 0;
    }
}

// What is found in a file.
fn reported<'a>(alloc: Global, file: &'a [u8], options: Options) -> Result<Report<'a>, AllocError>
    ensures errors { IfOk result (λ report. report.errors ≡ refused_in (version_of options.version) (calls_of file.now)) }
    ensures version { IfOk result (λ report. report.names_no_version ≡ names_no_version file.now) }
{
    let most = match options.format {
        Format::Text => options.most,
        Format::Json => usize::MAX,
    };
    let calls = calls_of(alloc, file)?;
    let report = report_of(options.version, alloc, file, calls.as_slice(), most);
    drop(calls);
    report
}

/// Writes what is found in a file of scripts, under its name, and returns whether it is bad: whether a run refuses a
/// line of it by S1, its first line names a version that does not exist, or there is a warning where warnings are
/// errors. Answers that lines want are no part of them.
pub fn check<W: Write>(
    alloc: Global,
    name: &str,
    file: &[u8],
    options: Options,
    output: &mut W,
) -> io::Result<bool>
    ensures refused { IfOk result (λ is_bad.
        0 < refused_in (version_of options.version) (calls_of file.now) → is_bad ≡ true) }
    ensures version { IfOk result (λ is_bad. names_no_version file.now ≡ true → is_bad ≡ true) }
    ensures warned { IfOk result (λ is_bad. options.strict ≡ false → is_bad ≡ true
        → (0 < refused_in (version_of options.version) (calls_of file.now)) ⊎ (names_no_version file.now ≡ true)) }
{
    let mut report = reported(alloc, file, options)?;
    let counts = Counts {
        errors: report.errors,
        warnings: report.warnings,
    };
    let is_bad = report.names_no_version || counts.is_bad(options.strict);
    count_for(options.strict, &mut report);
    let text = written(alloc, name, options, &report);
    drop(report);
    let text = text?;
    let written = output.write_all(text.as_bytes());
    drop(text);
    written?;
    Ok(is_bad)
}

/// A line of a file, with its number there, from 1.
#[derive(Clone, Copy)]
pub struct NumberedLine<'a> {
    pub number: u64,
    pub text: &'a [u8],
}

/// Appends what is wrong with a line of the file of this name, as text. A run refuses the line by S1, in this version of
/// the language.
pub fn push_explained(
    text: &mut Draft,
    version: Version,
    alloc: Global,
    name: &str,
    line: NumberedLine<'_>,
) {
    let finding = Finding {
        line: line.number,
        text: line.text,
        level: Level::Refused,
        diagnosis: diagnosis(version, alloc, line.text),
    };
    text::push_found(text, name, false, &finding);
}

/// The number of the first line of a script that version 1 refuses and version 2 takes.
pub fn first_of_second(alloc: Global, script: &[u8]) -> Result<Option<u64>, AllocError> {
    let mut rest = script;
    let mut number: u64 = 0;
    while let Some((line, after)) = first_line(rest) {
        number = number.saturating_add(1);
        if !is_taken(Version::One, alloc, line)? && is_taken(Version::Two, alloc, line)? {
            return Ok(Some(number));
        }
        rest = after;
    }
    Ok(None)
}

/// What is to be told before the answers of a script that is read in version 1: which line only version 2 has, and
/// what to write. Nothing where there is no such line, or version 2 is read. `before` lines of the file come before
/// the script.
pub fn of_second(
    version: Version,
    alloc: Global,
    script: &[u8],
    before: u64,
) -> Result<Option<String>, AllocError> {
    if matches!(version, Version::Two) {
        return Ok(None);
    }
    let Some(number) = first_of_second(alloc, script)? else {
        return Ok(None);
    };
    let mut text = Draft::new(alloc);
    text.push("line ");
    text.push_number(before.saturating_add(number));
    text.push(
        " is of script version 2: write `--script 2`, or begin the file with `#!vtree --script 2`",
    );
    Ok(Some(text.end()?))
}
