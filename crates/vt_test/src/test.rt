//! Files of scripts, tested.
ghost use Rattle.std.specs.Prelude.{◌≡◌, IfOk, OnOk, length};
ghost use Rattle.vt_line.specs.Versions.{version_of};
ghost use Rattle.vt_verdict.specs.Counts.{counted};
ghost use Rattle.vt_test.specs.Tested.{CountsFile, no_scripts, one_failed};

use crate::compare::{Comparing, Difference, compare_all};
use crate::suite::{Script, SuiteFault};
use crate::text::push_failure;
use crate::{json, junit};
use std::alloc::{AllocError, Global};
use std::io::{self, Write};
use vt_check::draft::Draft;
use vt_script::{Calls, Version};
pub use vt_verdict::counts::Totals;

/// The form in which outcomes are written.
#[derive(Clone, Copy)]
pub enum Format {
    Text,
    Json,
    Junit,
}

// What is to be said of the scripts of a file.
#[derive(Drop)]
struct Tested<'a> {
    text: Draft,
    alloc: Global,
    file: &'a str,
    format: Format,
    totals: Totals,
    // Whether something keeps the file from being tested.
    has_fault: bool,
}

impl<'a> Tested<'a> {
    // Nothing yet.
    fn new(alloc: Global, file: &'a str, format: Format) -> Self
        ensures { result.totals ≡ no_scripts }
    {
        Tested {
            text: Draft::new(alloc),
            alloc,
            file,
            format,
            totals: Totals::new(),
            has_fault: false,
        }
    }

    // Goes on by what keeps the whole file from being tested.
    fn fail(&mut self, said: &str)
        ensures { self.new.totals ≡ one_failed self.old.totals }
    {
        self.totals.failed = self.totals.failed.saturating_add(1);
        self.has_fault = true;
        let (text, file) = (&mut self.text, self.file);
        match self.format {
            Format::Text => {
                text.fill("error: {}: ", &[file]);
                text.push(said);
                text.push_char('\n');
            }
            Format::Json => json::push_fault(text, self.alloc, file, said),
            Format::Junit => junit::push_fault(text, file, said),
        }
    }

    // Writes what is to be said of the file.
    fn write<W: Write>(self, output: &mut W) -> io::Result<Totals>
        ensures { IfOk result (λ totals. totals ≡ self.entry.totals) }
    {
        let totals = self.totals;
        let text = match self.format {
            Format::Text | Format::Json => self.text,
            Format::Junit => {
                let mut text = Draft::new(self.alloc);
                junit::push_file(&mut text, self.file, &self.text, totals, self.has_fault);
                text
            }
        };
        write_text(output, text)?;
        Ok(totals)
    }
}

impl Tested<'_> {
    // Says how the answers of a script differ.
    fn say(&mut self, script: &Script<'_>, found: &[Difference<'_>])
        ensures { self.new.totals ≡ self.old.totals }
    {
        let (text, alloc, file) = (&mut self.text, self.alloc, self.file);
        match self.format {
            Format::Text if found.is_empty() => {}
            Format::Text => push_failure(text, alloc, file, script, found),
            Format::Json => json::push_outcome(text, alloc, file, script, found),
            Format::Junit => junit::push_outcome(text, alloc, file, script, found),
        }
    }
}

impl Comparing for Tested<'_> {
    ghost goes_on = { λ old lines new. new.totals ≡ counted (length lines) old.totals };

    fn tell(&mut self, script: &Script<'_>, found: &[Difference<'_>]) {
        self.totals.count(found.len());
        self.say(script, found);
    }
}

impl Tested<'_> {
    // Compares the scripts of the file, and says how their answers differ, or what keeps it from being tested.
    fn compare<C: Calls>(&mut self, version: Version, content: &[u8]) -> Result<(), AllocError>
        ensures { OnOk result (CountsFile (version_of version) content.now self.old.totals self.new.totals) }
    {
        let Err(fault) = compare_all::<C, _>(version, self.alloc, content, self) else {
            return Ok(());
        };
        let said = format!(in self.alloc; "{fault}")?;
        self.fail(said.as_str());
        Ok(())
    }
}

// Writes a text, if no allocation failed.
fn write_text<W: Write>(output: &mut W, text: Draft) -> io::Result<()> {
    let text = text.end()?;
    let written = output.write_all(text.as_bytes());
    drop(text);
    written
}

/// A file of scripts that is to be tested.
#[derive(Clone, Copy)]
pub struct Untested<'a> {
    /// The version of the language of its scripts.
    pub version: Version,
    pub name: &'a str,
    pub content: &'a [u8],
}

/// Tests the scripts of a file, and writes what is to be said of each.
pub fn test_file<C: Calls, W: Write>(
    alloc: Global,
    file: Untested<'_>,
    format: Format,
    output: &mut W,
) -> io::Result<Totals>
    ensures { IfOk result (CountsFile (version_of file.entry.version) file.entry.content.now no_scripts) }
{
    let mut tested = Tested::new(alloc, file.name, format);
    tested.compare::<C>(file.version, file.content)?;
    tested.write(output)
}

/// Writes that a file cannot be read, as JSON or JUnit; it counts as one that fails. As text nothing is written.
pub fn unread_file<W: Write>(
    alloc: Global,
    file: &str,
    why: &str,
    format: Format,
    output: &mut W,
) -> io::Result<Totals>
    ensures { IfOk result (λ totals. totals ≡ one_failed no_scripts) }
{
    let mut tested = Tested::new(alloc, file, format);
    match format {
        Format::Text => tested.totals.failed = 1,
        Format::Json | Format::Junit => tested.fail(why),
    }
    tested.write(output)
}

/// Writes what stands before all files.
pub fn begin<W: Write>(format: Format, output: &mut W) -> io::Result<()> {
    match format {
        Format::Junit => output.write_all(junit::HEAD.as_bytes()),
        Format::Text | Format::Json => Ok(()),
    }
}

/// Writes what stands behind all files.
pub fn end<W: Write>(
    alloc: Global,
    format: Format,
    totals: Totals,
    output: &mut W,
) -> io::Result<()> {
    let mut text = Draft::new(alloc);
    match format {
        Format::Text => {
            text.push_number(totals.passed);
            text.push(" passed, ");
            text.push_number(totals.failed);
            text.push(" failed\n");
        }
        Format::Json => json::push_totals(&mut text, alloc, totals.passed, totals.failed),
        Format::Junit => text.push(junit::FOOT),
    }
    write_text(output, text)
}
