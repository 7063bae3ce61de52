//! The commands that look at files of scripts before or after a run.
ghost use Rattle.std.specs.Prelude.{◌≡◌, false, true, IfErr, IfOk};
ghost use Rattle.vt_run.specs.Status.{comes_before_output, is_of_run};

use crate::folders::{is_folder, scripts_below};
use std::alloc::{AllocError, Global};
use std::io::{self, Write};
use std::rt::{Files, Runtime};
use vt_calls::Kernel;
use vt_check::check;
use vt_check::object::HEAD;
use vt_files::{count_refused, hand_on, readable, replace, spoken, told};
use vt_run::fault::Fault;
use vt_script::{RunFault, Version};
use vt_test::test::{Format, Totals, Untested, begin, end, test_file, unread_file};
use vt_test::with_given_answers;
use vt_wanted::header::version_of_file;

const UNREAD: &str = "it cannot be read";

const NO_VERSION: &str = "its first line names a version that does not exist";

// Says on the error output what keeps a file from being written, if there was memory for that.
fn refuse_writing<R: Eprint + AllocGlobal>(
    rt: &R,
    name: &str,
    why: Result<String, AllocError>,
) -> Option<usize> {
    let why = why.unwrap_or(String::new(rt.alloc()));
    let _ = eprintln!(rt; "vtree: cannot write {name}: {why}; it is as it was");
    None
}

// Puts the given answers into a file, and returns how many lines have others; nothing where it cannot be written, which is
// said on the error output.
fn write_file<R: Files + Input + Eprint + AllocGlobal>(
    rt: &R,
    version: Version,
    name: &str,
    content: &[u8],
) -> Option<usize> {
    let alloc = rt.alloc();
    let new = match with_given_answers::<Kernel>(version, alloc, content) {
        Ok(new) => new,
        Err(fault) => return refuse_writing(rt, name, format!(in alloc; "{fault}")),
    };
    if new.changes == 0 {
        return Some(0);
    }
    match replace(rt, name, new.text.as_slice()) {
        Ok(()) => {
            count_refused(rt, name, new.refused);
            Some(new.changes)
        }
        Err(cause) => refuse_writing(rt, name, format!(in alloc; "{cause}")),
    }
}

/// What is done with each file.
#[derive(Clone, Copy)]
pub enum Job {
    /// Tells what is wrong with its lines.
    Check {
        format: check::Format,
        strict: bool,
        most: usize,
    },
    /// Runs its scripts, and tells where their answers are not those that they want. How many pass may be told of each
    /// file.
    Test {
        format: Format,
        tells_all: bool,
    },
    /// Puts the answers that are given into it, through a new file beside it.
    Write,
}

/// What is done with each file, and in which version of the language its scripts are. Where none is asked for, their first
/// lines may name one.
#[derive(Clone, Copy)]
pub struct Work {
    pub version: Option<Version>,
    pub job: Job,
}

// The scripts that were counted so far, and what is to be said next.
#[derive(Drop)]
struct Report {
    totals: Totals,
    text: Vec<u8>,
}

impl Report {
    // Counts the scripts of a file.
    fn count(&mut self, more: Totals) {
        self.totals.passed = self.totals.passed.saturating_add(more.passed);
        self.totals.failed = self.totals.failed.saturating_add(more.failed);
    }
}

// Appends what `test` says of a file whose scripts are not run, and why; it counts as one that fails.
fn pass_over(
    alloc: Global,
    name: &str,
    why: &str,
    job: Job,
    report: &mut Report,
) -> io::Result<bool> {
    if let Job::Test { format, .. } = job {
        let unread = unread_file(alloc, told(name), why, format, &mut report.text)?;
        report.count(unread);
    }
    Ok(true)
}

// The version in which a file is read; of one that names none `check` tells itself.
fn version_of<R: Eprint>(rt: &R, name: &str, content: &[u8], work: Work) -> Option<Version> {
    match work.job {
        Job::Check { .. } => Some(version_of_file(work.version, content)),
        Job::Test { .. } | Job::Write => spoken(rt, name, work.version, content),
    }
}

// Checks, tests or rewrites a file: appends what is to be said of it, and returns whether something was found.
fn work_on<R: Files + Input + Eprint + AllocGlobal>(
    rt: &R,
    name: &str,
    content: &[u8],
    work: Work,
    report: &mut Report,
) -> io::Result<bool> {
    let (alloc, file) = (rt.alloc(), told(name));
    let Some(version) = version_of(rt, name, content, work) else {
        return pass_over(alloc, name, NO_VERSION, work.job, report);
    };
    match work.job {
        Job::Check {
            format,
            strict,
            most,
        } => {
            let options = check::Options {
                version,
                format,
                strict,
                most,
            };
            check::check(alloc, file, content, options, &mut report.text)
        }
        Job::Test { format, tells_all } => {
            let untested = Untested {
                version,
                name: file,
                content,
            };
            let text = &mut report.text;
            let tested = test_file::<Kernel, _>(alloc, untested, format, text)?;
            report.count(tested);
            let Totals { passed, failed } = tested;
            if tells_all {
                writeln!(report.text, "{file}: {passed} passed, {failed} failed")?;
            }
            Ok(failed > 0)
        }
        Job::Write => {
            let Some(changes) = write_file(rt, version, name, content) else {
                return Ok(true);
            };
            writeln!(report.text, "{name}: {changes} answers written")?;
            Ok(false)
        }
    }
}

// Checks, tests or rewrites a file, hands on what is to be said of it, and returns whether something was found.
fn work_on_named<R: Files + Input + Eprint + AllocGlobal, W: Write>(
    rt: &R,
    name: &str,
    work: Work,
    report: &mut Report,
    output: &mut W,
) -> Result<bool, Fault>
    ensures { IfErr result (λ fault. comes_before_output fault ≡ false) }
{
    let outcome = match readable(rt, name) {
        Some(content) => work_on(rt, name, content.as_slice(), work, report),
        None => pass_over(rt.alloc(), name, UNREAD, work.job, report),
    };
    let Ok(is_bad) = outcome else {
        return Err(Fault::Run(RunFault::Memory));
    };
    hand_on(output, report.text.as_slice())?;
    report.text.clear();
    Ok(is_bad)
}

// Checks, tests or rewrites the scripts of a folder, and returns whether something was found.
fn work_on_folder<R: Runtime + AllocGlobal, W: Write>(
    rt: &R,
    folder: &str,
    work: Work,
    report: &mut Report,
    output: &mut W,
) -> Result<bool, Fault>
    ensures { IfErr result (λ fault. comes_before_output fault ≡ false) }
{
    let Some(names) = scripts_below(rt, folder) else {
        return Ok(true);
    };
    let mut found = names.is_empty();
    for name in &names {
        found |= work_on_named(rt, name.as_str(), work, report, output)?;
    }
    Ok(found)
}

// Appends what is said before all files.
fn begin_all(job: Job, text: &mut Vec<u8>) -> io::Result<()> {
    match job {
        Job::Check {
            format: check::Format::Json,
            ..
        }
        | Job::Test {
            format: Format::Json,
            ..
        } => text.write_all(HEAD.as_bytes()),
        Job::Test { format, .. } => begin(format, text),
        Job::Check { .. } | Job::Write => Ok(()),
    }
}

// Hands on what is to be said of all files, and tells whether something was found.
fn finish<W: Write>(
    alloc: Global,
    job: Job,
    found: bool,
    report: &mut Report,
    output: &mut W,
) -> Result<(), Fault>
    ensures output { IfErr result (λ fault. comes_before_output fault ≡ false) }
    ensures found { IfOk result (λ done. found ≡ false) }
    ensures run { IfErr result (λ fault. found ≡ false → is_of_run fault ≡ true) }
{
    if let Job::Test { format, .. } = job
        && end(alloc, format, report.totals, &mut report.text).is_err()
    {
        return Err(Fault::Run(RunFault::Memory));
    }
    hand_on(output, report.text.as_slice())?;
    if found { Err(Fault::Found) } else { Ok(()) }
}

// Checks, tests or rewrites these files, with one report for all.
fn work_through<R: Runtime + AllocGlobal, W: Write>(
    rt: &R,
    files: &[&str],
    work: Work,
    report: &mut Report,
    output: &mut W,
) -> Result<(), Fault>
    ensures { IfErr result (λ fault. comes_before_output fault ≡ false) }
{
    let mut found = false;
    if begin_all(work.job, &mut report.text).is_err() {
        return Err(Fault::Run(RunFault::Memory));
    }
    for name in files {
        found |= if is_folder(rt, name) {
            work_on_folder(rt, name, work, report, output)?
        } else {
            work_on_named(rt, name, work, report, output)?
        };
    }
    finish(rt.alloc(), work.job, found, report, output)
}

/// Checks, tests or rewrites these files, and the scripts of these folders, and tells what it finds.
pub fn work_on_all<R: Runtime + AllocGlobal, W: Write>(
    rt: &R,
    files: &[&str],
    work: Work,
    output: &mut W,
) -> Result<(), Fault>
    ensures { IfErr result (λ fault. comes_before_output fault ≡ false) }
{
    let mut report = Report {
        totals: Totals::new(),
        text: Vec::new(rt.alloc()),
    };
    let outcome = work_through(rt, files, work, &mut report, output);
    drop(report);
    outcome
}
