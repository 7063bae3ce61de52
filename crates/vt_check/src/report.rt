//! What is found in a whole script.
ghost use Rattle.std.specs.Prelude.{◌≡◌, IfOk};
ghost use Rattle.vt_line.specs.Versions.{version_of};
ghost use Rattle.vt_lines.specs.Refused.{is_refused, refused_in};
ghost use Rattle.vt_wanted.specs.Headers.{names_no_version};

use crate::answers::{NO_NAME, NOTHING_ABOVE, of_answer};
use crate::bytes::{TOLD_ONCE, byte_fault};
use crate::diagnose::diagnosis;
use crate::draft::Draft;
use crate::finding::Diagnosis;
use crate::history::History;
use crate::words::word_at;
use std::alloc::{AllocError, Global};
use strsim::osa_distance;
use vt_line::line::{Line, Unescaped};
use vt_line::version::Version;
use vt_lines::lines::first_line;
use vt_lines::reading::{free, reading};
use vt_wanted::entry::{Entry, entry_of};
use vt_wanted::header::{VersionWord, wrong_version};

/// The most findings of a file that are shown where nothing else is asked for.
pub const MOST_SHOWN: usize = 50;

/// How grave a finding is.
#[derive(Clone, Copy)]
pub enum Level {
    /// A run refuses the line by S1.
    Refused,
    /// The file is at fault, and not a line of a script.
    OfFile,
    Warning,
}

/// Something found in a line.
#[derive(Drop)]
pub struct Finding<'a> {
    /// The number of the line, from 1.
    pub line: u64,
    /// The line itself.
    pub text: &'a [u8],
    pub level: Level,
    pub diagnosis: Diagnosis,
}

impl<'a> Finding<'a> {
    /// How grave it is told to be, where warnings are errors or not.
    pub fn told_level(&self, strict: bool) -> &'static str {
        match self.level {
            Level::Warning if !strict => "warning",
            _ => "error",
        }
    }

    /// The rule by which a run refuses the line, or nothing.
    pub fn rule(&self) -> &'static str {
        match self.level {
            Level::Refused => "S1",
            Level::OfFile | Level::Warning => "",
        }
    }
}

/// What is found in a script.
#[derive(Drop)]
pub struct Report<'a> {
    /// The first of them, in the order of their lines.
    pub findings: Vec<Finding<'a>>,
    /// How many lines a run refuses by S1.
    pub errors: u64,
    /// Whether the first line of the file names a version that does not exist.
    pub names_no_version: bool,
    pub warnings: u64,
    /// How many lines have each of the faults that are told once, in the order of [`crate::bytes::ByteKind`].
    pub told: [u64; TOLD_ONCE],
}

/// The line of this number in a text, from 1, without its newline; an empty one behind the last.
pub fn line_at(text: &[u8], number: u64) -> &[u8] {
    let mut rest = text;
    for _ in 1..number {
        match first_line(rest) {
            Some((_, after)) => rest = after,
            None => return rest,
        }
    }
    match first_line(rest) {
        Some((line, _)) => line,
        None => rest,
    }
}

// Whether a line wants a denial as its answer.
fn wants_denial(line: &[u8]) -> bool {
    match entry_of(line) {
        Entry::Line(_, Some(answer)) => answer.starts_with(b"deny"),
        _ => false,
    }
}

// What is found so far. An allocation that fails is noted with the history, and told at the end.
#[derive(Drop)]
struct Scan<'a> {
    version: Version,
    alloc: Global,
    // How many findings are kept at most.
    most: usize,
    // The lines of the file that were not taken yet.
    rest: &'a [u8],
    // Whether an answer that is wanted stands above, in this script.
    has_answer: bool,
    history: History,
    findings: Vec<Finding<'a>>,
    warnings: u64,
    told: [u64; TOLD_ONCE],
}

impl<'a> Scan<'a> {
    // Whether the fault of a refused line was told before in this file.
    fn is_told(&mut self, line: &[u8]) -> bool {
        let Some(fault) = byte_fault(line) else {
            return false;
        };
        match self.told.get_mut(fault.kind as usize) {
            Some(count) => {
                *count = count.saturating_add(1);
                *count > 1
            }
            None => false,
        }
    }

    // Keeps a finding.
    fn find(&mut self, line: u64, text: &'a [u8], level: Level, diagnosis: Diagnosis) {
        let kept = self.findings.push(Finding {
            line,
            text,
            level,
            diagnosis,
        });
        self.history.failed |= kept.is_err();
    }

    // Whether a word is `fork`, or one like it.
    fn is_like_fork(&mut self, word: &str) -> bool {
        if !matches!(word.len(), 3..=5) {
            return false;
        }
        match osa_distance(self.alloc, word, "fork") {
            Ok(distance) => distance <= 1,
            Err(_) => {
                self.history.failed = true;
                false
            }
        }
    }

    // Goes on by a refused line, if it was to fork a child: of the task that ends by another line.
    fn refuse_fork(&mut self, number: u64, line: &str) {
        if !self.is_like_fork(word_at(line, 1).text) {
            return;
        }
        let mut exit = Draft::new(self.alloc);
        exit.push(word_at(line, 0).text);
        exit.push(" exit");
        let Ok(exit) = exit.end() else {
            self.history.failed = true;
            return;
        };
        let mut texts = None;
        match reading(self.version, self.alloc, exit.as_bytes(), &mut texts) {
            Ok(read) => {
                self.history.refuse_fork(number, &read);
                free(read);
            }
            Err(_) => self.history.failed = true,
        }
    }

    // Keeps what is wrong with a refused line, of which this is the call.
    fn refuse(&mut self, number: u64, line: &'a [u8], call: &[u8]) {
        self.refuse_fork(number, str::from_utf8(call).unwrap_or_default());
        if !self.is_told(call) && self.findings.len() < self.most {
            let found = diagnosis(self.version, self.alloc, call);
            self.find(number, line, Level::Refused, found);
        }
    }

    // Keeps a warning about a line.
    fn warn(&mut self, number: u64, line: &'a [u8], warning: Diagnosis) {
        self.warnings = self.warnings.saturating_add(1);
        if self.findings.len() < self.most {
            self.find(number, line, Level::Warning, warning);
        }
    }

    // Goes on by a line whose call is this text, as a run reads it, or by one that it refuses. A call that is to be
    // denied leaves nothing.
    fn follow(&mut self, number: u64, line: &'a [u8], text: &[u8], read: &Option<Line<'_>>) {
        match read {
            None => self.refuse(number, line, text),
            Some(Line::Call(name, call)) if !wants_denial(line) => {
                if let Some(warning) = self.history.call(number, text, name, call) {
                    self.warn(number, line, warning);
                }
            }
            Some(_) => {}
        }
    }

    // The next line of the file.
    fn next_line(&mut self) -> &'a [u8] {
        match first_line(self.rest) {
            Some((line, after)) => {
                self.rest = after;
                line
            }
            None => self.rest,
        }
    }

    // Warns of the form of the answer that a line of the file wants, and begins anew where a script does.
    fn follow_entry(&mut self, number: u64, line: &'a [u8]) {
        let mut found = Diagnosis::new(self.version, self.alloc);
        let is_bad = match entry_of(line) {
            Entry::Name(name) => {
                self.history.begin();
                self.has_answer = false;
                name.is_empty() && found.tell(line, NO_NAME)
            }
            Entry::More(_) => !self.has_answer && found.tell(line, NOTHING_ABOVE),
            Entry::Line(call, answer) => {
                self.has_answer |= answer.is_some();
                call.len() < line.len() && of_answer(&mut found, line, call.len())
            }
        };
        if is_bad {
            self.warn(number, line, found);
        } else if found.message.is_failed() {
            self.history.failed = true;
        }
    }

    // Goes on by a line of the file, of which this is the call, and says whether a run refuses it, in this version of
    // the language. One place serves for the texts of each line in turn.
    fn take(
        &mut self,
        version: Version,
        number: u64,
        call: &[u8],
        texts: &mut Option<Unescaped>,
    ) -> Result<bool, AllocError>
        ensures { IfOk result (λ refused. refused ≡ is_refused (version_of version) call.now) }
    {
        let line = self.next_line();
        let read = reading(version, self.alloc, call, texts)?;
        let refused = read.is_none();
        self.follow(number, line, call, &read);
        free(read);
        self.follow_entry(number, line);
        Ok(refused)
    }

    // Goes on by all calls of a file in this version of the language, and says how many a run refuses.
    #[tactic(auto, using(vt_lines::proofs::LineLemmas::refused_lines))]
    fn take_all(&mut self, version: Version, calls: &[u8]) -> Result<u64, AllocError>
        ensures { IfOk result (λ errors. errors ≡ refused_in (version_of version) calls.now) }
    {
        let mut rest = calls;
        let mut number: u64 = 0;
        let mut errors: u64 = 0;
        let mut texts = None;
        while let Some((line, after)) = first_line(rest) {
            number = number.saturating_add(1);
            if self.take(version, number, line, &mut texts)? {
                errors += 1;
            }
            rest = after;
        }
        Ok(errors)
    }

    // Keeps that the first line of the file names a version that does not exist, by this word.
    fn find_version(&mut self, file: &'a [u8], word: VersionWord<'_>) {
        let mut found = Diagnosis::new(self.version, self.alloc);
        found.column = word.column;
        found.width = word.text.len();
        found
            .message
            .fill("no version `{}` of scripts", &[word.shown()]);
        found.words = "`--script 1` and `--script 2` are the versions";
        self.find(1, line_at(file, 1), Level::OfFile, found);
    }

    // Goes on behind the last line of a file: warns of changes of the root that no change of the working directory
    // follows, and puts the findings in the order of their lines. Only of those that are shown the line is looked for.
    fn finish(&mut self, file: &'a [u8]) {
        let numbers = self.history.unfollowed_chroots();
        self.warnings = self.warnings.saturating_add(numbers.len() as u64);
        let room = self.most.saturating_sub(self.findings.len());
        for number in numbers.get(..room).unwrap_or(&numbers) {
            let line = line_at(file, *number);
            let warning = self.history.unfollowed(line);
            self.find(*number, line, Level::Warning, warning);
        }
        let sorted = self.findings.sort_by_key(|finding| finding.line);
        self.history.failed |= sorted.is_err();
    }
}

// The report of a scan that has come to the end of a text.
fn ended<'a>(scan: Scan<'a>, errors: u64, names_no_version: bool) -> Result<Report<'a>, AllocError>
    ensures errors { IfOk result (λ report. report.errors ≡ errors) }
    ensures version { IfOk result (λ report. report.names_no_version ≡ names_no_version) }
{
    if scan.history.failed {
        return Err(AllocError);
    }
    let told = scan.told;
    Ok(Report {
        findings: scan.findings,
        errors,
        names_no_version,
        warnings: scan.warnings,
        told,
    })
}

/// What is found in a file, of which these are the calls, in a version of its language; so many findings are kept at
/// most. As many lines are errors as a run of the calls refuses by S1.
pub fn report_of<'a>(
    version: Version,
    alloc: Global,
    file: &'a [u8],
    calls: &[u8],
    most: usize,
) -> Result<Report<'a>, AllocError>
    ensures errors { IfOk result (λ report. report.errors ≡ refused_in (version_of version) calls.now) }
    ensures version { IfOk result (λ report. report.names_no_version ≡ names_no_version file.now) }
{
    let mut scan = Scan {
        version,
        alloc,
        most,
        rest: file,
        has_answer: false,
        history: History::new(version, alloc),
        findings: Vec::new(alloc),
        warnings: 0,
        told: [0; TOLD_ONCE],
    };
    let wrong = wrong_version(file);
    if let Some(word) = wrong {
        scan.find_version(file, word);
    }
    match scan.take_all(version, calls) {
        Ok(errors) => {
            scan.finish(file);
            ended(scan, errors, wrong.is_some())
        }
        Err(error) => Err(error),
    }
}
