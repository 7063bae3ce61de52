//! The version of the language that the first line of a file names, as in `#!/usr/bin/env -S vtree test --script 2`.
ghost use Rattle.std.specs.Prelude.{◌≡◌, is_some, option_map};
ghost use Rattle.vt_line.specs.Versions.{version_of};
ghost use Rattle.vt_wanted.specs.Headers.{named_by, names_no_version, version_in, version_named, version_word, words_of};

use vt_line::version::Version;
use vt_lines::lines::first_line;

// How a line begins that names a program, and the option that names a version, also with the version behind it.
const PROGRAM: &[u8] = b"#!";

const OPTION: &[u8] = b"--script";

const OPTION_WITH: &[u8] = b"--script=";

/// A word that stands where a version is named.
#[derive(Clone, Copy)]
pub struct VersionWord<'a> {
    /// From which column on it stands, counted from 0.
    pub column: usize,
    pub text: &'a [u8],
}

impl<'a> VersionWord<'a> {
    /// The version, if there is one of this name.
    pub fn version(self) -> Option<Version>
        ensures { option_map version_of result ≡ version_named self.entry.text.now }
    {
        if self.text == b"1".as_slice() {
            Some(Version::One)
        } else if self.text == b"2".as_slice() {
            Some(Version::Two)
        } else {
            None
        }
    }

    /// The word as it is shown.
    pub fn shown(self) -> &'a str {
        str::from_utf8(self.text).unwrap_or("..")
    }
}

// The word by which a line names a version.
fn word_in(line: &[u8]) -> Option<VersionWord<'_>>
    ensures { option_map (λ word. word.text.now) result ≡ named_by (words_of line.now) }
{
    let mut column: usize = 0;
    let mut is_next = false;
    for text in line.split(|byte| *byte == b' ') {
        if is_next && !text.is_empty() {
            return Some(VersionWord { column, text });
        }
        if let Some(text) = text.strip_prefix(OPTION_WITH) {
            let column = column.saturating_add(OPTION_WITH.len());
            return Some(VersionWord { column, text });
        }
        is_next |= text == OPTION;
        column = column.saturating_add(text.len()).saturating_add(1);
    }
    None
}

/// The word by which the first line of a file names a version, if it names a program and has one.
pub fn version_word(file: &[u8]) -> Option<VersionWord<'_>>
    ensures { option_map (λ word. word.text.now) result ≡ version_word file.now }
{
    let (line, _) = first_line(file)?;
    if line.starts_with(PROGRAM) {
        word_in(line)
    } else {
        None
    }
}

/// The word by which the first line of a file names a version that does not exist, if it does.
pub fn wrong_version(file: &[u8]) -> Option<VersionWord<'_>>
    ensures { is_some result ≡ names_no_version file.now }
{
    match version_word(file) {
        Some(word) if word.version().is_none() => Some(word),
        _ => None,
    }
}

/// The version in which a file is read: the one that an option gives, else the one that its first line names, else the
/// first.
pub fn version_of_file(option: Option<Version>, file: &[u8]) -> Version
    ensures { version_of result ≡ version_in (option_map version_of option) file.now }
{
    if let Some(version) = option {
        return version;
    }
    match version_word(file) {
        Some(word) => word.version().unwrap_or(Version::One),
        None => Version::One,
    }
}
