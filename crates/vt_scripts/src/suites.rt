//! The scripts of a file, run in pieces of several sizes.
use anyhow::{Result, bail};
use std::fs;
use std::rt::Files;
use vt_calls::Kernel;
use vt_lines::answers::answers;
use vt_rule_pages::told::suite;
use vt_script::Version;
use vt_test::compare::{differences, given_lines};
use vt_test::suite::{Script, scripts};
use vt_test::text::failure;

// The sizes of the pieces in which a script is read and its answers are written.
const PIECES: [usize; 5] = [1, 2, 3, 7, 8192];

// Runs a script in pieces of this size, and fails with what is to be said of its first other answers.
fn check_pieces<R: Print + AllocGlobal>(
    rt: &R,
    file: &str,
    script: &Script<'_>,
    text: &[u8],
    piece: usize,
) -> Result<()> {
    let alloc = rt.alloc();
    let written = answers::<Kernel>(script.version, alloc, text, piece)?;
    let given = given_lines(alloc, written.bytes())?;
    let found = differences(alloc, script.wanted.as_slice(), given.as_slice())?;
    if !found.is_empty() {
        let told = failure(alloc, file, script, found.as_slice())?;
        print!(rt; "{told}")?;
        bail!("{file}: other answers, in pieces of {piece} bytes");
    }
    Ok(())
}

// Runs a text of a script in pieces of each size.
fn check_text<R: Print + AllocGlobal>(
    rt: &R,
    file: &str,
    script: &Script<'_>,
    text: &[u8],
) -> Result<()> {
    for piece in PIECES {
        check_pieces(rt, file, script, text, piece)?;
    }
    Ok(())
}

// How many scripts there are in a file's content, or an error if one of them has another answer.
fn check_content<R: Print + AllocGlobal>(
    rt: &R,
    version: Version,
    file: &str,
    content: &[u8],
) -> Result<usize> {
    let all = scripts(version, rt.alloc(), content)?;
    for script in &all {
        let whole = script.text.as_slice();
        check_text(rt, file, script, whole)?;
        check_text(rt, file, script, whole.strip_suffix(b"\n").unwrap_or(whole))?;
    }
    Ok(all.len())
}

/// How many scripts the file has, or an error if one of them has another answer in a version of the language. Each is run
/// with the newline of its last line and without it.
pub fn check<R: Files + Print + AllocGlobal>(
    rt: &R,
    version: Version,
    file: &str,
) -> Result<usize> {
    let content = fs::read(rt, file)?;
    check_content(rt, version, file, content.as_slice())
}

/// The same of the scripts by which rules are shown.
pub fn check_rules<R: Print + AllocGlobal>(rt: &R, version: Version) -> Result<usize> {
    let content = suite(rt.alloc())?;
    check_content(rt, version, "rules", content.as_bytes())
}
