//! Runs the scripts of `data/`, and compares their answers with those that stand beside their lines.
//!
//! It runs in that folder, writes the name of each file whose answers are right, and ends with
//! status 1 at the first other answer. Of the files of `tests`, which have other answers, what is written of them is
//! compared; and of those of `tools`, what `vt_check`, `vt_show` and `vt_explain` write.
//!
//! The scripts of `suites` and `examples`, and those by which rules are shown, are run in both versions of the language,
//! and have the same answers in both. Those of `version-1` and `version-2`, and of `examples/version-2`, are run in that
//! version alone.
#![tactic(auto)]

mod cases;
mod suites;
mod texts;
mod tools;

use anyhow::Result;
use std::fs;
use std::rt::Runtime;
use vt_script::Version;

const BOTH: [Version; 2] = [Version::One, Version::Two];

// The files of a folder whose names end in this, in order.
fn files<R: Runtime + AllocGlobal>(rt: &R, folder: &str, end: &str) -> Result<Vec<String>> {
    let alloc = rt.alloc();
    let mut files = Vec::new(alloc);
    for entry in fs::read_dir(rt, folder)? {
        let entry = entry?;
        let name = entry.file_name();
        if name.ends_with(end) {
            files.push(format!(in alloc; "{folder}/{name}")?)?;
        }
    }
    files.sort()?;
    Ok(files)
}

// Runs the scripts of a folder's files whose names end in this, in each of these versions.
fn check_suites<R: Runtime + AllocGlobal>(
    rt: &R,
    folder: &str,
    end: &str,
    versions: &[Version],
) -> Result<()> {
    for file in &files(rt, folder, end)? {
        let mut scripts = 0;
        for version in versions {
            scripts = suites::check(rt, *version, file.as_str())?;
        }
        println!(rt; "{file}: {scripts} scripts")?;
    }
    Ok(())
}

fn main(rt: HostRuntime) -> Result<()> {
    check_suites(&rt, "examples", ".vt", BOTH.as_slice())?;
    check_suites(&rt, "examples/version-2", ".vt", &[Version::Two])?;
    check_suites(&rt, "suites", "", BOTH.as_slice())?;
    check_suites(&rt, "version-1", "", &[Version::One])?;
    check_suites(&rt, "version-2", "", &[Version::Two])?;
    suites::check_rules(&rt, Version::Two)?;
    println!(rt;
        "rules: {} scripts",
        suites::check_rules(&rt, Version::One)?
    )?;
    for file in &files(&rt, "tests", ".vt")? {
        texts::check(&rt, file.as_str())?;
        println!(rt; "{file}")?;
    }
    tools::check_all(&rt)
}
