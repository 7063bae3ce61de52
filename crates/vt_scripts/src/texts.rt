//! What is written of files whose scripts have other answers, and the files with the given answers.
use anyhow::{Result, bail};
use std::fs;
use std::rt::Files;
use vt_calls::Kernel;
use vt_script::Version;
use vt_test::test::{Format, Untested, test_file};
use vt_test::with_given_answers;

// The forms in which outcomes are written, by the ends of the files' names that hold them.
const FORMS: [(&str, Format); 3] = [
    ("txt", Format::Text),
    ("json", Format::Json),
    ("xml", Format::Junit),
];

// An error if another text is written than that of the file of this name.
fn compare<R: Files + Print + AllocGlobal>(rt: &R, name: &str, given: &[u8]) -> Result<()> {
    let wanted = fs::read(rt, name)?;
    if wanted.as_slice() != given {
        let given = str::from_utf8(given).unwrap_or_default();
        print!(rt; "{given}")?;
        bail!("{name}: another text");
    }
    Ok(())
}

/// An error if another text is written of the scripts of a file than those beside it, or other answers are put into it.
pub fn check<R: Files + Print + AllocGlobal>(rt: &R, file: &str) -> Result<()> {
    let alloc = rt.alloc();
    let content = fs::read(rt, file)?;
    let content = content.as_slice();
    let name = file.trim_end_matches(".vt");
    for (end, format) in FORMS {
        let mut given = Vec::new(alloc);
        let untested = Untested {
            version: Version::One,
            name: file,
            content,
        };
        test_file::<Kernel, _>(alloc, untested, format, &mut given)?;
        let beside = format!(in alloc; "{name}.{end}")?;
        compare(rt, beside.as_str(), given.as_slice())?;
    }
    if let Ok(new) = with_given_answers::<Kernel>(Version::One, alloc, content) {
        let beside = format!(in alloc; "{name}.new")?;
        compare(rt, beside.as_str(), new.text.as_slice())?;
    }
    Ok(())
}
