//! The texts that tools write of scripts: what `vtree check` says of them, the worlds to which they lead, and what is
//! told of their last lines.

use crate::cases::{Tool, check as check_cases};
use crate::files;
use anyhow::{Result, bail};
use std::fs;
use std::rt::Runtime;
use vt_check::check;
use vt_check::report::MOST_SHOWN;
use vt_explain::Format;
use vt_rule_pages::pages::{RULES, page_of};
use vt_script::Version;
use vt_show::show;
use vt_spec::errors::Rule;

// The folders of the causes of all rules, in either version of the language.
const CAUSES: [&str; 2] = ["tools/causes", "tools/causes-2"];

// How the scripts of a folder are checked.
fn checked(version: Version, format: check::Format, strict: bool) -> Tool {
    Tool::Check(check::Options {
        version,
        format,
        strict,
        most: MOST_SHOWN,
    })
}

// How the worlds of the scripts of a folder are shown.
fn shown(version: Version, format: show::Format, files: bool, task: Option<&'static str>) -> Tool {
    let options = show::Options {
        format,
        files,
        task,
    };
    Tool::Show(version, options)
}

// Compares the texts of a folder's files.
fn check_folder<R: Runtime + AllocGlobal>(rt: &R, folder: &str, tool: Tool) -> Result<()> {
    for file in &files(rt, folder, "")? {
        let count = check_cases(rt, file.as_str(), tool)?;
        println!(rt; "{file}: {count} texts")?;
    }
    Ok(())
}

// An error if no case shows the cause of a rule that answers in this version: its name begins the case's.
fn check_causes<R: Runtime + AllocGlobal>(rt: &R) -> Result<()> {
    let alloc = rt.alloc();
    let mut cases = String::new(alloc);
    for folder in CAUSES {
        cases.push_str(fs::read_to_string(
            rt,
            format!(in alloc; "{folder}/rules")?.as_str(),
        )?.as_str())?;
    }
    for rule in RULES {
        let name = rule.name();
        let title = format!(in alloc; "== {name}: ")?;
        let answers = !page_of(rule).calls.is_empty() && rule != Rule::S5;
        if answers && !cases.as_str().contains(title.as_str()) {
            bail!("{name}: no case shows its cause");
        }
    }
    Ok(())
}

/// Compares the texts of all folders of `tools`, and writes the name of each file.
pub fn check_all<R: Runtime + AllocGlobal>(rt: &R) -> Result<()> {
    let tools = [
        (
            "tools/check",
            checked(Version::One, check::Format::Text, false),
        ),
        (
            "tools/check-2",
            checked(Version::Two, check::Format::Text, false),
        ),
        (
            "tools/json",
            checked(Version::One, check::Format::Json, false),
        ),
        (
            "tools/strict",
            checked(Version::One, check::Format::Text, true),
        ),
        (
            "tools/show",
            shown(Version::One, show::Format::Text, false, None),
        ),
        (
            "tools/show-2",
            shown(Version::Two, show::Format::Text, false, None),
        ),
        (
            "tools/show-files",
            shown(Version::One, show::Format::Text, true, None),
        ),
        (
            "tools/show-json",
            shown(Version::One, show::Format::Json, true, None),
        ),
        (
            "tools/show-dot",
            shown(Version::One, show::Format::Dot, false, None),
        ),
        (
            "tools/show-mermaid",
            shown(Version::One, show::Format::Mermaid, false, None),
        ),
        (
            "tools/show-task",
            shown(Version::One, show::Format::Text, true, Some("t.1")),
        ),
        ("tools/explain", Tool::Explain(Version::One, Format::Text)),
        ("tools/explain-2", Tool::Explain(Version::Two, Format::Text)),
        (
            "tools/explain-json",
            Tool::Explain(Version::One, Format::Json),
        ),
        (CAUSES[0], Tool::Cause(Version::One)),
        (CAUSES[1], Tool::Cause(Version::Two)),
        ("tools/turns", Tool::Turns(Version::One)),
        ("tools/turns-2", Tool::Turns(Version::Two)),
    ];
    for (folder, tool) in tools {
        check_folder(rt, folder, tool)?;
    }
    check_causes(rt)
}
