//! The version of the language in which a command reads a file.
use crate::reading::told;
use vt_script::Version;
use vt_wanted::header::{version_of_file, wrong_version};

/// The version of a file's language: the one that an option gives, else the one that its first line names, else 1.
/// `None`: no option gives one, and that line names one that does not exist; the error output says so.
pub fn spoken<R: Eprint>(
    rt: &R,
    name: &str,
    asked: Option<Version>,
    content: &[u8],
) -> Option<Version> {
    if asked.is_none()
        && let Some(word) = wrong_version(content)
    {
        let (name, word) = (told(name), word.shown());
        let _ = eprintln!(rt;
            "vtree: {name}: line 1 names version `{word}` of the language; write 1 or 2 there, or give `--script`"
        );
        return None;
    }
    Some(version_of_file(asked, content))
}
