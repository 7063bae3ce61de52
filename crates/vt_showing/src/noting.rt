//! A line that only the other version of the language has is told, once.
ghost use Rattle.std.specs.Prelude.{◌≡◌, false, IfErr};
ghost use Rattle.vt_run.specs.Status.{comes_before_output};

use std::io::Write;
use vt_check::check::of_second;
use vt_files::{hand_on_text, told};
use vt_run::fault::{Fault, out_of_memory};
use vt_script::Version;

/// A script of a file, in the version in which it is read.
#[derive(Clone, Copy)]
pub struct ScriptRead<'a> {
    /// The name of the file.
    pub name: &'a str,
    pub version: Version,
    pub text: &'a [u8],
    /// How many lines of the file come before it.
    pub before: u64,
}

/// Tells before an answer which line of a script only version 2 has, if version 1 is read: as the answer's first line
/// where people read it, else on the error output.
pub fn note_second<R: Eprint + AllocGlobal, W: Write>(
    rt: &R,
    script: ScriptRead<'_>,
    is_for_people: bool,
    output: &mut W,
) -> Result<(), Fault>
    ensures { IfErr result (λ fault. comes_before_output fault ≡ false) }
{
    let alloc = rt.alloc();
    match of_second(script.version, alloc, script.text, script.before) {
        Ok(None) => Ok(()),
        Ok(Some(line)) if is_for_people => {
            hand_on_text(format!(in alloc; "note: {line}\n\n"), output)
        }
        Ok(Some(line)) => {
            let name = told(script.name);
            let _ = eprintln!(rt; "vtree: {name}: {line}");
            Ok(())
        }
        Err(error) => Err(out_of_memory(error)),
    }
}
