//! The configuration of a bundle becomes a script.
ghost use Rattle.std.specs.Prelude.{◌≡◌, false, IfErr};
ghost use Rattle.vt_run.specs.Status.{comes_before_output};

use crate::conversion::{Conversion, hand_on_written};
use std::io::Write;
use std::rt::Files;
use vt_bundles::{BundleFault, script_of};
use vt_files::{readable, refuse, refuse_text};
use vt_from::script::Written;
use vt_run::fault::Fault;
use vt_script::RunFault;

// The script of a configuration, or why there is none.
fn written_of<R: Eprint + AllocGlobal>(rt: &R, name: &str, text: &str) -> Result<Written, Fault>
    ensures { IfErr result (λ fault. comes_before_output fault ≡ false) }
{
    let alloc = rt.alloc();
    match script_of(alloc, text) {
        Ok(written) => Ok(written),
        Err(BundleFault::Memory) => Err(Fault::Run(RunFault::Memory)),
        Err(BundleFault::Form(why)) => {
            Err(refuse_text(rt, name, format!(in alloc; "no configuration: {why}")))
        }
    }
}

// Writes the script of the content of a file, and reports what is not modelled.
fn convert_content<R: Files + Eprint + AllocGlobal, W: Write>(
    rt: &R,
    asked: Conversion<'_, '_>,
    content: &[u8],
    output: &mut W,
) -> Result<(), Fault>
    ensures { IfErr result (λ fault. comes_before_output fault ≡ false) }
{
    let Ok(text) = str::from_utf8(content) else {
        return Err(refuse(rt, asked.file, "it is not UTF-8, and so no JSON"));
    };
    let lines = text.lines().count() as u64;
    match written_of(rt, asked.file, text) {
        Ok(written) => hand_on_written(rt, asked, lines, &written, output),
        Err(fault) => Err(fault),
    }
}

/// Turns the configuration of a bundle into a script.
pub fn convert<R: Files + Input + Eprint + AllocGlobal, W: Write>(
    rt: &R,
    asked: Conversion<'_, '_>,
    output: &mut W,
) -> Result<(), Fault>
    ensures { IfErr result (λ fault. comes_before_output fault ≡ false) }
{
    let Some(content) = readable(rt, asked.file) else {
        return Err(Fault::Found);
    };
    let outcome = convert_content(rt, asked, content.as_slice(), output);
    drop(content);
    outcome
}
