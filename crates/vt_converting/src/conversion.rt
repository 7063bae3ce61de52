//! What is converted, and what becomes of the script.
ghost use Rattle.std.specs.Prelude.{◌≡◌, false, IfErr};
ghost use Rattle.vt_run.specs.Status.{comes_before_output};

use crate::telling::tell_counts;
use crate::{bundles, tables, traces};
use std::io::Write;
use std::rt::Files;
use vt_files::{hand_on, put, refuse_text};
use vt_from::script::Written;
use vt_run::fault::Fault;
use vt_script::{Calls, RunFault};

/// What a file holds.
#[derive(Clone, Copy)]
pub enum Kind {
    /// A table of mounts: proc_pid_mountinfo(5). The script may be run, and its answers compared with the tables.
    Mountinfo { checks: bool },
    /// The `config.json` of a bundle of the OCI runtime specification.
    Oci,
    /// What `strace -f` writes. What the calls find may be made first.
    Strace { files: bool },
}

/// What is converted, and what becomes of the script.
#[derive(Clone, Copy)]
pub struct Conversion<'a, 'm> {
    pub kind: Kind,
    pub file: &'a str,
    /// The tables of further tasks, each as `NAME=FILE`.
    pub tasks: &'m [&'a str],
    /// The file that becomes the script, in place of the output.
    pub script: Option<&'a str>,
}

impl Conversion<'_, '_> {
    /// Whether the script is run, and its answers compared with the tables.
    pub fn checks(self) -> bool {
        matches!(self.kind, Kind::Mountinfo { checks: true })
    }
}

/// Writes a script to its file, or else to the output.
pub fn hand_on_script<R: Files + Eprint + AllocGlobal, W: Write>(
    rt: &R,
    asked: Conversion<'_, '_>,
    script: &str,
    output: &mut W,
) -> Result<(), Fault>
    ensures { IfErr result (λ fault. comes_before_output fault ≡ false) }
{
    let Some(name) = asked.script else {
        return hand_on(output, script.as_bytes());
    };
    match put(rt, name, script.as_bytes()) {
        Ok(()) => Ok(()),
        Err(cause) => {
            let why = format!(in rt.alloc(); "the script cannot be written: {cause}");
            Err(refuse_text(rt, name, why))
        }
    }
}

/// Writes a script to its file, or else to the output, and reports what of so many lines is not modelled.
pub fn hand_on_written<R: Files + Eprint + AllocGlobal, W: Write>(
    rt: &R,
    asked: Conversion<'_, '_>,
    lines: u64,
    written: &Written,
    output: &mut W,
) -> Result<(), Fault>
    ensures { IfErr result (λ fault. comes_before_output fault ≡ false) }
{
    hand_on_script(rt, asked, written.text.as_str(), output)?;
    match tell_counts(rt, rt.alloc(), asked.file, lines, written.counts.as_slice()) {
        Ok(()) => Ok(()),
        Err(_) => Err(Fault::Run(RunFault::Memory)),
    }
}

/// Turns what a file holds into a script. What of it is not modelled is reported on the error output.
///
/// `Found`: it cannot be read, or a line of it has no known form, or the answers of the script are not those of the
/// tables.
pub fn convert<C: Calls, R: Files + Input + Eprint + AllocGlobal, W: Write>(
    rt: &R,
    asked: Conversion<'_, '_>,
    output: &mut W,
) -> Result<(), Fault>
    ensures { IfErr result (λ fault. comes_before_output fault ≡ false) }
{
    match asked.kind {
        Kind::Mountinfo { .. } => tables::convert::<C, _, _>(rt, asked, output),
        Kind::Oci => bundles::convert(rt, asked, output),
        Kind::Strace { files } => traces::convert(rt, asked, files, output),
    }
}
