//! A trace of calls becomes a script.
ghost use Rattle.std.specs.Prelude.{◌≡◌, false, IfErr};
ghost use Rattle.vt_run.specs.Status.{comes_before_output};

use crate::conversion::{Conversion, hand_on_written};
use crate::reading::Lines;
use std::io::Write;
use std::rt::Files;
use vt_from::script::Written;
use vt_run::fault::{Fault, out_of_memory};
use vt_traces::{Trace, script_of};

// Writes a script, and reports what is not modelled.
fn finish<R: Files + Eprint + AllocGlobal, W: Write>(
    rt: &R,
    asked: Conversion<'_, '_>,
    lines: Lines,
    written: &Written,
    output: &mut W,
) -> Result<(), Fault>
    ensures { IfErr result (λ fault. comes_before_output fault ≡ false) }
{
    hand_on_written(rt, asked, lines.count, written, output)?;
    if lines.are_known {
        Ok(())
    } else {
        Err(Fault::Found)
    }
}

/// Turns a trace into a script, which makes first what the calls find, if that is asked for.
pub fn convert<R: Files + Input + Eprint + AllocGlobal, W: Write>(
    rt: &R,
    asked: Conversion<'_, '_>,
    files: bool,
    output: &mut W,
) -> Result<(), Fault>
    ensures { IfErr result (λ fault. comes_before_output fault ≡ false) }
{
    let mut trace = Trace::new(rt.alloc());
    let mut lines = Lines::new();
    let read = lines.read(rt, asked.file, &mut trace);
    match (read, script_of(trace, files)) {
        (Ok(()), Ok(written)) => finish(rt, asked, lines, &written, output),
        (Err(fault), _) => Err(fault),
        (Ok(()), Err(error)) => Err(out_of_memory(error)),
    }
}
