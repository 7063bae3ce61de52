//! Tables of mounts become a script, and its answers are compared with them.
ghost use Rattle.std.specs.Prelude.{◌≡◌, false, IfErr};
ghost use Rattle.vt_run.specs.Status.{comes_before_output};

use crate::conversion::{Conversion, hand_on_script};
use crate::reading::Lines;
use crate::telling::tell_counts;
use std::alloc::{AllocError, Global};
use std::io::Write;
use std::rt::Files;
use vt_files::{hand_on, told};
use vt_lines::answers::answers;
use vt_run::fault::{Fault, out_of_memory};
use vt_script::{Calls, RunFault, Version};
use vt_tables::{Compared, Converted, Tables, differences, script_of};

// In how large pieces a script is read.
const PIECE: usize = 8192;

// Reads the table of a task.
fn read_table<R: Files + Input + Eprint + AllocGlobal>(
    rt: &R,
    task: &str,
    file: &str,
    lines: &mut Lines,
    tables: &mut Tables,
) -> Result<(), Fault>
    ensures { IfErr result (λ fault. comes_before_output fault ≡ false) }
{
    match tables.begin(task) {
        Ok(()) => lines.read(rt, file, tables),
        Err(error) => Err(out_of_memory(error)),
    }
}

// Reads the tables of all tasks.
fn read_tables<R: Files + Input + Eprint + AllocGlobal>(
    rt: &R,
    asked: Conversion<'_, '_>,
    tables: &mut Tables,
) -> Result<Lines, Fault>
    ensures { IfErr result (λ fault. comes_before_output fault ≡ false) }
{
    let mut lines = Lines::new();
    read_table(rt, told(asked.file), asked.file, &mut lines, tables)?;
    for word in asked.tasks {
        let (task, file) = word.split_once('=').unwrap_or((*word, *word));
        read_table(rt, task, file, &mut lines, tables)?;
    }
    Ok(lines)
}

// What differs between the tables and what a run of their script answers.
fn compared<C: Calls>(alloc: Global, converted: &Converted) -> Result<Compared, AllocError> {
    let script = converted.written.text.as_bytes();
    let given = answers::<C>(Version::Two, alloc, script, PIECE)?;
    differences(
        alloc,
        converted,
        str::from_utf8(given.bytes()).unwrap_or_default(),
    )
}

// Runs the script, hands on what differs from the tables, and returns whether something does.
fn check<C: Calls, W: Write>(
    alloc: Global,
    converted: &Converted,
    output: &mut W,
) -> Result<bool, Fault>
    ensures { IfErr result (λ fault. comes_before_output fault ≡ false) }
{
    match compared::<C>(alloc, converted) {
        Ok(compared) => match hand_on(output, compared.text.as_bytes()) {
            Ok(()) => Ok(compared.differs),
            Err(fault) => Err(fault),
        },
        Err(error) => Err(out_of_memory(error)),
    }
}

// Writes the script, or how its answers differ, and reports what is not modelled.
fn finish<C: Calls, R: Files + Eprint + AllocGlobal, W: Write>(
    rt: &R,
    asked: Conversion<'_, '_>,
    lines: Lines,
    converted: &Converted,
    output: &mut W,
) -> Result<(), Fault>
    ensures { IfErr result (λ fault. comes_before_output fault ≡ false) }
{
    let (alloc, written, checks) = (rt.alloc(), &converted.written, asked.checks());
    if !checks || asked.script.is_some() {
        hand_on_script(rt, asked, written.text.as_str(), output)?;
    }
    let differs = checks && check::<C, _>(alloc, converted, output)?;
    if tell_counts(
        rt,
        alloc,
        asked.file,
        lines.count,
        written.counts.as_slice(),
    )
    .is_err()
    {
        return Err(Fault::Run(RunFault::Memory));
    }
    if differs || !lines.are_known {
        return Err(Fault::Found);
    }
    Ok(())
}

/// Turns tables of mounts into a script, which may be run, and its answers compared with them.
pub fn convert<C: Calls, R: Files + Input + Eprint + AllocGlobal, W: Write>(
    rt: &R,
    asked: Conversion<'_, '_>,
    output: &mut W,
) -> Result<(), Fault>
    ensures { IfErr result (λ fault. comes_before_output fault ≡ false) }
{
    let mut tables = Tables::new(rt.alloc());
    let read = read_tables(rt, asked, &mut tables);
    match (read, script_of(tables)) {
        (Ok(lines), Ok(converted)) => { finish::<C, _, _>(rt, asked, lines, &converted, output) }
        (Err(fault), _) => Err(fault),
        (Ok(_), Err(error)) => Err(out_of_memory(error)),
    }
}
