//! The command that writes an example of the cookbook.
ghost use Rattle.std.specs.Prelude.{◌≡◌, false, true, IfErr};
ghost use Rattle.vt_run.specs.Status.{comes_before_output};

use std::alloc::{AllocError, Global};
use std::fs::File;
use std::io::{self, Write};
use std::rt::Files;
use vt_cookbook::examples::{LIST, meant, options_of, script_of};
use vt_files::hand_on_text;
use vt_run::fault::{Fault, out_of_memory};

// That a word is the name of no example, and which is like it.
fn unknown_told(alloc: Global, name: &str) -> Result<String, AllocError> {
    match meant(name) {
        Some(other) => {
            format!(in alloc; "no example `{name}`; `vtree new {other}` may be meant")
        }
        None => format!(in alloc; "no example `{name}`; `vtree new` lists them"),
    }
}

// The fault of a word that is the name of no example.
fn unknown(alloc: Global, name: &str) -> Fault {
    match unknown_told(alloc, name) {
        Ok(text) => Fault::Words(text),
        Err(error) => out_of_memory(error),
    }
}

// Writes a file that is not there yet.
fn write_file<R: Files>(rt: &R, name: &str, text: &str) -> io::Result<()> {
    File::create_new(rt, name)?.write_all(text.as_bytes())
}

// Writes an example as this file, and says so.
fn write_example<R: Files + Eprint + AllocGlobal, W: Write>(
    rt: &R,
    name: &str,
    file: &str,
    script: &str,
    output: &mut W,
) -> Result<(), Fault>
    ensures { IfErr result (λ fault. comes_before_output fault ≡ false) }
{
    if let Err(cause) = write_file(rt, file, script) {
        let _ = eprintln!(rt;
            "vtree: cannot write {file}: {cause}; give it a place where no such file is"
        );
        return Err(Fault::Found);
    }
    let options = options_of(name);
    hand_on_text(
        format!(in rt.alloc(); "{file} is written; `vtree test {options}{file}` runs it\n"),
        output,
    )
}

// Writes the example of this name as the file `NAME.vt`.
fn write_named<R: Files + Eprint + AllocGlobal, W: Write>(
    rt: &R,
    name: &str,
    output: &mut W,
) -> Result<(), Fault>
    ensures { IfErr result (λ fault. comes_before_output fault ≡ true → output.new ≡ output.old) }
{
    let alloc = rt.alloc();
    let name = name.strip_suffix(".vt").unwrap_or(name);
    let Some(script) = script_of(name) else {
        return Err(unknown(alloc, name));
    };
    match format!(in alloc; "{name}.vt") {
        Ok(file) => write_example(rt, name, file.as_str(), script, output),
        Err(error) => Err(out_of_memory(error)),
    }
}

/// Writes the example of this name as the file `NAME.vt`, or lists the examples.
pub fn write<R: Files + Eprint + AllocGlobal, W: Write>(
    rt: &R,
    name: Option<&str>,
    output: &mut W,
) -> Result<(), Fault>
    ensures { IfErr result (λ fault. comes_before_output fault ≡ true → output.new ≡ output.old) }
{
    match name {
        Some(name) => write_named(rt, name, output),
        None => hand_on_text(String::from_str(rt.alloc(), LIST), output),
    }
}
