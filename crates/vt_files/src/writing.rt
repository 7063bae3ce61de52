//! Texts are handed on to the output, and written into files.
ghost use Rattle.std.specs.Prelude.{◌≡◌, false, true, IfErr};
ghost use Rattle.vt_run.specs.Status.{comes_before_output, is_of_run};

use std::alloc::AllocError;
use std::fs::{self, File};
use std::io::{self, Write};
use std::rt::Files;
use vt_run::fault::{Fault, out_of_memory};

/// Hands a text on to the output.
pub fn hand_on<W: Write>(output: &mut W, text: &[u8]) -> Result<(), Fault>
    ensures output { IfErr result (λ fault. comes_before_output fault ≡ false) }
    ensures run { IfErr result (λ fault. is_of_run fault ≡ true) }
{
    match output.write_all(text) {
        Ok(()) => Ok(()),
        Err(cause) => Err(Fault::Write { cause }),
    }
}

/// Hands a text on to the output, if there was memory for it.
pub fn hand_on_text<W: Write>(text: Result<String, AllocError>, output: &mut W) -> Result<(), Fault>
    ensures { IfErr result (λ fault. comes_before_output fault ≡ false) }
{
    match text {
        Ok(text) => hand_on(output, text.as_bytes()),
        Err(error) => Err(out_of_memory(error)),
    }
}

/// Writes a text as a file of this name, in the place of what stands there.
pub fn put<R: Files>(rt: &R, name: &str, text: &[u8]) -> io::Result<()> {
    File::create(rt, name)?.write_all(text)
}

/// Writes a new file beside one, with its permissions, and puts it into its place.
pub fn replace<R: Files + AllocGlobal>(rt: &R, name: &str, text: &[u8]) -> io::Result<()> {
    let whole = fs::canonicalize(rt, name)?;
    let whole = whole.as_str();
    let beside = format!(in rt.alloc(); "{whole}.vtree-new")?;
    let beside = beside.as_str();
    let mut file = File::create_new(rt, beside)?;
    let written = fill(rt, &mut file, whole, beside, text);
    if written.is_err() {
        let _ = fs::remove_file(rt, beside);
    }
    written
}

// Writes the text into a new file, and puts it into the place of the old one.
fn fill<R: Files + AllocGlobal>(
    rt: &R,
    file: &mut R::File,
    name: &str,
    beside: &str,
    text: &[u8],
) -> io::Result<()> {
    file.write_all(text)?;
    let permissions = fs::metadata(rt, name)?.permissions();
    fs::set_permissions(rt, beside, permissions)?;
    fs::rename(rt, beside, name)
}
