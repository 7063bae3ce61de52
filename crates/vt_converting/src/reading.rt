//! Files are read line by line.
ghost use Rattle.std.specs.Prelude.{◌≡◌, false, IfErr};
ghost use Rattle.vt_run.specs.Status.{comes_before_output};

use crate::telling::tell_unknown;
use std::fs::File;
use std::io;
use std::rt::Files;
use vt_files::refuse_text;
use vt_from::lines::{Reading, Taking, read_lines};
use vt_run::fault::Fault;

// Hands on the lines of a file, or of the standard input where its name is `-`.
fn hand_on_lines<R: Files + Input + AllocGlobal, T: Taking>(
    rt: &R,
    name: &str,
    taker: &mut T,
) -> io::Result<Reading> {
    if name == "-" {
        return read_lines(rt.alloc(), rt.reader(), taker);
    }
    read_lines(rt.alloc(), File::open(rt, name)?, taker)
}

/// How many lines came, and whether the form of all of them is known.
#[derive(Clone, Copy)]
pub struct Lines {
    pub count: u64,
    pub are_known: bool,
}

impl Lines {
    /// Before a line came.
    pub fn new() -> Self {
        Lines {
            count: 0,
            are_known: true,
        }
    }

    /// Hands on the lines of a file, and says on the error output which have no known form.
    pub fn read<R: Files + Input + Eprint + AllocGlobal, T: Taking>(
        &mut self,
        rt: &R,
        name: &str,
        taker: &mut T,
    ) -> Result<(), Fault>
        ensures { IfErr result (λ fault. comes_before_output fault ≡ false) }
    {
        match hand_on_lines(rt, name, taker) {
            Ok(reading) => {
                self.count = self.count.saturating_add(reading.lines);
                self.are_known &= reading.unknown.is_empty();
                tell_unknown(rt, name, reading.unknown.as_slice());
                Ok(())
            }
            Err(cause) => {
                let why = format!(in rt.alloc(); "it cannot be read: {cause}");
                Err(refuse_text(rt, name, why))
            }
        }
    }
}
