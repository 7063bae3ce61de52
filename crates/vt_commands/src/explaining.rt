//! How a line is explained. What does it stands above the other commands, so that it can be proved beside them.
ghost use Rattle.std.specs.Prelude.{◌≡◌, false, IfErr};
ghost use Rattle.vt_run.specs.Status.{comes_before_output};

use std::io::Write;
use std::rt::Files;
use vt_check::check::Format;
use vt_run::fault::Fault;
use vt_script::Version;

/// The line that is explained, and how.
#[derive(Clone, Copy)]
pub struct LineAsked {
    /// Of the script's language, unless its first line says so.
    pub version: Option<Version>,
    /// Its number in the file, from 1.
    pub line: u64,
    pub format: Format,
}

/// Who explains lines.
pub trait Explainer {
    /// Explains a line of a file, which may hold several scripts.
    fn explain<R: Files + Input + Eprint + AllocGlobal, W: Write>(
        rt: &R,
        name: &str,
        asked: LineAsked,
        output: &mut W,
    ) -> Result<(), Fault>
        ensures { IfErr result (λ fault. comes_before_output fault ≡ false) };
}
