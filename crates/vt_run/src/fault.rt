//! Why the program stops before all was answered, and its exit status.
ghost use Rattle.std.specs.Prelude.{◌≡◌};
ghost use Rattle.vt_run.specs.Status.{status_of};

use std::io;
use thiserror::Error;
use vt_script::RunFault;

/// Why the program stopped. Each text names what failed, the cause, and what to do.
#[derive(Debug, Drop, Error)]
pub enum Fault {
    /// The words are not those of a command.
    #[error("{0}; `vtree --help` says what it takes")]
    Words(String),
    /// The words ask for help or for the version: that text.
    #[error("{0}")]
    Help(String),
    /// A file cannot be opened.
    #[error("cannot open {name}: {cause}; check its name, and that you may read it")]
    Open { name: String, cause: io::Error },
    /// The script cannot be read to its end.
    #[error("cannot read {name}: {cause}; the lines before that were answered; give a file that holds a script")]
    Read { name: String, cause: io::Error },
    /// The answers cannot be written.
    #[error("cannot write the answers: {cause}; what came out is a beginning of them; check where the output goes")]
    Write { cause: io::Error },
    /// Something was found, as was said already.
    #[error("something was found")]
    Found,
    /// The run stopped, and there is no error of the system to tell why.
    #[error("{0}")]
    Run(RunFault),
}

/// The exit status: 0 where all was read and answered, denials included, 2 where the words are
/// refused or ask for help, and else 1.
pub fn status(outcome: &Result<(), Fault>) -> u8
    ensures { result ≡ status_of outcome.now }
{
    match outcome {
        Ok(()) => 0,
        Err(Fault::Words(_) | Fault::Help(_)) => 2,
        Err(Fault::Open { .. } | Fault::Read { .. } | Fault::Write { .. }) => 1,
        Err(Fault::Found | Fault::Run(_)) => 1,
    }
}

/// Whatever failed, it was for want of memory.
pub fn out_of_memory<E: Drop>(_error: E) -> Fault
    ensures { result ≡ Fault.Run RunFault.Memory }
{
    Fault::Run(RunFault::Memory)
}
