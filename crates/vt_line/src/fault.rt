//! How a run of a script fails.
use thiserror::Error;

/// Why a run of a script ended before the script did.
#[derive(Clone, Copy, Debug, PartialEq, Eq, Error)]
pub enum RunFault {
    #[error("the script could not be read to its end; the complete lines before that were answered")]
    Read,
    #[error("the answers could not be written; what came out is a beginning of them")]
    Write,
    #[error("an allocation failed before the script was read")]
    Memory,
}
