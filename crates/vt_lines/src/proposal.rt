//! Lines that are proposed.
ghost use Rattle.std.specs.Prelude.{◌≡◌, false, string_bytes};
ghost use Rattle.vt_line.specs.Versions.{version_of};
ghost use Rattle.vt_lines.specs.Refused.{is_refused};

use crate::reading::is_taken;
use std::alloc::{AllocError, Global};
use vt_line::version::Version;

/// A line that is proposed. A run takes it, in this version of the language.
#[derive(Drop)]
pub struct Proposal {
    version: Version,
    line: String,
    ghost taken: { is_refused (version_of version) (string_bytes line) ≡ false },
}

impl Proposal {
    /// The line, if a run takes it.
    pub fn new(version: Version, alloc: Global, line: String) -> Result<Option<Self>, AllocError> {
        if is_taken(version, alloc, line.as_bytes())? {
            Ok(Some(Proposal { version, line }))
        } else {
            Ok(None)
        }
    }

    /// The line, which a run takes.
    pub fn as_str(&self) -> &str
        ensures { is_refused (version_of self.now.version) result.now ≡ false }
    {
        self.line.as_str()
    }
}
