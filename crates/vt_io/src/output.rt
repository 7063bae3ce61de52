//! Where answers go.
ghost use Rattle.std.specs.Prelude.{◌≡◌, ℕ, ◌+◌, ◌^◌, ◌<◌, ◌≤◌, List, ◌++◌, length, take, IfOk, OnOk, OnErr};

use std::error::Error;
use std::fmt;

/// A write to a sink failed.
#[derive(Clone, Copy, Debug, PartialEq, Eq)]
pub struct SinkFailed;

impl fmt::Display for SinkFailed {
    ghost use Rattle.std.specs.Prelude.{Some, codes};

    ghost output = { λ _. Some (codes "the answers could not be written") };

    fn fmt<W: fmt::Write>(&self, f: &mut fmt::Formatter<W>) -> fmt::Result {
        f.write_str("the answers could not be written")
    }
}

impl Error for SinkFailed {}

/// What takes bytes in pieces.
pub trait Sink {
    // It tells which bytes it holds, as a file or a pipe does not.
    ghost tells: { Self → Type 0 };

    // All the bytes that it holds, where it tells them.
    ghost written: { Self → List ℕ };

    // How often a write to it failed.
    ghost failures: { Self → ℕ };

    /// Appends a front of the bytes and answers with how many.
    fn write(&mut self, bytes: &[u8]) -> Result<usize, SinkFailed>
        requires some { 0 < length bytes.now }
        requires countable { failures self.old + 1 < 2 ^ 64 }

        ensures count { IfOk result (λ n. n ≤ length bytes.now) }
        ensures progress { IfOk result (λ n. 0 < n) }
        ensures failures_kept { OnOk result (failures self.new ≡ failures self.old) }
        ensures failure_counted { OnErr result (failures self.new ≡ failures self.old + 1) }

        // Where it tells its bytes.
        ensures still_tells { tells self.old → tells self.new }
        ensures bytes { tells self.old → IfOk result (λ n. written self.new ≡ written self.old ++ take n bytes.now) }
        ensures none_kept { tells self.old → OnErr result (written self.new ≡ written self.old) };
}
