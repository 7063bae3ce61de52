//! Where a script comes from.
ghost use Rattle.std.specs.Prelude.{◌≡◌, ℕ, ◌+◌, ◌^◌, ◌<◌, ◌≤◌, List, [], ◌++◌, length, take, IfOk, OnOk, OnErr};

use std::error::Error;
use std::fmt;

/// A read of a source failed.
#[derive(Clone, Copy, Debug, PartialEq, Eq)]
pub struct SourceFailed;

impl fmt::Display for SourceFailed {
    ghost use Rattle.std.specs.Prelude.{Some, codes};

    ghost output = { λ _. Some (codes "the script could not be read") };

    fn fmt<W: fmt::Write>(&self, f: &mut fmt::Formatter<W>) -> fmt::Result {
        f.write_str("the script could not be read")
    }
}

impl Error for SourceFailed {}

/// What gives bytes in pieces, fewer than 2^64 of them in all.
pub trait Source {
    // It tells which bytes come, as a file or a pipe does not.
    ghost tells: { Self → Type 0 };

    // The bytes that are still to come, where it tells them.
    ghost rest: { Self → List ℕ };

    // The most bytes that may still come.
    ghost limit: { Self → ℕ };

    // How often a read of it failed.
    ghost failures: { Self → ℕ };

    // How many bytes the last read gave that did not fail; none before the first.
    ghost given: { Self → ℕ };

    /// Fills the front of the buffer and answers with how many bytes, where 0 is the end.
    ///
    /// A failed read may have written anything into the buffer.
    fn read(&mut self, buffer: &mut [u8]) -> Result<usize, SourceFailed>
        requires room { 0 < length buffer.old }
        requires countable { failures self.old + 1 < 2 ^ 64 }

        ensures count { IfOk result (λ n. n ≤ length buffer.new) }
        ensures fewer_to_come { IfOk result (λ n. n + limit self.new ≤ limit self.old) }
        ensures no_more_to_come { limit self.new ≤ limit self.old }
        ensures failures_kept { OnOk result (failures self.new ≡ failures self.old) }
        ensures failure_counted { OnErr result (failures self.new ≡ failures self.old + 1) }
        ensures last_read { IfOk result (λ n. given self.new ≡ n) }
        ensures last_read_kept { OnErr result (given self.new ≡ given self.old) }

        // Where it tells its bytes.
        ensures still_tells { tells self.old → tells self.new }
        ensures bytes { tells self.old → IfOk result (λ n. rest self.old ≡ take n buffer.new ++ rest self.new) }
        ensures end { tells self.old → IfOk result (λ n. n ≡ 0 → rest self.old ≡ []) }
        ensures none_lost { tells self.old → OnErr result (rest self.new ≡ rest self.old) };

    ghost limited: { (source : Self) → limit source < 2 ^ 64 };

    ghost within_limit: { (source : Self) → tells source → length (rest source) ≤ limit source };
}
