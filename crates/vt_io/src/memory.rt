//! Sources and sinks in memory, for tests: they tell their bytes, and fail when they are told to.
ghost use Rattle.std.specs.Prelude.{◌≡◌, ◌-◌, ◌<◌, ◌↔◌, [], None, Some, IsTrue, option_and_then, if◌then◌else◌, nat_lt};

use crate::input::{Source, SourceFailed};
use crate::output::{Sink, SinkFailed};
use std::alloc::Global;
use std::marker::Model;

/// A slice as a source.
///
/// It gives at most `piece` bytes a read, or one at a `piece` of 0.
#[derive(Debug, Drop)]
pub struct BytesSource<'a> {
    rest: &'a [u8],
    piece: usize,
    before_failure: Option<usize>,
    failures: u64,
    given: usize,
}

impl<'a> Model for BytesSource<'a> {
    ghost use Rattle.vt_io.specs.BytesSource.{BytesLeft};

    ghost Value = { BytesLeft };

    ghost view = { λ s. record { rest = s.rest.now; piece = s.piece; before_failure = s.before_failure; failures = s.failures; given = s.given } };
}

impl<'a> BytesSource<'a> {
    /// A source of these bytes, of which no read fails.
    pub fn new(bytes: &'a [u8], piece: usize) -> Self
        ensures { result ≡ record { rest = bytes.now; piece = piece; before_failure = None; failures = 0; given = 0 } }
    {
        BytesSource {
            rest: bytes,
            piece,
            before_failure: None,
            failures: 0,
            given: 0,
        }
    }

    /// The same, of which the `n`-th read from now on fails, counted from 1; at 0 none does.
    pub fn failing_at(self, n: usize) -> Self
        ensures { result ≡ record self.entry { before_failure = (if nat_lt 0 n then Some (n - 1) else None) } }
    {
        BytesSource {
            before_failure: n.checked_sub(1),
            ..self
        }
    }
}

impl<'a> Source for BytesSource<'a> {
    ghost use Rattle.std.specs.Prelude.{◌≤◌, ◌-◌, ◌^◌, min, length};
    ghost use Rattle.std.proofs.Common.{arith};

    ghost tells = { λ s. length s.rest ≤ 2 ^ 64 - 1 };

    ghost rest = { λ s. s.rest };

    ghost limit = { λ s. min (length s.rest) (2 ^ 64 - 1) };

    ghost failures = { λ s. s.failures };

    ghost given = { λ s. s.given };

    ghost limited = { λ s. omega arith };

    ghost within_limit = { λ s t. omega arith };

    fn read(&mut self, buffer: &mut [u8]) -> Result<usize, SourceFailed> {
        if is_due(&mut self.before_failure) {
            self.failures += 1;
            return Err(SourceFailed);
        }
        let count = self.piece.max(1).min(buffer.len()).min(self.rest.len());
        let (front, rest) = self.rest.split_at(count);
        buffer[..count].copy_from_slice(front);
        self.rest = rest;
        self.given = count;
        Ok(count)
    }
}

/// A vector as a sink.
///
/// It takes at most `piece` bytes a write, or one at a `piece` of 0. A write for which there is no
/// memory fails.
#[derive(Debug, Drop)]
pub struct BytesSink {
    bytes: Vec<u8>,
    piece: usize,
    before_failure: Option<usize>,
    failures: u64,
}

impl Model for BytesSink {
    ghost use Rattle.vt_io.specs.BytesSink.{BytesKept};

    ghost Value = { BytesKept };

    ghost view = { λ s. record { bytes = s.bytes.items; piece = s.piece; before_failure = s.before_failure; failures = s.failures } };
}

impl BytesSink {
    /// An empty sink, to which no write fails for any reason but memory.
    pub fn new(alloc: Global, piece: usize) -> Self
        ensures { result ≡ record { bytes = []; piece = piece; before_failure = None; failures = 0 } }
    {
        BytesSink {
            bytes: Vec::new(alloc),
            piece,
            before_failure: None,
            failures: 0,
        }
    }

    /// The same, to which the `n`-th write from now on fails, counted from 1; at 0 none does.
    pub fn failing_at(self, n: usize) -> Self
        ensures { result ≡ record self { before_failure = (if nat_lt 0 n then Some (n - 1) else None) } }
    {
        let before_failure = n.checked_sub(1);
        BytesSink {
            before_failure,
            ..self
        }
    }

    /// What was written.
    pub fn bytes(&self) -> &[u8]
        ensures { result.now ≡ self.now.bytes }
    {
        &self.bytes
    }
}

impl Sink for BytesSink {
    ghost use Rattle.std.specs.Prelude.{⊤};

    ghost tells = { λ _. ⊤ };

    ghost written = { λ s. s.bytes };

    ghost failures = { λ s. s.failures };

    fn write(&mut self, bytes: &[u8]) -> Result<usize, SinkFailed> {
        let count = self.piece.max(1).min(bytes.len());
        if is_due(&mut self.before_failure)
            || self.bytes.extend_from_slice(&bytes[..count]).is_err()
        {
            self.failures += 1;
            return Err(SinkFailed);
        }
        Ok(count)
    }
}

/// Counts a call, and says whether it is the one that fails.
fn is_due(before_failure: &mut Option<usize>) -> bool
    ensures due { IsTrue result ↔ (before_failure.old ≡ Some 0) }
    ensures counted { before_failure.new
        ≡ option_and_then (λ n. if nat_lt 0 n then Some (n - 1) else None) before_failure.old }
{
    let is_due = *before_failure == Some(0);
    *before_failure = before_failure.and_then(|n| n.checked_sub(1));
    is_due
}
