//! Sources and sinks over readers and writers of the standard library.
ghost use Rattle.std.specs.Prelude.{◌≡◌, ◌+◌, ◌-◌, ◌^◌, ◌<◌, ◌≤◌, length, IfOk, OnOk, OnErr};
ghost use Rattle.std.specs.Io.KnownBytes.{Keeps, ReadConsumes, WriteAppends};

use crate::input::{Source, SourceFailed};
use crate::output::{Sink, SinkFailed};
use std::io::{ErrorKind, Read, Write};
use std::marker::Model;

/// How often an interrupted read or write is tried again before it counts as a failure.
pub const RETRIES: u32 = 100;

/// A source over a reader.
///
/// An interrupted read is tried again, at most [`RETRIES`] times in a row, and is then a failure. So
/// is a read that finds a byte after 2^64 - 1 others; that byte is lost. The source tells its bytes
/// where the reader does and has fewer than 2^64 of them.
#[derive(Drop)]
pub struct ReadSource<R: Read + Drop> {
    reader: R,
    limit: u64,
    failures: u64,
    // How many bytes the last read gave.
    given: usize,
}

impl<R: Read + Drop> Model for ReadSource<R> {
    ghost use Rattle.vt_io.specs.ReadSource.{Reading};

    ghost Value = { Reading R };

    ghost view = { λ s. record { reader = s.reader; limit = s.limit; failures = s.failures; given = s.given } };
}

impl<R: Read + Drop> ReadSource<R> {
    /// A source of the bytes that the reader gives from here on.
    pub fn new(reader: R) -> Self
        ensures { result ≡ record { reader = reader; limit = 2 ^ 64 - 1; failures = 0; given = 0 } }
    {
        ReadSource {
            reader,
            limit: u64::MAX,
            failures: 0,
            given: 0,
        }
    }
}

impl<R: Read + Drop> Source for ReadSource<R> {
    ghost use Rattle.std.specs.Prelude.{◌≤◌, ◌-◌, ◌^◌, min, length, [], unwrap_or, IsSomeAnd};
    ghost use Rattle.std.proofs.Common.{arith};
    ghost use Rattle.vt_io.specs.ReadSource.{length-known_le};

    ghost limit = { λ s. min s.limit (2 ^ 64 - 1) };

    ghost tells = { λ s. IsSomeAnd (R.remaining s.reader) (λ bytes. length bytes ≤ min s.limit (2 ^ 64 - 1)) };

    ghost rest = { λ s. unwrap_or (R.remaining s.reader) [] };

    ghost failures = { λ s. s.failures };

    ghost given = { λ s. s.given };

    ghost limited = { λ s. omega arith };

    ghost within_limit = { λ s t. length-known_le (R.remaining s.reader) _ t };

    fn read(&mut self, buffer: &mut [u8]) -> Result<usize, SourceFailed> {
        // At the limit one more byte is asked for, since only the end may come.
        let most = (self.limit as usize).clamp(1, buffer.len());
        match read_retrying(&mut self.reader, &mut buffer[..most]) {
            Ok(count) if count as u64 <= self.limit => {
                self.limit -= count as u64;
                self.given = count;
                Ok(count)
            }
            _ => {
                self.failures += 1;
                Err(SourceFailed)
            }
        }
    }
}

/// One read, tried again while it is interrupted.
fn read_retrying<R: Read>(reader: &mut R, buffer: &mut [u8]) -> Result<usize, SourceFailed>
    ensures count { IfOk result (λ n. n ≤ length buffer.new) }
    ensures bytes { ReadConsumes (R.remaining reader.old) (R.remaining reader.new) result buffer.new }
{
    for _ in 0..=RETRIES {
        match reader.read(buffer) {
            Ok(count) => return Ok(count),
            Err(error) if error.kind() == ErrorKind::Interrupted => {}
            Err(_) => return Err(SourceFailed),
        }
    }
    Err(SourceFailed)
}

/// A sink over a writer.
///
/// An interrupted write or flush is tried again, at most [`RETRIES`] times in a row, and is then a
/// failure. So is a write of no byte. The sink tells its bytes where the writer does.
#[derive(Drop)]
pub struct WriteSink<W: Write + Drop> {
    writer: W,
    failures: u64,
}

impl<W: Write + Drop> Model for WriteSink<W> {
    ghost use Rattle.vt_io.specs.WriteSink.{Writing};

    ghost Value = { Writing W };

    ghost view = { λ s. record { writer = s.writer; failures = s.failures } };
}

impl<W: Write + Drop> WriteSink<W> {
    /// A sink that appends to what the writer holds.
    pub fn new(writer: W) -> Self
        ensures { result ≡ record { writer = writer; failures = 0 } }
    {
        WriteSink {
            writer,
            failures: 0,
        }
    }

    /// Hands on what the writer keeps back.
    pub fn flush(&mut self) -> Result<(), SinkFailed>
        requires countable { self.old.failures + 1 < 2 ^ 64 }
        ensures bytes { Keeps (W.contents self.old.writer) (W.contents self.new.writer) }
        ensures failures_kept { OnOk result (self.new.failures ≡ self.old.failures) }
        ensures failure_counted { OnErr result (self.new.failures ≡ self.old.failures + 1) }
    {
        let flushed = flush_retrying(&mut self.writer);
        if flushed.is_err() {
            self.failures += 1;
        }
        flushed
    }

    /// The writer.
    pub fn into_inner(self) -> W
        ensures { result ≡ self.writer }
    {
        self.writer
    }
}

impl<W: Write + Drop> Sink for WriteSink<W> {
    ghost use Rattle.std.specs.Prelude.{[], unwrap_or, IsSome};

    ghost tells = { λ s. IsSome (W.contents s.writer) };

    ghost written = { λ s. unwrap_or (W.contents s.writer) [] };

    ghost failures = { λ s. s.failures };

    fn write(&mut self, bytes: &[u8]) -> Result<usize, SinkFailed> {
        match write_retrying(&mut self.writer, bytes) {
            Ok(count) if count > 0 => Ok(count),
            _ => {
                self.failures += 1;
                Err(SinkFailed)
            }
        }
    }
}

/// One write, tried again while it is interrupted.
fn write_retrying<W: Write>(writer: &mut W, bytes: &[u8]) -> Result<usize, SinkFailed>
    ensures count { IfOk result (λ n. n ≤ length bytes.now) }
    ensures bytes { WriteAppends (W.contents writer.old) (W.contents writer.new) result bytes.now }
{
    for _ in 0..=RETRIES {
        match writer.write(bytes) {
            Ok(count) => return Ok(count),
            Err(error) if error.kind() == ErrorKind::Interrupted => {}
            Err(_) => return Err(SinkFailed),
        }
    }
    Err(SinkFailed)
}

/// A flush, tried again while it is interrupted.
fn flush_retrying<W: Write>(writer: &mut W) -> Result<(), SinkFailed>
    ensures bytes { Keeps (W.contents writer.old) (W.contents writer.new) }
{
    for _ in 0..=RETRIES {
        match writer.flush() {
            Ok(()) => return Ok(()),
            Err(error) if error.kind() == ErrorKind::Interrupted => {}
            Err(_) => return Err(SinkFailed),
        }
    }
    Err(SinkFailed)
}
