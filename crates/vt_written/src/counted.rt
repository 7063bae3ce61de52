//! Answers that are handed on as they are, and counted where they are S1.
ghost use Rattle.std.specs.Prelude.{◌≡◌};

use crate::denial::is_refused;
use arrayvec::ArrayVec;
use memchr::memchr;
use std::io::{self, Write};

// How much of a line is kept where its end comes later: more than a denial by S1 has.
const MOST_KEPT: usize = 64;

/// A writer that hands on what it is given, and counts the lines that a run refuses by S1.
#[derive(Drop)]
pub struct Counted<W> {
    output: W,
    /// How many lines were refused.
    pub refused: u64,
    // The front of the line that has not ended yet.
    front: ArrayVec<u8, MOST_KEPT>,
}

impl<W> Counted<W> {
    /// A writer that hands on to this one.
    pub fn new(output: W) -> Self
        ensures { result.output ≡ output }
    {
        Counted {
            output,
            refused: 0,
            front: ArrayVec::new(),
        }
    }

    /// The writer, to which all was handed on.
    pub fn into_output(self) -> W
        ensures { result ≡ self.output }
    {
        self.output
    }

    // Keeps the next bytes of a line, as far as there is room.
    fn keep(&mut self, bytes: &[u8])
        ensures { self.new.output ≡ self.old.output }
    {
        let room = self.front.remaining_capacity().min(bytes.len());
        let _ = self
            .front
            .try_extend_from_slice(bytes.get(..room).unwrap_or_default());
    }

    // Goes on by the end of a line.
    fn end_line(&mut self, rest: &[u8])
        ensures { self.new.output ≡ self.old.output }
    {
        let refused = if self.front.is_empty() {
            is_refused(rest)
        } else {
            self.keep(rest);
            is_refused(self.front.as_slice())
        };
        self.front.clear();
        self.refused = self.refused.saturating_add(u64::from(refused));
    }

    // Goes on by what was handed on.
    fn take(&mut self, bytes: &[u8])
        ensures { self.new.output ≡ self.old.output }
    {
        let mut rest = bytes;
        while let Some(newline) = memchr(b'\n', rest) {
            let (line, after) = rest.split_at(newline);
            self.end_line(line);
            rest = &after[1..];
        }
        self.keep(rest);
    }
}

impl<W: Write> Write for Counted<W> {
    ghost contents = { λ counted. W.contents counted.output };

    fn write(&mut self, buf: &[u8]) -> io::Result<usize> {
        let count = self.output.write(buf)?;
        self.take(buf.get(..count).unwrap_or_default());
        Ok(count)
    }

    fn flush(&mut self) -> io::Result<()> {
        self.output.flush()
    }
}
