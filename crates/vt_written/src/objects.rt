//! Answers that are handed on as JSON, an object for each line that is answered.
ghost use Rattle.std.specs.Prelude.{◌++◌, ◌≡◌, ◌⊎◌, [], OnOk};
ghost use Rattle.vt_written.specs.Objects.{PushesObject};

use crate::denial::{is_refused, split_word};
use crate::text::Text;
use memchr::memchr;
use std::alloc::{AllocError, Global};
use std::io::{self, ErrorKind, Write};

/// A writer that is given the answers of a run, and hands on an object for each line that is answered. An object goes out
/// once the next line is answered, the last one by [`Objects::finish`].
///
/// After an allocation that failed it takes nothing more.
#[derive(Drop)]
pub struct Objects<W> {
    output: W,
    /// How many lines were refused by S1.
    pub refused: u64,
    // The line that has not ended yet.
    line: Vec<u8>,
    // The lines before it that answer one line.
    answer: Vec<u8>,
    // What is to be handed on.
    text: Text,
    failed: bool,
}

impl<W: Drop> Objects<W> {
    /// A writer that hands on to this one.
    pub fn new(alloc: Global, output: W) -> Self
        ensures { result.output ≡ output }
    {
        Objects {
            output,
            refused: 0,
            line: Vec::new(alloc),
            answer: Vec::new(alloc),
            text: Text::new(alloc),
            failed: false,
        }
    }

    /// The writer, to which no more is handed on.
    pub fn into_output(self) -> W
        ensures { result ≡ self.output }
    {
        self.output
    }

    // Goes on by a line, with its newline.
    fn end_line(&mut self) -> Result<(), AllocError>
        ensures output { self.new.output ≡ self.old.output }
        ensures line { OnOk result (self.new.line.items ≡ []) }

        // The line goes on with the answer before it, or begins one, and then that before it is written.
        ensures answer { OnOk result (
            ((self.new.answer.items ≡ self.old.answer.items ++ self.old.line.items) × (self.new.text ≡ self.old.text))
            ⊎ ((self.new.answer.items ≡ self.old.line.items) × PushesObject self.old.text self.new.text)) }
    {
        let (number, _) = split_word(self.line.as_slice());
        let (answered, _) = split_word(self.answer.as_slice());
        if number != answered && !self.answer.is_empty() {
            self.text.push_answer(self.answer.as_slice());
            self.answer.clear();
        }
        let line = self.line.as_slice();
        let refused = is_refused(line.strip_suffix(b"\n").unwrap_or(line));
        self.refused = self.refused.saturating_add(u64::from(refused));
        self.answer.extend_from_slice(line)?;
        self.line.clear();
        Ok(())
    }

    // Goes on by these bytes.
    fn take(&mut self, bytes: &[u8]) -> Result<(), AllocError> {
        let mut rest = bytes;
        while let Some(newline) = memchr(b'\n', rest) {
            let (line, after) = rest.split_at(newline);
            self.line.extend_from_slice(line)?;
            self.line.push(b'\n')?;
            self.end_line()?;
            rest = &after[1..];
        }
        self.line.extend_from_slice(rest)
    }
}

impl<W: Write + Drop> Objects<W> {
    // Hands on the objects that are whole.
    fn hand_on(&mut self) -> io::Result<()> {
        if self.failed {
            return Err(io::Error::from(ErrorKind::OutOfMemory));
        }
        self.output.write_all(self.text.bytes()?)?;
        self.text.clear();
        Ok(())
    }

    // Tells the last answer.
    fn tell_last(&mut self)
        ensures output { self.new.output ≡ self.old.output }
        ensures answer { self.new.answer.items ≡ [] }
        ensures text { (self.old.answer.items ≡ []) ⊎ PushesObject self.old.text self.new.text }
    {
        if !self.answer.is_empty() {
            self.text.push_answer(self.answer.as_slice());
            self.answer.clear();
        }
    }

    /// Hands on the last object.
    pub fn finish(mut self) -> io::Result<()> {
        self.tell_last();
        self.hand_on()
    }
}

impl<W: Write + Drop> Write for Objects<W> {
    fn write(&mut self, buf: &[u8]) -> io::Result<usize> {
        self.hand_on()?;
        if self.take(buf).is_err() {
            self.failed = true;
            return self.hand_on().map(|_| 0);
        }
        Ok(buf.len())
    }

    fn flush(&mut self) -> io::Result<()> {
        self.hand_on()?;
        self.output.flush()
    }
}
