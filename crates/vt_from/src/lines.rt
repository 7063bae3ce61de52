//! Lines of a file, read one after the other.
use std::alloc::Global;
use std::io::{self, BufRead, BufReader, Read};
use vt_check::draft::Draft;

// How many bytes are read at once.
const PIECE: usize = 65_536;

/// Who takes lines.
pub trait Taking {
    /// Takes a line, by its number from 1, and says whether its form is known. Bytes that are not printed stand in it as
    /// `\ooo`, in octal digits.
    fn take(&mut self, number: u64, line: &str) -> bool;
}

// A line without its newline, with `\ooo` for each byte that is not printed.
fn printed(alloc: Global, line: &[u8]) -> io::Result<String> {
    let mut text = Draft::new(alloc);
    for byte in line.strip_suffix(b"\n").unwrap_or(line) {
        if matches!(*byte, 0x20..=0x7e) {
            text.push_char(char::from(*byte));
        } else {
            text.push_char('\\');
            text.push_octal(u16::from(*byte), 3);
        }
    }
    Ok(text.end()?)
}

/// What was read of a file.
#[derive(Drop)]
pub struct Reading {
    /// How many lines came.
    pub lines: u64,
    /// The lines of no known form.
    pub unknown: Vec<Unknown>,
}

/// A line of no known form.
#[derive(Drop)]
pub struct Unknown {
    pub number: u64,
    pub text: String,
}

// Hands on a line, and keeps it if its form is not known.
fn hand_on<T: Taking>(
    alloc: Global,
    line: &[u8],
    reading: &mut Reading,
    taker: &mut T,
) -> io::Result<()> {
    let text = printed(alloc, line)?;
    reading.lines = reading.lines.saturating_add(1);
    let number = reading.lines;
    if !taker.take(number, text.as_str()) {
        reading.unknown.push(Unknown { number, text })?;
    }
    Ok(())
}

// Hands on all lines of a reader that is read in pieces.
fn hand_on_all<R: BufRead, T: Taking>(
    alloc: Global,
    reader: &mut R,
    line: &mut Vec<u8>,
    reading: &mut Reading,
    taker: &mut T,
) -> io::Result<()> {
    for _ in 0..u64::MAX {
        line.clear();
        if reader.read_until(b'\n', line)? == 0 {
            break;
        }
        hand_on(alloc, line.as_slice(), reading, taker)?;
    }
    Ok(())
}

/// Hands on all lines of a reader.
pub fn read_lines<R: Read + Drop, T: Taking>(
    alloc: Global,
    reader: R,
    taker: &mut T,
) -> io::Result<Reading> {
    let mut buffered = BufReader::with_capacity(alloc, PIECE, reader)?;
    let mut reading = Reading {
        lines: 0,
        unknown: Vec::new(alloc),
    };
    let mut line = Vec::new(alloc);
    hand_on_all(alloc, &mut buffered, &mut line, &mut reading, taker)?;
    Ok(reading)
}
