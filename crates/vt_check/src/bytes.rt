//! The bytes of a line that no word has, and escapes that spell none.
use vt_io::line::LONGEST_LINE;

/// How many kinds of [`ByteKind`], the first ones, are told at the first line of a file alone that has them.
pub const TOLD_ONCE: usize = 4;

/// Why bytes are of no word.
#[derive(Clone, Copy)]
pub enum ByteKind {
    /// The line ends in CR LF, as on Windows.
    Crlf,
    /// A byte order mark begins the file.
    Mark,
    Tab,
    /// A byte above 0x7e, as of UTF-8.
    High,
    /// Another byte that is not printed.
    Control,
    /// A backslash that begins no escape.
    Escape,
    /// A byte past the longest line.
    Overlong,
}

/// The first bytes of a line that are of no word.
#[derive(Clone, Copy)]
pub struct ByteFault {
    pub kind: ByteKind,
    pub column: usize,
    pub width: usize,
}

/// Whether a byte stands for itself in a word.
pub fn is_plain(byte: u8) -> bool {
    matches!(byte, 0x21..=0x7e) && byte != b'\\'
}

// How many bytes from a backslash on spell no escape, up to the first that is wrong; nothing where four bytes are one.
fn bad_escape(rest: &[u8]) -> Option<usize> {
    for place in 1..4 {
        match rest.get(place) {
            None | Some(b' ') => return Some(place),
            Some(b'x') if place == 1 => {}
            Some(b'0'..=b'9' | b'a'..=b'f') if place > 1 => {}
            Some(_) => return Some(place.saturating_add(1)),
        }
    }
    None
}

// What is wrong with the escape that begins these bytes, if something is, and how many bytes it has. It may be the first
// of a word, and then `\e`, the empty text.
fn fault_of_escape(rest: &[u8], is_first: bool) -> (Option<ByteKind>, usize) {
    if is_first && matches!(rest, [_, b'e'] | [_, b'e', b' ', ..]) {
        return (None, 2);
    }
    match bad_escape(rest) {
        Some(width) => (Some(ByteKind::Escape), width),
        None => (None, 4),
    }
}

// What is wrong with the character that begins these bytes, if something is, and how many bytes it has.
fn fault_of(rest: &[u8], is_first: bool) -> (Option<ByteKind>, usize) {
    let kind = match rest.first() {
        Some(b'\\') => return fault_of_escape(rest, is_first),
        Some(b'\t') => ByteKind::Tab,
        Some(b'\r') if rest.len() == 1 => ByteKind::Crlf,
        Some(0x80..=0xff) => ByteKind::High,
        Some(0x20..=0x7e) | None => return (None, 1),
        Some(_) => ByteKind::Control,
    };
    (Some(kind), 1)
}

/// The first bytes of a line that are of no word, if there are any.
pub fn byte_fault(line: &[u8]) -> Option<ByteFault> {
    if line.len() > LONGEST_LINE {
        return Some(ByteFault {
            kind: ByteKind::Overlong,
            column: LONGEST_LINE,
            width: line.len().saturating_sub(LONGEST_LINE),
        });
    }
    if line.starts_with(b"\xef\xbb\xbf") {
        return Some(ByteFault {
            kind: ByteKind::Mark,
            column: 0,
            width: 3,
        });
    }
    let mut next: usize = 0;
    let mut is_first = true;
    for (column, byte) in line.iter().enumerate() {
        if column == next {
            let (kind, width) = fault_of(line.get(column..).unwrap_or_default(), is_first);
            if let Some(kind) = kind {
                return Some(ByteFault {
                    kind,
                    column,
                    width,
                });
            }
            next = column.saturating_add(width);
        }
        is_first = *byte == b' ';
    }
    None
}
