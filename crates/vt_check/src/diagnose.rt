//! What is wrong with a line that a run refuses.
use crate::bytes::{ByteFault, ByteKind, byte_fault};
use crate::draft::Draft;
use crate::faults::first_fault;
use crate::finding::Diagnosis;
use crate::repair::write_help;
use crate::words::{Given, Word, parts_of};
use std::alloc::Global;
use vt_line::version::Version;

// What is said of the bytes of each kind, in the order of the kinds, and how to write them.
static SAID: [(&str, &str); 7] = [
    (
        "the line ends in CR LF",
        "lines end in LF alone; `sed -i 's/\\r$//' FILE` takes the CR away",
    ),
    (
        "a byte order mark begins the file",
        "a file begins with its first line: `sed -i '1s/^\\xef\\xbb\\xbf//' FILE`",
    ),
    (
        "a tab does not separate words",
        "words are separated by spaces; a tab in a word is `\\x09`",
    ),
    (
        "a byte above 0x7e",
        "such a byte is written `\\xhh`, with two lower-case hexadecimal digits",
    ),
    (
        "a byte that is not printed",
        "such a byte is written `\\xhh`, with two lower-case hexadecimal digits",
    ),
    (
        "` is no escape",
        "an escape is `\\xhh`, with two lower-case hexadecimal digits; a backslash is `\\x5c`",
    ),
    (
        "the line has more than 8,192 bytes",
        "a file has up to 1,048,576 bytes: `pwrite` writes it in parts",
    ),
];

// Escapes of other languages, each with the one that stands for it here.
static ESCAPES: [(&str, &str); 8] = [
    ("\\n", "\\x0a"),
    ("\\t", "\\x09"),
    ("\\r", "\\x0d"),
    ("\\0", "\\x00"),
    ("\\\\", "\\x5c"),
    ("\\", "\\x5c"),
    ("\\\"", "\\x22"),
    ("\\'", "\\x27"),
];

// Writes the escape that stands for a text of other languages, or what begins the rest in lower case, as an escape of
// two upper-case digits is meant, and says how many bytes of the rest it stands for.
fn write_escape(text: &mut Draft, rest: &str, width: usize) -> Option<usize> {
    if rest.starts_with("\\ ") {
        text.push("\\x20");
        return Some(2);
    }
    let given = rest.get(..width)?;
    for (from, escape) in &ESCAPES {
        if *from == given {
            text.push(escape);
            return Some(width);
        }
    }
    let escape = rest.get(..4)?;
    text.push_in_case(escape, false);
    Some(4)
}

// Proposes the line with the escape that is meant in the place of a bad one.
fn propose_escape(found: &mut Diagnosis, line: &str, fault: ByteFault) {
    let rest = line.get(fault.column..).unwrap_or_default();
    let mut text = found.draft();
    text.push(line.get(..fault.column).unwrap_or_default());
    if let Some(width) = write_escape(&mut text, rest, fault.width) {
        text.push(rest.get(width..).unwrap_or_default());
        found.propose(text);
    }
}

// Proposes the line without a byte order mark and without a CR at its end, each other byte as a word spells it, and a
// tab as a space.
fn propose_spelled(found: &mut Diagnosis, line: &[u8]) {
    let line = line.strip_prefix(b"\xef\xbb\xbf").unwrap_or(line);
    let line = line.strip_suffix(b"\r").unwrap_or(line);
    let mut text = found.draft();
    for byte in line {
        text.push_byte(if *byte == b'\t' { b' ' } else { *byte });
    }
    found.propose(text);
}

// Tells what is wrong with the bytes of a line.
fn tell_bytes(found: &mut Diagnosis, line: &[u8], fault: ByteFault) {
    let (said, words) = SAID[fault.kind as usize];
    found.column = fault.column;
    found.width = fault.width;
    found.words = words;
    match fault.kind {
        ByteKind::Escape => {
            let rest = line.get(fault.column..).unwrap_or_default();
            found.message.push_char('`');
            found
                .message
                .push_bytes(rest.get(..fault.width).unwrap_or(rest));
            propose_escape(found, str::from_utf8(line).unwrap_or_default(), fault);
        }
        ByteKind::Overlong | ByteKind::Control => {}
        _ => propose_spelled(found, line),
    }
    found.message.push(said);
}

// Tells what is wrong with the words of a text.
fn tell_words(found: &mut Diagnosis, text: &str) {
    let words = parts_of(found, Word { column: 0, text }, [' ', ' ']);
    let line = Given {
        version: found.version,
        text,
        words: words.as_slice(),
    };
    let fault = first_fault(found, line);
    found.column = fault.word.column;
    found.width = fault.word.text.len();
    fault.write(found);
    write_help(found, line, fault);
    drop(words);
}

/// What is wrong with a line that a run refuses by S1 in a version of the language, where, and what to write in its
/// place.
pub fn diagnosis(version: Version, alloc: Global, line: &[u8]) -> Diagnosis {
    let mut found = Diagnosis::new(version, alloc);
    match byte_fault(line) {
        Some(fault) => tell_bytes(&mut found, line, fault),
        None => tell_words(&mut found, str::from_utf8(line).unwrap_or_default()),
    }
    found
}
