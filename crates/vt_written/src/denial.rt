//! A denial as a run writes it.
use memchr::memchr;

/// How a denial begins.
const DENY: &[u8] = b"deny ";

// What stands behind the number of a line that is no line of the language.
const REFUSED: &[u8] = b" deny 22 EINVAL S1";

/// A text up to its first space, and what stands behind that; all of it and nothing where it has none.
pub fn split_word(text: &[u8]) -> (&[u8], &[u8]) {
    match memchr(b' ', text) {
        Some(space) => {
            let (word, rest) = text.split_at(space);
            (word, &rest[1..])
        }
        None => (text, &[]),
    }
}

/// The parts of a denial: `deny 17 EEXIST E1`.
#[derive(Clone, Copy)]
pub struct Denial<'a> {
    pub errno: &'a [u8],
    pub error: &'a [u8],
    pub rule: &'a [u8],
}

/// The parts of an answer, without the number of its line, if it is a denial.
pub fn denial_of(answer: &[u8]) -> Option<Denial<'_>> {
    let (errno, names) = split_word(answer.strip_prefix(DENY)?);
    let (error, rule) = split_word(names);
    Some(Denial { errno, error, rule })
}

// Whether a text is a number.
fn is_number(text: &[u8]) -> bool {
    for byte in text {
        if !byte.is_ascii_digit() {
            return false;
        }
    }
    !text.is_empty()
}

/// Whether an answer, with the number of its line and without its newline, is a denial by S1.
pub fn is_refused(line: &[u8]) -> bool {
    match line.strip_suffix(REFUSED) {
        Some(number) => is_number(number),
        None => false,
    }
}
