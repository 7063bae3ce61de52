//! Texts of a trace as words of a script.
use std::alloc::{AllocError, Global};
use vt_check::draft::Draft;
use vt_from::words::push_byte;

// The most bytes of a text as a word, so that a line has room for two.
const MOST_WORD: usize = 3500;

// In which digits an escape names a byte.
#[derive(Clone, Copy)]
enum Base {
    Octal,
    Hexadecimal,
}

// Where the reading of a text stands.
#[derive(Clone, Copy)]
enum State {
    Between,
    Escaped,
    /// In an escape in digits: what they make so far, and how many they are.
    Digits(Base, u16, u8),
}

// A text of C as a word of a script.
#[derive(Drop)]
struct Decoder {
    word: Draft,
    state: State,
}

// The byte that a letter behind a backslash stands for.
fn escaped(byte: u8) -> u8 {
    match byte {
        b'n' => b'\n',
        b't' => b'\t',
        b'r' => b'\r',
        b'v' => 0x0b,
        b'f' => 0x0c,
        _ => byte,
    }
}

// The value of a digit, if it is one of this base.
fn digit_of(byte: u8, base: Base) -> Option<u16> {
    match (byte, base) {
        (b'0'..=b'7', _) => Some(u16::from(byte - b'0')),
        (b'8' | b'9', Base::Hexadecimal) => Some(u16::from(byte - b'0')),
        (b'a'..=b'f', Base::Hexadecimal) => Some(u16::from(byte - b'a' + 10)),
        (b'A'..=b'F', Base::Hexadecimal) => Some(u16::from(byte - b'A' + 10)),
        _ => None,
    }
}

// What digits make with one more, of which the last two or three count.
fn with_digit(base: Base, value: u16, digit: u16) -> u16 {
    match base {
        Base::Octal => value % 256 * 8 + digit % 8,
        Base::Hexadecimal => value % 256 * 16 + digit % 16,
    }
}

// How many digits an escape has at most.
fn most_digits(base: Base) -> u8 {
    match base {
        Base::Octal => 3,
        Base::Hexadecimal => 2,
    }
}

impl Decoder {
    fn push(&mut self, value: u16) {
        push_byte(&mut self.word, value.to_le_bytes()[0]);
    }

    // Goes on by a byte that continues no escape.
    fn take_plain(&mut self, byte: u8) {
        if byte == b'\\' {
            self.state = State::Escaped;
        } else {
            self.state = State::Between;
            push_byte(&mut self.word, byte);
        }
    }

    // Goes on by the byte behind a backslash.
    fn take_escaped(&mut self, byte: u8) {
        self.state = match (byte, digit_of(byte, Base::Octal)) {
            (b'x', _) => State::Digits(Base::Hexadecimal, 0, 0),
            (_, Some(digit)) => State::Digits(Base::Octal, digit, 1),
            _ => {
                push_byte(&mut self.word, escaped(byte));
                State::Between
            }
        };
    }

    // Goes on by a byte in an escape in digits, or behind it.
    fn take_digit(&mut self, base: Base, value: u16, count: u8, byte: u8) {
        match digit_of(byte, base) {
            Some(digit) if count < most_digits(base) => {
                let value = with_digit(base, value, digit);
                self.state = State::Digits(base, value, count.saturating_add(1));
            }
            _ => {
                self.push(value);
                self.take_plain(byte);
            }
        }
    }

    // Goes on by a byte.
    fn take(&mut self, byte: u8) {
        match self.state {
            State::Between => self.take_plain(byte),
            State::Escaped => self.take_escaped(byte),
            State::Digits(base, value, count) => self.take_digit(base, value, count, byte),
        }
    }

    // The word, if it is not too long.
    fn end(mut self) -> Result<Option<String>, AllocError> {
        if let State::Digits(_, value, _) = self.state {
            self.push(value);
        }
        if self.word.len() > MOST_WORD {
            return Ok(None);
        }
        self.word.push_if_empty("\\e");
        Ok(Some(self.word.end()?))
    }
}

/// An argument as a word of a script, if it is a text that the trace has whole.
pub fn word_of(alloc: Global, argument: &str) -> Result<Option<String>, AllocError> {
    let Some(text) = argument.strip_prefix('"') else {
        return Ok(None);
    };
    let Some(text) = text.strip_suffix('"') else {
        return Ok(None);
    };
    let mut decoder = Decoder {
        word: Draft::new(alloc),
        state: State::Between,
    };
    for byte in text.bytes() {
        decoder.take(byte);
    }
    decoder.end()
}

/// Whether a list between `|` has this item, as `MS_REC` of `MS_BIND|MS_REC`.
pub fn has_flag(list: &str, flag: &str) -> bool {
    for other in list.split('|') {
        if other.trim() == flag {
            return true;
        }
    }
    false
}
