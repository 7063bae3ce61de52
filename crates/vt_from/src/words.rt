//! Words of a script, and paths as they stand there.
use std::alloc::{AllocError, Global};
use vt_check::draft::Draft;

/// Appends a byte as a word has it: itself, or `\xhh`.
pub fn push_byte(text: &mut Draft, byte: u8) {
    if matches!(byte, 0x21..=0x7e) && byte != b'\\' {
        text.push_char(char::from(byte));
    } else {
        text.push_escape(byte);
    }
}

/// Appends bytes as a word has them.
pub fn push_word(text: &mut Draft, word: &[u8]) {
    for byte in word {
        push_byte(text, *byte);
    }
}

// Appends what follows a backslash: three octal digits name a byte.
fn push_escaped(text: &mut Draft, part: &str) {
    let digits = part.get(..3).unwrap_or_default();
    match u16::from_str_radix(digits, 8) {
        Ok(byte) if byte <= 0xff => {
            push_byte(text, byte.to_le_bytes()[0]);
            push_word(text, part.get(3..).unwrap_or_default().as_bytes());
        }
        _ => {
            push_byte(text, b'\\');
            push_word(text, part.as_bytes());
        }
    }
}

/// A field with octal escapes, as `\040`, as a word of a script.
pub fn unescaped(alloc: Global, field: &str) -> Result<String, AllocError> {
    let mut text = Draft::new(alloc);
    for (place, part) in field.split('\\').enumerate() {
        if place == 0 {
            push_word(&mut text, part.as_bytes());
        } else {
            push_escaped(&mut text, part);
        }
    }
    text.end()
}

/// What of a path is below a directory, with its slash; empty for the directory itself, and nothing where it is not there.
pub fn below<'a>(path: &'a str, top: &str) -> Option<&'a str> {
    if top == "/" {
        return Some(if path == "/" { "" } else { path });
    }
    let rest = path.strip_prefix(top)?;
    (rest.is_empty() || rest.starts_with('/')).then_some(rest)
}

/// A directory, and what is below it.
pub fn joined(alloc: Global, top: &str, rest: &str) -> Result<String, AllocError> {
    let mut text = Draft::new(alloc);
    if top != "/" || rest.is_empty() || rest == "/" {
        text.push(top);
    }
    if rest != "/" {
        text.push(rest);
    }
    text.end()
}

/// The last name of a path.
pub fn last_name(path: &str) -> &str {
    match path.rsplit_once('/') {
        Some((_, name)) => name,
        None => path,
    }
}

/// A text that is owned.
pub fn owned(alloc: Global, text: &str) -> Result<String, AllocError> {
    String::from_str(alloc, text)
}
