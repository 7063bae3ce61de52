//! Texts that are written in parts.
use crate::words::Word;
use std::alloc::{AllocError, Global};
use std::fmt::Write;

/// A text that is written in parts. An allocation that fails is noted, and told at the end alone.
#[derive(Drop)]
pub struct Draft {
    text: String,
    failed: bool,
}

impl Draft {
    /// The empty text.
    pub fn new(alloc: Global) -> Self {
        Draft {
            text: String::new(alloc),
            failed: false,
        }
    }

    /// How long it is so far.
    pub fn len(&self) -> usize {
        self.text.len()
    }

    /// The text, if no allocation failed.
    pub fn end(self) -> Result<String, AllocError> {
        if self.failed {
            Err(AllocError)
        } else {
            Ok(self.text)
        }
    }

    /// Whether it ends like this so far.
    pub fn ends_with(&self, end: &str) -> bool {
        self.text.ends_with(end)
    }

    /// Whether an allocation failed so far.
    pub fn is_failed(&self) -> bool {
        self.failed
    }

    /// Notes that an allocation failed.
    pub fn fail(&mut self) {
        self.failed = true;
    }

    /// Appends another text, or notes that it failed.
    pub fn push_draft(&mut self, other: &Draft) {
        self.failed |= other.failed;
        self.push(other.text.as_str());
    }

    /// Appends a part of another text, from one byte to another, or notes that it failed.
    pub fn push_part(&mut self, other: &Draft, begin: usize, end: usize) {
        self.failed |= other.failed;
        self.push(other.text.as_str().get(begin..end).unwrap_or_default());
    }

    /// Appends a part.
    pub fn push(&mut self, part: &str) {
        self.failed |= self.text.push_str(part).is_err();
    }

    /// Appends a character.
    pub fn push_char(&mut self, character: char) {
        self.failed |= self.text.push(character).is_err();
    }

    /// Appends a character so often.
    pub fn push_times(&mut self, character: char, times: usize) {
        for _ in 0..times {
            self.push_char(character);
        }
    }

    /// Appends a part with capital letters alone, or with none.
    pub fn push_in_case(&mut self, part: &str, is_upper: bool) {
        for character in part.chars() {
            self.push_char(if is_upper {
                character.to_ascii_uppercase()
            } else {
                character.to_ascii_lowercase()
            });
        }
    }

    /// Appends a number.
    pub fn push_number(&mut self, number: u64) {
        self.failed |= write!(self.text, "{number}").is_err();
    }

    /// Appends a number in octal digits, of which there are at least so many.
    pub fn push_octal(&mut self, number: u16, digits: usize) {
        self.failed |= write!(self.text, "{number:0digits$o}").is_err();
    }

    /// Appends a byte as it is shown: itself, or `\xhh` where it is not printed.
    pub fn push_byte(&mut self, byte: u8) {
        if matches!(byte, 0x20..=0x7e) {
            self.push_char(char::from(byte));
        } else {
            self.push_escape(byte);
        }
    }

    /// Appends the escape of a byte, `\xhh`.
    pub fn push_escape(&mut self, byte: u8) {
        self.failed |= write!(self.text, "\\x{byte:02x}").is_err();
    }

    /// Appends bytes as they are shown.
    pub fn push_bytes(&mut self, bytes: &[u8]) {
        for byte in bytes {
            self.push_byte(*byte);
        }
    }

    /// Appends a form, with the parts in the places of its `{}`, one after the other.
    pub fn fill(&mut self, form: &str, parts: &[&str]) {
        let mut rest = form;
        for part in parts {
            if let Some((text, after)) = rest.split_once("{}") {
                self.push(text);
                self.push(part);
                rest = after;
            }
        }
        self.push(rest);
    }

    /// Appends what a line without a number begins with: a space for each digit of the number of the line above, and a
    /// mark.
    pub fn push_margin(&mut self, number: u64, mark: &str) {
        let log = number.checked_ilog10().unwrap_or_default();
        self.push_times(' ', (log as usize).saturating_add(1));
        self.push(mark);
    }

    /// Appends a part, behind this mark if there is text before it.
    pub fn push_after(&mut self, mark: &str, part: &str) {
        if !self.text.is_empty() {
            self.push(mark);
        }
        self.push(part);
    }

    /// Appends a part if there is no text before it.
    pub fn push_if_empty(&mut self, part: &str) {
        if self.text.is_empty() {
            self.push(part);
        }
    }

    /// Appends a word, behind a space if there is one before it.
    pub fn push_word(&mut self, word: &str) {
        self.push_after(" ", word);
    }

    /// Appends words, behind one space each.
    pub fn push_words(&mut self, words: &[Word<'_>]) {
        for word in words {
            self.push_word(word.text);
        }
    }
}
