//! The words of a line, with their places.
use crate::finding::Diagnosis;
use vt_line::version::Version;

/// A word, and the column where it begins, counted from 0.
#[derive(Clone, Copy)]
pub struct Word<'a> {
    pub column: usize,
    pub text: &'a str,
}

/// A line with its words, in a version of the language.
#[derive(Clone, Copy)]
pub struct Given<'a> {
    pub version: Version,
    pub text: &'a str,
    pub words: &'a [Word<'a>],
}

impl<'a> Given<'a> {
    /// The words behind the task and the call.
    pub fn arguments(self) -> &'a [Word<'a>] {
        self.words.get(2..).unwrap_or_default()
    }
}

/// The parts of a word between these marks; between spaces only those that are not empty. An allocation that fails is
/// noted with the diagnosis.
pub fn parts_of<'a>(found: &mut Diagnosis, word: Word<'a>, marks: [char; 2]) -> Vec<Word<'a>> {
    let mut parts = Vec::new(found.alloc);
    let mut column = word.column;
    for text in word.text.split(marks) {
        let is_part = !text.is_empty() || marks[0] != ' ';
        if is_part && parts.push(Word { column, text }).is_err() {
            found.fail();
        }
        column = column.saturating_add(text.len()).saturating_add(1);
    }
    parts
}

/// The word at this place of a line, counted from 0, or its first column where there is none.
pub fn word_at(line: &str, place: usize) -> Word<'_> {
    let mut column: usize = 0;
    let mut left = place;
    for text in line.split(' ') {
        if !text.is_empty() && left == 0 {
            return Word { column, text };
        }
        if !text.is_empty() {
            left -= 1;
        }
        column = column.saturating_add(text.len()).saturating_add(1);
    }
    Word {
        column: 0,
        text: " ",
    }
}
