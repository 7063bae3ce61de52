//! Tables of text, each column as wide as its widest word.
use crate::cells::{Cell, push_cell};
use crate::places::push_place;
use std::alloc::Global;
use vt_check::draft::Draft;
use vt_location::Location;
use vt_ns::World;

/// What stands between two columns.
const GAP: usize = 2;

/// A word of a table: its column, and where it stands among all words.
#[derive(Clone, Copy)]
pub struct Word {
    pub column: usize,
    pub begin: usize,
    pub end: usize,
}

/// Rows of words. A row may end before the last column; its last word is not padded.
#[derive(Drop)]
pub struct Table {
    /// All words, one behind the other. What is appended to it belongs to the word that ends next.
    pub text: Draft,
    /// The words, from the first row on.
    pub words: Vec<Word>,
    widths: Vec<usize>,
    // The column of the next word, and where it begins.
    column: usize,
    begin: usize,
}

impl Table {
    /// A table with these words above its columns.
    pub fn new(alloc: Global, heads: &[&str]) -> Self {
        let mut table = Table {
            text: Draft::new(alloc),
            words: Vec::new(alloc),
            widths: Vec::new(alloc),
            column: 0,
            begin: 0,
        };
        for head in heads {
            if table.widths.push(0).is_err() {
                table.text.fail();
            }
            table.text.push(*head);
            table.end_word();
        }
        table.end_row();
        table
    }

    /// How long the next word is so far.
    pub fn written(&self) -> usize {
        self.text.len().saturating_sub(self.begin)
    }

    /// Ends a word. Its column is as wide as the word at least.
    pub fn end_word(&mut self) {
        let written = self.written();
        if let Some(width) = self.widths.get_mut(self.column) {
            *width = (*width).max(written);
        }
        let word = Word {
            column: self.column,
            begin: self.begin,
            end: self.text.len(),
        };
        if self.words.push(word).is_err() {
            self.text.fail();
        }
        self.column = self.column.saturating_add(1);
        self.begin = word.end;
    }

    /// Ends a row.
    pub fn end_row(&mut self) {
        self.column = 0;
    }

    /// Adds a word, or the end of one that was begun.
    pub fn add(&mut self, word: &Cell<'_>) {
        push_cell(&mut self.text, word);
        self.end_word();
    }

    /// Adds where an object is.
    pub fn add_place(&mut self, world: &World, at: Location) {
        push_place(world, at, &mut self.text);
        self.end_word();
    }

    /// Adds words.
    pub fn add_words(&mut self, words: &[Cell<'_>]) {
        for word in words {
            self.add(word);
        }
    }

    /// Adds words, which end a row.
    pub fn add_row(&mut self, words: &[Cell<'_>]) {
        self.add_words(words);
        self.end_row();
    }

    /// Appends the rows, behind a newline each, and a newline.
    pub fn write(&self, text: &mut Draft) {
        // Of no word too it is told that an allocation failed.
        text.push_part(&self.text, 0, 0);
        let mut length: usize = 0;
        for word in &self.words {
            match word.column.checked_sub(1) {
                Some(before) => {
                    let width = self.widths.get(before).copied().unwrap_or_default();
                    text.push_times(' ', width.saturating_sub(length).saturating_add(GAP));
                }
                None => text.push_char('\n'),
            }
            text.push_part(&self.text, word.begin, word.end);
            length = word.end.saturating_sub(word.begin);
        }
        text.push_char('\n');
    }
}
