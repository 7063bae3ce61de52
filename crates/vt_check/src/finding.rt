//! What is found in a line, and what is proposed in its place.
use crate::draft::Draft;
use std::alloc::Global;
use vt_line::version::Version;
use vt_lines::proposal::Proposal;

/// What is wrong with a line, where, and what to write in its place. An allocation that fails is noted with the
/// message.
#[derive(Drop)]
pub struct Diagnosis {
    pub version: Version,
    pub alloc: Global,
    /// From which column on, counted from 0, and how many.
    pub column: usize,
    pub width: usize,
    pub message: Draft,
    /// Lines to write, one after the other, and words about them. Either may be empty.
    pub lines: Vec<Proposal>,
    pub words: &'static str,
    /// What else is to be known, or nothing.
    pub note: &'static str,
}

impl Diagnosis {
    /// Nothing yet.
    pub fn new(version: Version, alloc: Global) -> Self {
        Diagnosis {
            version,
            alloc,
            column: 0,
            width: 0,
            message: Draft::new(alloc),
            lines: Vec::new(alloc),
            words: "",
            note: "",
        }
    }

    /// An empty text.
    pub fn draft(&self) -> Draft {
        Draft::new(self.alloc)
    }

    /// Says of a whole line what is wrong with it and what to write, and that something is wrong.
    pub fn tell(&mut self, line: &[u8], (message, words): (&str, &'static str)) -> bool {
        self.width = line.len();
        self.message.push(message);
        self.words = words;
        true
    }

    /// Notes that an allocation failed.
    pub fn fail(&mut self) {
        self.message.fail();
    }

    /// The text, or nothing where an allocation failed, which is noted.
    pub fn ended(&mut self, text: Draft) -> Option<String> {
        match text.end() {
            Ok(text) => Some(text),
            Err(_) => {
                self.fail();
                None
            }
        }
    }

    /// Proposes the text as a line, if a run takes it, and says whether it does.
    pub fn propose(&mut self, text: Draft) -> bool {
        let Some(text) = self.ended(text) else {
            return false;
        };
        match Proposal::new(self.version, self.alloc, text) {
            Ok(Some(line)) => {
                if self.lines.push(line).is_err() {
                    self.fail();
                }
                true
            }
            Ok(None) => false,
            Err(_) => {
                self.fail();
                false
            }
        }
    }
}
