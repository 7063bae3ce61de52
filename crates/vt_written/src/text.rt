//! The text of objects, each of an answer.
ghost use Rattle.std.specs.Prelude.{◌≡◌, [], IfOk, OnOk, false};
ghost use Rattle.vt_written.specs.Json.{json_text};
ghost use Rattle.vt_written.specs.Objects.{Pushes, PushesEnd, PushesObject, PushesSome};

use crate::denial::{denial_of, split_word};
use crate::json::push_text;
use std::alloc::{AllocError, Global};

// What stands before all answers.
const HEAD: &[u8] = b"{\"format\":1,\"kind\":\"output\"}\n";

// The first word of an answer that is no denial.
const OK: &[u8] = b"ok";

/// The text of objects. An allocation that fails is noted, and told where the text is asked for.
#[derive(Drop)]
pub struct Text {
    bytes: Vec<u8>,
    failed: bool,
}

impl Text {
    /// The text that stands before all answers.
    pub fn new(alloc: Global) -> Self {
        let mut text = Text {
            bytes: Vec::new(alloc),
            failed: false,
        };
        text.push(HEAD);
        text
    }

    /// The text, if no allocation failed.
    pub fn bytes(&self) -> Result<&[u8], AllocError>
        ensures text { IfOk result (λ bytes. bytes.now ≡ self.now.bytes.items) }
        ensures failed { OnOk result (self.now.failed ≡ false) }
    {
        if self.failed {
            Err(AllocError)
        } else {
            Ok(self.bytes.as_slice())
        }
    }

    /// The empty text.
    pub fn clear(&mut self)
        ensures text { self.new.bytes.items ≡ [] }
        ensures failed { self.new.failed ≡ self.old.failed }
    {
        self.bytes.clear();
    }

    fn push(&mut self, part: &[u8])
        ensures { Pushes part.now self.old self.new }
    {
        self.failed |= self.bytes.extend_from_slice(part).is_err();
    }

    fn push_text(&mut self, bytes: &[u8])
        ensures { Pushes (json_text bytes.now) self.old self.new }
    {
        self.failed |= push_text(&mut self.bytes, bytes).is_err();
    }

    fn push_comma(&mut self, place: usize)
        ensures { PushesSome self.old self.new }
    {
        if place > 0 {
            self.push(b",");
        }
    }

    // Appends words as a list of texts.
    fn push_words(&mut self, words: &[u8])
        ensures { PushesSome self.old self.new }
    {
        self.push(b"[");
        if !words.is_empty() {
            for (place, word) in words.split(|byte| *byte == b' ').enumerate() {
                self.push_comma(place);
                self.push_text(word);
            }
        }
        self.push(b"]");
    }

    // Appends a line of an answer: its text, or the words of its value.
    fn push_line(&mut self, line: &[u8], are_words: bool)
        ensures { PushesSome self.old self.new }
    {
        let (_, text) = split_word(line);
        if !are_words {
            return self.push_text(text);
        }
        let (first, rest) = split_word(text);
        self.push_words(if first == OK { rest } else { text });
    }

    // Appends the lines of an answer as a list, each as its text, or as the words of its value.
    fn push_lines(&mut self, answer: &[u8], are_words: bool)
        ensures { PushesSome self.old self.new }
    {
        self.push(b"[");
        for (place, line) in answer.split(|byte| *byte == b'\n').enumerate() {
            if !line.is_empty() {
                self.push_comma(place);
                self.push_line(line, are_words);
            }
        }
        self.push(b"]");
    }

    // Appends what an answer is granted or refused by, after its lines.
    fn push_outcome(&mut self, number: &[u8], answer: &[u8])
        ensures { PushesEnd self.old self.new }
    {
        let first = answer.split(|byte| *byte == b'\n').next();
        let (_, first) = split_word(first.unwrap_or_default());
        match denial_of(first) {
            Some(denial) => {
                self.push(b",\"errno\":");
                self.push(denial.errno);
                self.push(b",\"error\":");
                self.push_text(denial.error);
                self.push(b",\"granted\":false,\"kind\":\"answer\",\"line\":");
                self.push(number);
                self.push(b",\"rule\":");
                self.push_text(denial.rule);
                self.push(b",\"values\":[]");
                self.push(b"}\n");
            }
            None => {
                self.push(
                    b",\"errno\":null,\"error\":null,\"granted\":true,\"kind\":\"answer\",\"line\":",
                );
                self.push(number);
                self.push(b",\"rule\":null,\"values\":");
                self.push_lines(answer, true);
                self.push(b"}\n");
            }
        }
    }

    /// Appends the object of an answer: the lines of a run that have the number of one line, each with its newline.
    pub fn push_answer(&mut self, answer: &[u8])
        ensures { PushesObject self.old self.new }
    {
        let (number, _) = split_word(answer);
        self.push(b"{\"answer\":");
        self.push_lines(answer, false);
        self.push_outcome(number, answer);
    }
}
