//! Causes of the rules on the texts of paths, and on walks.
use crate::refusal::Refusal;
use vt_causes::asked::{PathAsked, first_path, second_path};
use vt_causes::{Cause, MOST_LINKS};
use vt_location::Location;
use vt_looks::Look;
use vt_request::{Call, CallKind, MakeCall};
use vt_rules::is_directory;
use vt_spec::errors::Rule;
use vt_text::link;
use vt_text::path::{LONGEST_NAME, LONGEST_PATH};

// Words on an empty text of a symlink, and on empty paths.
static EMPTY: [&str; 3] = [
    "the text of the symlink is empty",
    "the first path is empty",
    "the second path is empty",
];

// The text of a path, if there is one.
fn text_of<'a>(asked: Option<PathAsked<'a>>) -> Option<&'a [u8]> {
    Some(asked?.text)
}

// How many bytes the longest name of a path has.
fn longest_name(path: Option<&[u8]>) -> usize {
    let mut longest = 0;
    for name in link::words(path.unwrap_or_default()) {
        longest = name.len().max(longest);
    }
    longest
}

impl<'a> Refusal<'a> {
    /// The text of a symlink that is made, and the paths of the call.
    pub(crate) fn texts(&self) -> [Option<&'a [u8]>; 3] {
        let symlink = match self.call {
            Call::Make(MakeCall::Symlink { text, .. }) => Some(*text),
            _ => None,
        };
        [
            symlink,
            text_of(first_path(self.call)),
            text_of(second_path(self.call)),
        ]
    }

    /// W1: which text is empty.
    pub(crate) fn of_empty_text(&self) -> Cause<'a> {
        let texts = self.texts();
        for (text, words) in texts.iter().zip(&EMPTY) {
            if matches!(text, Some(text) if text.is_empty()) {
                return self.told(*words);
            }
        }
        self.told("the path of a layer is empty")
    }

    /// W2: how long the text is, or the name.
    pub(crate) fn of_long_text(&self) -> Cause<'a> {
        for text in self.texts() {
            let length = text.unwrap_or_default().len();
            if length > LONGEST_PATH {
                let words = "a path or a text has {count} bytes, and {limit} are the most";
                return self.told(words).counted(length, LONGEST_PATH);
            }
        }
        let [_, first, second] = self.texts();
        let in_paths = longest_name(first).max(longest_name(second));
        // In the text of a symlink the walk stops at the name.
        let length = in_paths.max(self.word.len());
        if length > LONGEST_NAME {
            let words = "a name has {count} bytes, and {limit} are the most";
            return self.told(words).counted(length, LONGEST_NAME);
        }
        let words = "the path of a layer has more than {limit} bytes";
        self.told(words).counted(0, LONGEST_PATH)
    }

    /// A rule that stopped a walk: what stands where it was.
    pub(crate) fn of_walk(&self, words: &'static str) -> Option<Cause<'a>> {
        let cause = self.told_of(words, self.walks.halted()?);
        Some(cause.counted(MOST_LINKS.saturating_add(1), MOST_LINKS))
    }

    // W3 of a bind of a file onto a file, which is not modelled.
    fn of_bound_file(&self) -> Option<Cause<'a>> {
        let (source, place) = (self.walks.first_end()?, self.walks.second_end()?);
        let are_files = !is_directory(self.world, source) && !is_directory(self.world, place);
        if self.call.kind() != CallKind::Bind || !are_files {
            return None;
        }
        let words =
            "{at} is {type}, and a directory is needed; Linux binds files too, so later answers may differ there";
        Some(self.told_of(words, source))
    }

    /// W3: what is no directory, on the way or where a path leads.
    pub(crate) fn of_no_directory(&self, words: &'static str) -> Option<Cause<'a>> {
        if let Some(cause) = self.of_bound_file() {
            return Some(cause);
        }
        let names_files = matches!(self.call.kind(), CallKind::Rename | CallKind::Link);
        for walked in self.walks.all() {
            let Some(walked) = walked else {
                continue;
            };
            if walked.stopped == Some(Rule::W3) {
                return Some(self.told_of(words, walked.directory));
            }
            match walked.end {
                Some(end) if !names_files && !is_directory(self.world, end) => {
                    return Some(self.told_of(words, end));
                }
                _ => {}
            }
        }
        self.of_place(words)
    }

    // W8: words on such a directory.
    fn of_directory(&self, at: Location) -> Cause<'a> {
        if !self.world.is_removed(at) {
            let words = "the directory has left the tree that mount {mount} shows";
            return self.told_of(words, at);
        }
        if self.who.directory.is_same(at) {
            let words = "the working directory of {task} is removed{since}";
            return self.told_of(words, at);
        }
        self.told_of("the directory is removed{since}", at)
    }

    /// W8: the directory that is removed, or that lies under its mount no more.
    pub(crate) fn of_removed(&self) -> Option<Cause<'a>> {
        for walked in self.walks.all() {
            let Some(walked) = walked else {
                continue;
            };
            let at = walked.end.unwrap_or(walked.directory);
            if walked.stopped == Some(Rule::W8) || self.world.is_removed(at) {
                return Some(self.of_directory(at));
            }
        }
        None
    }
}
