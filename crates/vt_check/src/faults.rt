//! What is wrong with the words of a refused line: the first of them that no line could have there.
use crate::finding::Diagnosis;
use crate::grammar::{CallWords, Kind, MOUNT_OVERLAY, PEERS, SEALED, call_named};
use crate::unmodelled::unmodelled_in;
use crate::words::{Given, Word, parts_of};
use vt_line::version::Version;
use vt_lines::reading::is_taken;
use vt_request::request::MOST_NAMED_TASKS;

/// What is wrong.
#[derive(Clone, Copy)]
pub enum Wrong {
    /// The first word is no task.
    NoTask,
    NoCall,
    NoDirective,
    /// The line ends behind its task, or behind `!`.
    LacksCall,
    /// A word of version 2 of the language, where version 1 is read, and what it is there.
    OfSecond(&'static str),
    /// A word of Linux that is not modelled, what comes nearest, and of which kind the word at its place is to be, if
    /// it is one that is bad.
    Unmodelled(&'static str, Option<Kind>),
    /// A word that begins as an option, where calls have none.
    NoOption(&'static CallWords),
    /// A word that is not of its kind, or has a part that is not, and what this is to be.
    Bad(Kind, &'static str),
    /// A word more than the call takes.
    Further(&'static CallWords),
    /// The line ends before a word of this kind that the call takes.
    Lacks(&'static CallWords, Kind),
    /// None of these.
    Other,
}

/// What is wrong with a line, and where.
#[derive(Clone, Copy)]
pub struct Fault<'a> {
    pub wrong: Wrong,
    /// The place among the line's words of the one at fault, or behind the last where one is missing.
    pub place: usize,
    /// What is at fault: that word, or one of the texts between its commas, or the place behind the last, as a word of
    /// one column.
    pub word: Word<'a>,
}

impl<'a> Fault<'a> {
    // A fault of the whole word at this place of a line.
    fn at(line: Given<'a>, place: usize, wrong: Wrong) -> Self {
        let word = match line.words.get(place) {
            Some(word) => *word,
            None => Word {
                column: line.text.trim_end().len(),
                text: " ",
            },
        };
        Fault { wrong, place, word }
    }

    /// Writes it in one sentence as the message, and what else is to be known of it.
    pub fn write(self, found: &mut Diagnosis) {
        let word = self.word.text;
        // Of both parts a form takes as many as it has places.
        let (form, first, second) = match self.wrong {
            Wrong::NoTask => ("no task `{}`", word, word),
            Wrong::NoCall => ("no call `{}`", word, word),
            Wrong::NoDirective => ("no directive `{}`", word, word),
            Wrong::LacksCall => ("the line ends before its call", word, word),
            Wrong::OfSecond(what) => ("`{}` is a {} of script version 2", word, what),
            Wrong::Unmodelled(..) => ("`{}` is not modelled", word, word),
            Wrong::NoOption(call) => ("`{}` has no option `{}`", call.name, word),
            Wrong::Bad(_, meant) => {
                if meant.starts_with('`') {
                    ("`{}` is not {}", word, meant)
                } else {
                    ("`{}` is no {}", word, meant)
                }
            }
            Wrong::Further(call) => {
                if call.name == "sealed" {
                    found.note = "at most 64 tasks are named";
                }
                ("`{}` is a word too many for {}", word, call.usage)
            }
            Wrong::Lacks(call, kind) => {
                let name = call.name_at(self.place, kind);
                ("the line ends before {} of {}", name, call.usage)
            }
            Wrong::Other => ("not a line of the grammar", word, word),
        };
        found.message.fill(form, &[first, second]);
    }
}

// Whether a word is of a kind: whether a run takes it in the line of that kind.
fn fits(found: &mut Diagnosis, kind: Kind, text: &str) -> bool {
    let words = kind.words(found.version);
    let mut line = found.draft();
    line.push(words.before);
    line.push(text);
    line.push(words.after);
    let Some(line) = found.ended(line) else {
        return true;
    };
    match is_taken(found.version, found.alloc, line.as_bytes()) {
        Ok(is_taken) => is_taken,
        Err(_) => {
            found.fail();
            true
        }
    }
}

// Whether a word is written as an option where none stands.
fn is_option(kind: Kind, text: &str) -> bool {
    matches!(kind, Kind::Path | Kind::Filesystem | Kind::Options)
        && text.len() > 1
        && text.starts_with('-')
}

// What is wrong with a bad word at this place of a call's line: a flag that only version 2 knows, the first text
// between its commas that is bad alone, or the word itself.
fn of_word<'a>(
    found: &mut Diagnosis,
    call: &CallWords,
    place: usize,
    kind: Kind,
    word: Word<'a>,
) -> Fault<'a> {
    let is_first = matches!(found.version, Version::One);
    let name = kind.words(found.version).part;
    let parts = parts_of(found, word, [',', ',']);
    let has_parts = parts.len() > 1 && !name.is_empty();
    for part in &parts {
        let wrong = if is_first && matches!((kind, part.text), (Kind::Flags, "nosymfollow")) {
            Wrong::OfSecond("flag")
        } else if has_parts && !fits(found, kind, part.text) {
            Wrong::Bad(kind, name)
        } else {
            continue;
        };
        return Fault {
            wrong,
            place,
            word: *part,
        };
    }
    Fault {
        wrong: Wrong::Bad(kind, call.name_at(place, kind)),
        place,
        word,
    }
}

// What is wrong with the words of a call.
fn of_call<'a>(found: &mut Diagnosis, line: Given<'a>, call: &'static CallWords) -> Fault<'a> {
    let mut place: usize = 2;
    for kind in call.words {
        let Some(word) = line.words.get(place) else {
            let wrong = if place == call.needed.saturating_add(2) {
                Wrong::Other
            } else {
                Wrong::Lacks(call, *kind)
            };
            return Fault::at(line, place, wrong);
        };
        if is_option(*kind, word.text) {
            return Fault::at(line, place, Wrong::NoOption(call));
        }
        if !fits(found, *kind, word.text) {
            return of_word(found, call, place, *kind, *word);
        }
        place = place.saturating_add(1);
    }
    let wrong = if line.words.len() > place {
        Wrong::Further(call)
    } else {
        Wrong::Other
    };
    Fault::at(line, place, wrong)
}

// What is wrong with the tasks that `sealed` names.
fn of_sealed<'a>(found: &mut Diagnosis, line: Given<'a>) -> Fault<'a> {
    if line.arguments().is_empty() {
        return Fault::at(line, 2, Wrong::Lacks(&SEALED, Kind::Task));
    }
    let most = MOST_NAMED_TASKS.saturating_add(2);
    for (place, word) in line.words.iter().enumerate().skip(2) {
        if place == most {
            return Fault::at(line, place, Wrong::Further(&SEALED));
        }
        if !fits(found, Kind::Task, word.text) {
            return Fault::at(line, place, Wrong::Bad(Kind::Task, "TASK"));
        }
    }
    Fault::at(line, 1, Wrong::Other)
}

// The call of this name, in a version of the language, as its first word says which it is.
fn call_of(line: Given<'_>, name: &str) -> Option<&'static CallWords> {
    match line.words.get(2) {
        Some(word) if name == "mount" && word.text == "overlay" => Some(&MOUNT_OVERLAY),
        _ => call_named(line.version, name),
    }
}

// Whether a call of this name is given bytes, in which each word may stand.
fn takes_bytes(line: Given<'_>, name: &str) -> bool {
    match call_of(line, name) {
        Some(call) => matches!(call.words.last(), Some(Kind::Bytes)),
        None => false,
    }
}

// What is wrong with a task's line that has a call.
fn of_task<'a>(found: &mut Diagnosis, line: Given<'a>, name: &str) -> Fault<'a> {
    let mut fault = match call_of(line, name) {
        Some(call) => of_call(found, line, call),
        None => {
            let wrong = match call_named(Version::Two, name) {
                Some(_) => Wrong::OfSecond("call"),
                None => Wrong::NoCall,
            };
            Fault::at(line, 1, wrong)
        }
    };
    if matches!(fault.wrong, Wrong::OfSecond(_)) {
        return fault;
    }
    if takes_bytes(line, name) {
        return fault;
    }
    if let Some((word, said)) = unmodelled_in(found, line.arguments()) {
        let kind = match fault.wrong {
            Wrong::Bad(kind, _) => Some(kind),
            _ => None,
        };
        fault.wrong = Wrong::Unmodelled(said, kind);
        fault.word = word;
    }
    fault
}

/// The first fault of a refused line whose bytes are all good. An allocation that fails is noted with the diagnosis.
pub fn first_fault<'a>(found: &mut Diagnosis, line: Given<'a>) -> Fault<'a> {
    let Some(who) = line.words.first() else {
        return Fault::at(line, 0, Wrong::Other);
    };
    let is_directive = who.text == "!";
    if !is_directive && !fits(found, Kind::Task, who.text) {
        return Fault::at(line, 0, Wrong::NoTask);
    }
    let Some(name) = line.words.get(1) else {
        return Fault::at(line, 1, Wrong::LacksCall);
    };
    match name.text {
        name if !is_directive => of_task(found, line, name),
        "peers" => of_call(found, line, &PEERS),
        "sealed" => of_sealed(found, line),
        _ => Fault::at(line, 1, Wrong::NoDirective),
    }
}
