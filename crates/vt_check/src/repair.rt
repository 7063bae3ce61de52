//! Lines that are proposed in the place of a refused one.
use crate::faults::{Fault, Wrong};
use crate::finding::Diagnosis;
use crate::grammar::{CallWords, Kind, call_named};
use crate::nearest::{nearest_call, write_corrected};
use crate::rewrites::{is_known, rewrite};
use crate::words::{Given, Word};

const DIRECTIVES: &str = "the directives are `! peers` and `! sealed TASK ..`";

const LINE: &str = "a line is a task, a call and its words; a comment begins with `#`";

const SECOND: &str =
    "`--script 2` reads the file in that version, and so does a first line `#!vtree --script 2`";

const QUOTES: &str = "words have no quotes: a space in a word is `\\x20`";

const SET_ID: &str =
    "the bits of set-user-ID and set-group-ID are not modelled; MODE is at most 1777";

// Proposes the words before a place, a text if there is one, and the words from another place on as a line.
fn propose_between(
    found: &mut Diagnosis,
    words: &[Word<'_>],
    before: usize,
    text: &str,
    after: usize,
) -> bool {
    let mut line = found.draft();
    line.push_words(words.get(..before).unwrap_or(words));
    if !text.is_empty() {
        line.push_word(text);
    }
    line.push_words(words.get(after..).unwrap_or_default());
    found.propose(line)
}

// Proposes this text as a line.
fn propose_text(found: &mut Diagnosis, before: &str, text: &str) -> bool {
    let mut line = found.draft();
    line.push(before);
    line.push(text);
    found.propose(line)
}

// Proposes the line with what the word at this place means, as one of this kind.
fn mend(found: &mut Diagnosis, line: Given<'_>, kind: Kind, place: usize) -> bool {
    let Some(word) = line.words.get(place) else {
        return false;
    };
    let mut text = found.draft();
    let is_clear = write_corrected(found, kind, word.text, &mut text);
    let Some(text) = found.ended(text) else {
        return false;
    };
    let next = place.saturating_add(1);
    let is_mended = is_clear && propose_between(found, line.words, place, text.as_str(), next);
    if is_mended && matches!(kind, Kind::Mode) && word.text.contains(['=', '+']) {
        found.words = kind.words(line.version).said;
    }
    is_mended
}

// Proposes the line with its words from one on as one word, with spaces and without the quotes around them.
fn join_words(found: &mut Diagnosis, line: Given<'_>, first: usize) -> bool {
    let mut rest = found.draft();
    for word in line.words.get(first..).unwrap_or_default() {
        rest.push_after("\\x20", word.text);
    }
    let Some(rest) = found.ended(rest) else {
        return false;
    };
    let text = rest.as_str().trim_matches(['"', '\'']);
    propose_between(found, line.words, first, text, usize::MAX)
}

// Proposes the line with a plain word for each that is missing.
fn complete(found: &mut Diagnosis, line: Given<'_>, call: &CallWords) -> bool {
    let mut text = found.draft();
    text.push_words(line.words);
    let given = line.arguments().len();
    let end = if given < call.needed {
        call.needed
    } else {
        call.words.len()
    };
    for kind in call.words.get(given..end).unwrap_or_default() {
        let plain = kind.words(line.version).plain;
        if plain.is_empty() {
            return false;
        }
        text.push_word(plain);
    }
    found.propose(text)
}

// Proposes a line of a shell, whose words begin at this place, as one of the first task.
fn help_shell(found: &mut Diagnosis, line: Given<'_>, first: usize) -> bool {
    let words = line.words.get(first..).unwrap_or_default();
    let Some(call) = words.first() else {
        return false;
    };
    if !is_known(call.text) && call_named(line.version, call.text).is_none() {
        return false;
    }
    let mut all = Vec::new(found.alloc);
    let task = Word {
        column: 0,
        text: "t",
    };
    if all.push(task).is_err() || all.extend_from_slice(words).is_err() {
        found.fail();
        return false;
    }
    let given = Given {
        words: all.as_slice(),
        ..line
    };
    propose_between(found, given.words, usize::MAX, "", usize::MAX) || rewrite(found, given)
}

// Help where a word is no task: a comment, the task that is missing before a call, or the task that is meant.
fn help_task(found: &mut Diagnosis, line: Given<'_>, who: &str) {
    let is_comment = who.starts_with("//") || who.starts_with(';') || who.starts_with("--");
    let is_helped = if is_comment {
        let text = line.text.trim_start_matches([' ', '/', ';', '-']);
        propose_text(found, "# ", text)
    } else {
        let first = if matches!(who, "sudo" | "$") { 1 } else { 0 };
        help_shell(found, line, first) || mend(found, line, Kind::Task, 0)
    };
    if !is_helped {
        found.words = if is_comment {
            LINE
        } else {
            Kind::Task.words(line.version).said
        };
    }
}

// Help where a word is no call: the call whose name is like it.
fn help_call(found: &mut Diagnosis, line: Given<'_>, name: &str) {
    if is_known(name) {
        return;
    }
    if let Some(call) = nearest_call(found, name) {
        if !propose_between(found, line.words, 1, call.name, 2) {
            found.words = call.usage;
        }
    }
}

// Help where there is a word too many: a comment behind the line, or bytes with spaces.
fn help_further(found: &mut Diagnosis, line: Given<'_>, call: &CallWords) {
    for (place, word) in line.words.iter().enumerate() {
        if word.text.starts_with('#') {
            if propose_between(found, line.words, place, "", usize::MAX) {
                found.words = "a comment stands on a line of its own";
                return;
            }
            break;
        }
    }
    match call.words.last() {
        Some(Kind::Bytes) => {
            if !join_words(found, line, call.words.len().saturating_add(1)) {
                found.words = Kind::Bytes.words(line.version).said;
            }
        }
        None if matches!(call.name, "peers") => {
            propose_text(found, "! peers", "");
        }
        _ => {}
    }
}

// Help where a directory is to be made with its parents: a line for each, the outer one first.
fn help_parents(found: &mut Diagnosis, line: Given<'_>) -> bool {
    let (Some(who), Some(path)) = (line.words.first(), line.words.last()) else {
        return false;
    };
    for (place, byte) in path.text.as_bytes().iter().enumerate() {
        let is_end = *byte == b'/';
        let end = if is_end {
            place
        } else {
            place.saturating_add(1)
        };
        if place > 0 && (is_end || end == path.text.len()) {
            let mut text = found.draft();
            let path = path.text.get(..end).unwrap_or(path.text);
            text.fill("{} mkdir {}", &[who.text, path]);
            found.propose(text);
        }
    }
    if found.lines.len() >= 9 {
        found.lines.clear();
        return false;
    }
    found.words = "`mkdir` makes one directory a line";
    true
}

// Proposes the line with the words of a text in quotes as one word, and says whether there is one.
fn join_quoted(found: &mut Diagnosis, line: Given<'_>) -> bool {
    let mut text = found.draft();
    let mut is_open = false;
    let mut has_quotes = false;
    for word in line.words {
        let begins = !is_open && word.text.starts_with(['"', '\'']);
        let ends = (is_open || begins) && word.text.ends_with(['"', '\'']);
        text.push_after(
            if is_open { "\\x20" } else { " " },
            word.text.trim_matches(['"', '\'']),
        );
        has_quotes |= begins;
        is_open = (is_open || begins) && !ends;
    }
    has_quotes && !is_open && found.propose(text)
}

// Whether a mode has the bits of set-user-ID or set-group-ID.
fn has_set_id(text: &str) -> bool {
    matches!(u16::from_str_radix(text, 8), Ok(0o2000..=0o7777))
}

// Help for a fault, where no row of the rewritten calls fits.
fn help_fault(found: &mut Diagnosis, line: Given<'_>, fault: Fault<'_>) {
    let word = fault.word.text;
    found.words = match fault.wrong {
        Wrong::NoTask => return help_task(found, line, word),
        Wrong::NoCall if matches!(word, "peers" | "sealed") => {
            propose_between(found, line.words, 0, "!", 1);
            return;
        }
        Wrong::NoCall => return help_call(found, line, word),
        Wrong::NoDirective if call_named(line.version, word).is_some() => {
            propose_between(found, line.words, 0, "t", 1);
            return;
        }
        Wrong::NoDirective => DIRECTIVES,
        Wrong::Bad(Kind::Mode, _) if has_set_id(word) => SET_ID,
        Wrong::Bad(Kind::Propagation, _) if mend(found, line, Kind::Propagation, fault.place) => {
            return;
        }
        Wrong::Lacks(call, _) if complete(found, line, call) => return,
        Wrong::Bad(kind, _) | Wrong::Lacks(_, kind) => kind.words(line.version).said,
        Wrong::Further(call) => return help_further(found, line, call),
        Wrong::NoOption(call) => call.usage,
        Wrong::Unmodelled(said, _) => said,
        Wrong::OfSecond(_) => SECOND,
        Wrong::LacksCall | Wrong::Other => LINE,
    };
}

/// Writes what to write in the place of a line with this fault. A bad word is mended alone, if it can be, but for a
/// type: `rshared` is the type of another call. Else the line may be a call in other words.
pub fn write_help(found: &mut Diagnosis, line: Given<'_>, fault: Fault<'_>) {
    if join_quoted(found, line) {
        found.words = QUOTES;
        return;
    }
    let is_helped = match fault.wrong {
        Wrong::Bad(kind, _) => {
            let is_type = matches!(kind, Kind::Propagation);
            (!is_type && mend(found, line, kind, fault.place)) || rewrite(found, line)
        }
        Wrong::Unmodelled(said, kind) => {
            let is_mended = match kind {
                Some(kind) => mend(found, line, kind, fault.place),
                None => false,
            };
            if !is_mended {
                rewrite(found, line);
            }
            found.words = said;
            return;
        }
        Wrong::OfSecond(_) => false,
        Wrong::NoOption(call) if matches!((call.name, fault.word.text), ("mkdir", "-p")) => {
            help_parents(found, line)
        }
        _ => rewrite(found, line),
    };
    if !is_helped {
        help_fault(found, line, fault);
    }
}
