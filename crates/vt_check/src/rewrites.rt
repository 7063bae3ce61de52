//! Calls as a shell, mount(8) or another system call spells them, and the calls that are meant.
//!
//! A row is a line `FROM => LINES # SAID`, and a line that begins with `#` a heading. In FROM, `*` is any word, `/*`
//! one that begins with a slash, `~TEXT` one with TEXT between commas, and `...` stands for any that follow. In LINES,
//! `$k` is the k-th word behind the call's name, `%k` the flags that it means, `^k` the options of an overlay that it
//! means, and a bar stands between lines; a line begins with the task, unless its first word is given. A row without
//! `=>` proposes nothing. SAID says something about it; a row without ` # ` says nothing.
mod rows;

use crate::draft::Draft;
use crate::finding::Diagnosis;
use crate::nearest::{write_flags, write_options, write_owner};
use crate::words::{Given, Word};
use rows::all_rows;

// Whether a word has a part between commas.
fn has_part(word: &str, part: &str) -> bool {
    for other in word.split(',') {
        if other == part {
            return true;
        }
    }
    false
}

// Whether the words are those of a row's FROM.
fn is_of(pattern: &str, words: &[Word<'_>]) -> bool {
    let mut parts = pattern.split(' ');
    for word in words {
        let fits = match parts.next() {
            Some("...") => return true,
            Some("*") => true,
            Some("/*") => word.text.starts_with('/'),
            Some(part) => match part.strip_prefix('~') {
                Some(text) => has_part(word.text, text),
                None => part == word.text,
            },
            None => false,
        };
        if !fits {
            return false;
        }
    }
    matches!(parts.next(), None | Some("..."))
}

// Writes a part of a row's LINES behind the words before it, and says whether what it stands for is clear.
fn write_part(found: &mut Diagnosis, line: &mut Draft, part: &str, words: &[Word<'_>]) -> bool {
    let [mark, digit] = part.as_bytes() else {
        line.push_word(part);
        return true;
    };
    let Some(given) = words.get(usize::from(digit.wrapping_sub(b'0'))) else {
        line.push_word(part);
        return true;
    };
    match *mark {
        b'%' => {
            line.push_char(' ');
            write_flags(found, given.text, line)
        }
        b'^' => {
            line.push_char(' ');
            write_options(found, given.text, line)
        }
        b'@' => {
            line.push_char(' ');
            write_owner(given.text, line)
        }
        b'$' => {
            line.push_word(given.text);
            true
        }
        _ => {
            line.push_word(part);
            true
        }
    }
}

// Proposes a line of a row's LINES, behind the task unless its first word is given, if a run takes it, and says
// whether it does.
fn propose_line(found: &mut Diagnosis, who: &str, text: &str, words: &[Word<'_>]) -> bool {
    let mut line = found.draft();
    if !text.starts_with('$') {
        line.push(who);
    }
    for part in text.split(' ') {
        if !write_part(found, &mut line, part, words) {
            return false;
        }
    }
    found.propose(line)
}

// Proposes the lines of a row, if there are some, and if a run takes all of them, and says whether it does.
fn propose_lines(found: &mut Diagnosis, who: &str, lines: &str, words: &[Word<'_>]) -> bool {
    if lines.is_empty() {
        return true;
    }
    for text in lines.split(" | ") {
        if !propose_line(found, who, text, words) {
            found.lines.clear();
            return false;
        }
    }
    true
}

// Helps as a row says, if it fits, and says whether it does.
fn help_by(found: &mut Diagnosis, row: &'static str, who: &str, words: &[Word<'_>]) -> bool {
    let (row, said) = row.split_once(" # ").unwrap_or((row, ""));
    let (from, lines) = row.split_once(" => ").unwrap_or((row, ""));
    let is_meant = is_of(from, words) && propose_lines(found, who, lines, words);
    if is_meant {
        found.words = said;
    }
    is_meant
}

/// Helps as the first row says that fits the line, and says whether there is one.
pub fn rewrite(found: &mut Diagnosis, line: Given<'_>) -> bool {
    let Some((who, words)) = line.words.split_first() else {
        return false;
    };
    for row in all_rows().lines() {
        if help_by(found, row, who.text, words) {
            return true;
        }
    }
    false
}

/// Whether a row is about a call of this name: then the name is known, and none that is like it is meant.
pub fn is_known(name: &str) -> bool {
    for row in all_rows().lines() {
        if row.split(' ').next() == Some(name) {
            return true;
        }
    }
    false
}
