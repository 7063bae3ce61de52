//! The form of answers that lines want, as in `t umount /a => deny EBUSY`.
use crate::finding::Diagnosis;
use crate::grammar::call_named;
use crate::nearest::{is_nearer, nearest_call};
use crate::words::{Word, parts_of, word_at};
use std::alloc::{AllocError, Global};
use vt_line::version::Version;
use vt_rule_table::pages::{page_of, rules};
use vt_spec::errors::Rule;

/// What is said of a line that goes on with an answer, and of one that names a script.
pub const NOTHING_ABOVE: (&str, &str) = (
    "there is no answer above that goes on here",
    "`LINE => ANSWER` comes first",
);

pub const NO_NAME: (&str, &str) = ("a script has a name", "`== NAME` begins a script");

const FORMS: &str =
    "an answer is `ok`, `ok VALUE`, `ok ..`, `deny`, `deny EBUSY`, `deny M8`, or as `run` writes it";

const OF_CALL: &str = "`vtree rules CALL` has the rules of a call";

const OF_RULE: &str = "`vtree rules` has the rules with their errors";

// What the words of a denial name so far.
#[derive(Clone, Copy)]
struct Denial {
    error: Option<&'static str>,
    rule: Option<Rule>,
}

// The rule of this name.
fn rule_named(name: &str) -> Option<Rule> {
    for rule in rules() {
        if rule.name() == name {
            return Some(*rule);
        }
    }
    None
}

// Whether a rule has the error of this number.
fn is_number(word: &str) -> bool {
    let Ok(number) = word.parse::<u8>() else {
        return false;
    };
    for rule in rules() {
        if rule.errno().number() == number {
            return true;
        }
    }
    false
}

// The name of an error, if a rule has the error of this name.
fn error_named(name: &str) -> Option<&'static str> {
    for rule in rules() {
        let error = rule.errno().name();
        if error == name {
            return Some(error);
        }
    }
    None
}

// The name of a rule or of an error that is like the word in capitals.
fn nearest_name(found: &mut Diagnosis, word: &str) -> Option<&'static str> {
    let mut upper = found.draft();
    upper.push_in_case(word, true);
    let upper = found.ended(upper)?;
    let mut nearest = None;
    let mut least = usize::MAX;
    for rule in rules() {
        let (name, error) = (rule.name(), rule.errno().name());
        if is_nearer(found, upper.as_str(), name, &mut least) {
            nearest = Some(name);
        }
        if is_nearer(found, upper.as_str(), error, &mut least) {
            nearest = Some(error);
        }
    }
    nearest
}

// Tells that a word names no rule and no error.
fn tell_unknown(found: &mut Diagnosis, word: &str) {
    found.words = OF_RULE;
    found.message.fill("no rule or error `{}`", &[word]);
    if let Some(name) = nearest_name(found, word) {
        found.message.fill(": `{}` may be meant", &[name]);
    }
}

impl Denial {
    // Goes on by a word, and says whether it names a rule or an error.
    fn name(&mut self, word: &str) -> bool {
        if let Some(rule) = rule_named(word) {
            self.rule = Some(rule);
            return true;
        }
        if let Some(error) = error_named(word) {
            self.error = Some(error);
            return true;
        }
        is_number(word)
    }

    // Tells what does not fit together, and says whether something does not: a rule that does not refuse a call of this
    // name, or that has another error.
    fn tell_misfit(self, found: &mut Diagnosis, call: &str) -> bool {
        let Some(rule) = self.rule else {
            return false;
        };
        let (name, error) = (rule.name(), rule.errno().name());
        if call_named(Version::Two, call).is_some() && !page_of(rule).calls.contains(&call) {
            found.message.fill("`{}` does not refuse ", &[name]);
            found.message.fill("`{}`", &[call]);
            found.words = OF_CALL;
            return true;
        }
        if self.error.unwrap_or(error) != error {
            found.message.fill("`{}` has the error {}", &[name, error]);
            found.words = OF_RULE;
            return true;
        }
        false
    }
}

// Tells what is wrong with the words of a denial of a call of this name, and says whether something is.
fn of_denial(found: &mut Diagnosis, call: &str, words: &[Word<'_>]) -> bool {
    let mut denial = Denial {
        error: None,
        rule: None,
    };
    for word in words {
        if !denial.name(word.text) {
            found.column = word.column;
            found.width = word.text.len();
            tell_unknown(found, word.text);
            return true;
        }
    }
    denial.tell_misfit(found, call)
}

/// Tells what is wrong with the form of the answer that a line wants, behind a call of this length and a mark, and says
/// whether something is.
pub fn of_answer(found: &mut Diagnosis, line: &[u8], length: usize) -> bool {
    let line = str::from_utf8(line).unwrap_or_default();
    let column = length.saturating_add(" =>".len());
    let text = line.get(column..).unwrap_or_default();
    let words = parts_of(found, Word { column, text }, [' ', ' ']);
    let Some((first, rest)) = words.split_first() else {
        return false;
    };
    found.column = first.column;
    found.width = first.text.len();
    match first.text {
        "ok" => false,
        "deny" => of_denial(found, word_at(line, 1).text, rest),
        _ => {
            found.message.push("an answer begins with `ok` or `deny`");
            found.words = FORMS;
            true
        }
    }
}

/// The rule, the error or the call that a word means, if one is like it.
pub fn meant(alloc: Global, word: &str) -> Result<Option<&'static str>, AllocError> {
    let mut found = Diagnosis::new(Version::Two, alloc);
    let mut name = nearest_name(&mut found, word);
    if name.is_none()
        && let Some(call) = nearest_call(&mut found, word)
    {
        name = Some(call.name);
    }
    if found.message.is_failed() {
        return Err(AllocError);
    }
    Ok(name)
}
