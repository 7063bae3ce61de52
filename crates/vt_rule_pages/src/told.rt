//! What is told of a word: a rule, the name of an error, or a call.
use crate::pages::{RULES, page_of};
use std::alloc::{AllocError, Global};
use vt_check::draft::Draft;
use vt_check::grammar::{MOUNT_OVERLAY, call_named, calls};
use vt_line::version::Version;
use vt_spec::errors::Rule;

// The most columns of a line of words.
const MOST_COLUMNS: usize = 100;

// Appends words, as many a line as fit, each line behind a margin.
fn push_wrapped(text: &mut Draft, words: &[&str]) {
    let mut column = MOST_COLUMNS;
    for word in words {
        let next = column.saturating_add(word.len()).saturating_add(1);
        if next > MOST_COLUMNS {
            text.push("\n    ");
            column = word.len().saturating_add(4);
        } else {
            text.push_char(' ');
            column = next;
        }
        text.push(word);
    }
    text.push_char('\n');
}

// Appends a text in a column of this width.
fn push_column(text: &mut Draft, part: &str, width: usize) {
    text.push(part);
    text.push_times(' ', width.saturating_sub(part.len()));
}

// Appends a rule in one line: its name, its error and its meaning.
fn push_line(text: &mut Draft, rule: Rule) {
    let errno = rule.errno();
    let number = u64::from(errno.number());
    push_column(text, rule.name(), 4);
    text.push(match number {
        0..=9 => "  ",
        10..=99 => " ",
        _ => "",
    });
    text.push_number(number);
    text.push_char(' ');
    push_column(text, errno.name(), 13);
    text.push(page_of(rule).meaning);
    text.push_char('\n');
}

// Appends what is told of a rule.
fn push_rule(text: &mut Draft, rule: Rule) {
    push_line(text, rule);
    let page = page_of(rule);
    if page.calls.is_empty() {
        text.push("  not in this version\n");
    } else {
        text.push("  calls:");
        push_wrapped(text, page.calls);
    }
    text.fill("  manual: {}\n", &[page.manual]);
    for line in page.script.lines() {
        text.fill("    {}\n", &[line]);
    }
}

/// The rules in the order in which they are asked, one a line: those that fail first answer.
pub fn order(alloc: Global) -> Result<String, AllocError> {
    let mut text = Draft::new(alloc);
    for rule in &RULES {
        push_line(&mut text, *rule);
    }
    text.end()
}

// Appends the forms in which a call of this name is written, if there is one.
fn push_forms(text: &mut Draft, name: &str) {
    for call in calls(Version::Two) {
        if call.name == name {
            let is_first = call_named(Version::One, name).is_some();
            let version = if is_first { "" } else { " (script version 2)" };
            text.fill("form: {}{}\n", &[call.usage.trim_matches('`'), version]);
        }
    }
    if name == MOUNT_OVERLAY.name {
        text.fill("form: {}\n", &[MOUNT_OVERLAY.usage.trim_matches('`')]);
    }
}

/// What is told of a word: of a rule its page, of an error its rules, of a call its forms and its rules. Empty where
/// it is none of these.
pub fn told(alloc: Global, word: &str) -> Result<String, AllocError> {
    let mut text = Draft::new(alloc);
    // What `mount` mounts is no call of its own.
    let call = match word {
        "plain" | "overlay" => "mount",
        _ => word,
    };
    push_forms(&mut text, call);
    for rule in &RULES {
        if rule.name() == word {
            push_rule(&mut text, *rule);
        } else if rule.errno().name() == word || page_of(*rule).calls.contains(&call) {
            push_line(&mut text, *rule);
        }
    }
    text.end()
}

/// All rules, as scripts with the answers that they want.
pub fn suite(alloc: Global) -> Result<String, AllocError> {
    let mut text = Draft::new(alloc);
    for rule in &RULES {
        let script = page_of(*rule).script;
        if !script.is_empty() {
            text.fill("== {}\n{}", &[rule.name(), script]);
        }
    }
    text.end()
}
