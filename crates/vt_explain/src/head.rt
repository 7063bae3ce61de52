//! The line that is explained, and its answer: the rule that refuses it, why, and later rules.
use crate::later::push_rules;
use serde_json::Value;
use std::alloc::{AllocError, Global};
use vt_check::check::Format;
use vt_check::draft::Draft;
use vt_check::object::{List, Object};
use vt_io::memory::BytesSink;
use vt_lines::lines::first_line;
use vt_request::Answer;
use vt_rule_pages::pages::page_of;
use vt_script::{Version, write_reply};
use vt_sections::causes::Told;
use vt_show::cells::{Cell, object_of_kind};
use vt_spec::errors::{Deny, Rule};

/// How much of an answer is kept at a time.
const PIECE: usize = 4096;

/// A line of a file, with its number there, from 1, and the lines of its script before it.
#[derive(Clone, Copy)]
pub struct Numbered<'a> {
    pub number: u64,
    pub text: &'a [u8],
    pub before: &'a [u8],
}

/// A line that is explained, and how.
#[derive(Clone, Copy)]
pub struct Asked<'a> {
    pub version: Version,
    pub alloc: Global,
    pub line: Numbered<'a>,
    pub format: Format,
}

// What follows the first space of a line.
fn behind_space(line: &[u8]) -> &[u8] {
    for (index, byte) in line.iter().enumerate() {
        if *byte == b' ' {
            return line.get(index.saturating_add(1)..).unwrap_or_default();
        }
    }
    line
}

// The first line of an answer, as a run writes it, without its number.
fn answer_of(asked: Asked<'_>, outcome: &Result<Answer, Deny>) -> Draft {
    let mut text = Draft::new(asked.alloc);
    let mut sink = BytesSink::new(asked.alloc, PIECE);
    if write_reply(&mut sink, asked.line.number, outcome).is_err() {
        text.fail();
    }
    if let Some((line, _rows)) = first_line(sink.bytes()) {
        text.push_bytes(behind_space(line));
    }
    text
}

// The rule that refuses a line, if one does.
fn rule_of(outcome: &Result<Answer, Deny>) -> Option<Rule> {
    match outcome {
        Ok(_) => None,
        Err(deny) => Some(deny.rule),
    }
}

// Appends the line, its answer, the rule that refuses it, and why, as text.
fn push_head_text(
    asked: Asked<'_>,
    outcome: &Result<Answer, Deny>,
    later: &[Rule],
    told: Option<Told>,
    text: &mut Draft,
) {
    let answer = answer_of(asked, outcome);
    text.push("LINE ");
    text.push_number(asked.line.number);
    text.push(": ");
    text.push_bytes(asked.line.text.trim_ascii_end());
    text.push("\n  answer       ");
    text.push_draft(&answer);
    if let Some(rule) = rule_of(outcome) {
        let page = page_of(rule);
        text.push("\n  rule         ");
        text.push(page.meaning);
        text.push("\n  manual       ");
        text.push(page.manual);
    }
    if let Some(told) = told {
        text.push("\n  cause        ");
        text.push_draft(&told.words);
    }
    if !later.is_empty() {
        text.push("\n  also         ");
        push_rules(text, later);
    }
    text.push("\n");
}

// The names of rules, as a list of JSON.
fn names_of(alloc: Global, rules: &[Rule]) -> Result<Value, AllocError> {
    let mut names = List::new(alloc);
    for rule in rules {
        names.push_text(rule.name());
    }
    names.end()
}

// A cause as an object: its words, and what stands in them.
fn cause_value(told: Option<Told>) -> Result<Value, AllocError> {
    let Some(told) = told else {
        return Ok(Value::Null);
    };
    let mut object = told.parts;
    object.put_draft("words", told.words);
    object.end()
}

// Adds the rule that refuses a line, what it means, and where that is written; null where none does.
fn put_rule(object: &mut Object, rule: Option<Rule>) {
    match rule {
        Some(rule) => {
            let page = page_of(rule);
            object.put_text("manual", page.manual);
            object.put_text("meaning", page.meaning);
            object.put_text("rule", rule.name());
        }
        None => {
            object.put("manual", Ok(Value::Null));
            object.put("meaning", Ok(Value::Null));
            object.put("rule", Ok(Value::Null));
        }
    }
}

// Appends the line, its answer, the rule that refuses it, and why, as an object of JSON and a newline.
fn push_head_object(
    asked: Asked<'_>,
    outcome: &Result<Answer, Deny>,
    later: &[Rule],
    told: Option<Told>,
    text: &mut Draft,
) {
    let answer = answer_of(asked, outcome);
    let cells = [Cell::whole(&answer), Cell::Number(asked.line.number)];
    let mut object = object_of_kind(asked.alloc, "line", &["answer", "line"], &cells);
    put_rule(&mut object, rule_of(outcome));
    object.put("also", names_of(asked.alloc, later));
    object.put("cause", cause_value(told));
    object.put_bytes("text", asked.line.text.trim_ascii_end());
    object.push_line(text);
}

/// Appends the line, its answer, the rule that refuses it, why, and the later rules that refuse it too.
pub fn push_head(
    asked: Asked<'_>,
    outcome: &Result<Answer, Deny>,
    later: &[Rule],
    told: Option<Told>,
    text: &mut Draft,
) {
    match asked.format {
        Format::Text => push_head_text(asked, outcome, later, told, text),
        Format::Json => push_head_object(asked, outcome, later, told, text),
    }
}
