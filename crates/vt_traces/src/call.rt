//! A call of a trace, taken apart.
use std::alloc::{AllocError, Global};

// The most arguments of a call that are looked at.
const MOST_ARGUMENTS: usize = 16;

/// How a call ended.
#[derive(Clone, Copy)]
pub enum Outcome<'a> {
    /// It returned this.
    Done(&'a str),
    /// It failed with the error of this name.
    Failed(&'a str),
    /// It has no result.
    Open,
}

/// A call of a trace.
#[derive(Drop)]
pub struct Call<'a> {
    pub name: &'a str,
    pub arguments: Vec<&'a str>,
    pub outcome: Outcome<'a>,
    /// The call as the trace has it.
    pub text: &'a str,
}

impl<'a> Call<'a> {
    /// An argument by its place, or an empty text.
    pub fn argument(&self, place: usize) -> &'a str {
        self.arguments.get(place).copied().unwrap_or_default()
    }

    /// Whether it did what it was to do.
    pub fn is_done(&self) -> bool {
        matches!(self.outcome, Outcome::Done(_))
    }

    /// The number that it returned, if it did.
    pub fn number(&self) -> Option<u64> {
        match self.outcome {
            Outcome::Done(text) => number_in(text),
            Outcome::Failed(_) | Outcome::Open => None,
        }
    }
}

/// The number at the front of a text, as of `3</etc/passwd>`.
pub fn number_in(text: &str) -> Option<u64> {
    let digits = match text.split_once('<') {
        Some((digits, _)) => digits,
        None => text,
    };
    digits.trim().parse().ok()
}

// Where the reading of arguments stands.
#[derive(Clone, Copy)]
struct Reading {
    is_quoted: bool,
    is_escaped: bool,
    depth: u64,
}

impl Reading {
    // Goes on by a byte outside of texts, and tells whether it ends an argument.
    fn take_plain(&mut self, byte: u8) -> bool {
        match byte {
            b'"' => self.is_quoted = true,
            b'(' | b'[' | b'{' => self.depth = self.depth.saturating_add(1),
            b',' if self.depth == 0 => return true,
            b')' if self.depth == 0 => return true,
            b')' | b']' | b'}' => self.depth = self.depth.saturating_sub(1),
            _ => {}
        }
        false
    }

    // Goes on by a byte, and tells whether it ends an argument.
    fn take(&mut self, byte: u8) -> bool {
        if !self.is_quoted {
            return self.take_plain(byte);
        }
        if self.is_escaped {
            self.is_escaped = false;
        } else if byte == b'\\' {
            self.is_escaped = true;
        } else if byte == b'"' {
            self.is_quoted = false;
        }
        false
    }
}

// How long the first argument of a text is: up to a comma, or the bracket that ends the call.
fn argument_length(text: &str) -> usize {
    let mut reading = Reading {
        is_quoted: false,
        is_escaped: false,
        depth: 0,
    };
    for (place, byte) in text.bytes().enumerate() {
        if reading.take(byte) {
            return place;
        }
    }
    text.len()
}

// How a call ended, by what follows its arguments.
fn outcome_of(rest: &str) -> Option<Outcome<'_>> {
    let result = rest.trim().strip_prefix("= ")?.trim();
    if let Some(error) = result.strip_prefix("-1 ") {
        let (name, _) = error.split_once(' ').unwrap_or((error, ""));
        return Some(Outcome::Failed(name));
    }
    if result.starts_with('?') {
        return Some(Outcome::Open);
    }
    let (value, _) = result.split_once(' ').unwrap_or((result, ""));
    Some(Outcome::Done(value))
}

// The arguments of a call, and what follows them.
fn arguments_of<'a>(alloc: Global, text: &'a str) -> Result<(Vec<&'a str>, &'a str), AllocError> {
    let mut arguments = Vec::new(alloc);
    let mut rest = text;
    for _ in 0..MOST_ARGUMENTS {
        let length = argument_length(rest);
        let argument = rest.get(..length).unwrap_or_default();
        arguments.push(argument.trim())?;
        let is_last = !rest.get(length..).unwrap_or_default().starts_with(',');
        rest = rest.get(length.saturating_add(1)..).unwrap_or_default();
        if is_last {
            break;
        }
    }
    Ok((arguments, rest))
}

/// A call with its result, if it is one.
pub fn call_of<'a>(alloc: Global, text: &'a str) -> Result<Option<Call<'a>>, AllocError> {
    let Some((name, rest)) = text.split_once('(') else {
        return Ok(None);
    };
    let (arguments, rest) = arguments_of(alloc, rest)?;
    match outcome_of(rest) {
        Some(outcome) => Ok(Some(Call {
            name: name.trim(),
            arguments,
            outcome,
            text,
        })),
        None => Ok(None),
    }
}
