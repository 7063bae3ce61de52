//! Lines of strace(1), taken apart.

/// What a line tells.
#[derive(Clone, Copy)]
pub enum Event<'a> {
    /// A call with its result: `NAME(ARGUMENTS) = RESULT`.
    Call(&'a str),
    /// The front of a call that is not over.
    Begun(&'a str),
    /// The rest of such a call.
    Resumed(&'a str),
    /// The process has ended.
    Ended,
    /// A signal, a message of strace, a comment.
    Nothing,
}

/// A line of a trace.
#[derive(Clone, Copy)]
pub struct Traced<'a> {
    /// The number of the process, or 0 where the trace is of one and names none.
    pub process: u64,
    pub event: Event<'a>,
}

// Whether a word is a time, as of `strace -t`.
fn is_time(word: &str) -> bool {
    for byte in word.bytes() {
        if !matches!(byte, b'0'..=b'9' | b':' | b'.') {
            return false;
        }
    }
    !word.is_empty()
}

// What follows a time at the front of a line, if there is one.
fn behind_time(line: &str) -> &str {
    match line.split_once(' ') {
        Some((word, rest)) if is_time(word) => rest.trim(),
        _ => line,
    }
}

// The number of the process at the front of a line, and what follows it.
fn split_process(line: &str) -> (u64, &str) {
    let (word, rest) = match line.strip_prefix("[pid ") {
        Some(named) => named.split_once(']').unwrap_or((line, "")),
        None => line.split_once(' ').unwrap_or((line, "")),
    };
    match word.trim().parse() {
        Ok(process) => (process, rest.trim()),
        Err(_) => (0, line),
    }
}

// What a line tells, without the number of its process.
fn event_of(text: &str) -> Option<Event<'_>> {
    if text.is_empty() || text.starts_with('#') {
        return Some(Event::Nothing);
    }
    if text.starts_with("--- ") || text.starts_with("strace: ") {
        return Some(Event::Nothing);
    }
    if text.starts_with("+++ ") {
        return Some(Event::Ended);
    }
    if let Some(resumed) = text.strip_prefix("<... ") {
        let (_, rest) = resumed.split_once("resumed>")?;
        return Some(Event::Resumed(rest));
    }
    if let Some(front) = text.strip_suffix("<unfinished ...>") {
        return Some(Event::Begun(front.trim()));
    }
    if text.contains('(') && text.contains(" = ") {
        Some(Event::Call(text))
    } else {
        None
    }
}

/// A line, if its form is known.
pub fn line_of(line: &str) -> Option<Traced<'_>> {
    let (process, rest) = split_process(line.trim());
    let event = event_of(behind_time(rest))?;
    Some(Traced { process, event })
}
