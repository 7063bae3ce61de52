//! Where a task has ended that is asked for and is not there.
use crate::noting::ScriptRead;
use std::alloc::{AllocError, Global};
use vt_calls::{Calls, Kernel};
use vt_check::words::word_at;
use vt_lines::lines::first_line;
use vt_lines::reached::reached_before;
use vt_show::show::{Options, show};

const NO_TASK: &str = "there is no such task; without `--task` all are shown";

// Whether a task of this name is to exit in a line.
fn is_exit(line: &[u8], task: &str) -> bool {
    let line = str::from_utf8(line).unwrap_or_default();
    word_at(line, 0).text == task && word_at(line, 1).text == "exit"
}

// The number of the last line of a script, before this one, in which a task of this name is to exit.
fn last_exit(script: &[u8], line: u64, task: &str) -> Option<u64> {
    let mut rest = script;
    let mut last = None;
    for number in 1..line {
        let Some((text, after)) = first_line(rest) else {
            break;
        };
        if is_exit(text, task) {
            last = Some(number);
        }
        rest = after;
    }
    last
}

// Whether the task that is asked for is there before a line of a script.
fn is_there(
    alloc: Global,
    script: ScriptRead<'_>,
    line: u64,
    options: Options<'_>,
) -> Result<bool, AllocError> {
    let Ok(reached) = reached_before::<Kernel>(script.version, alloc, script.text, line) else {
        return Err(AllocError);
    };
    let mut shown = Vec::new(alloc);
    let outcome = show(alloc, reached.world.world(), options, &mut shown);
    reached.world.end();
    drop(shown);
    match outcome {
        Ok(is_there) => Ok(is_there),
        Err(_) => Err(AllocError),
    }
}

/// That there is no task of the name that is asked for before a line of a script, and the line of the file in which it
/// ended, if it did.
pub fn no_task(
    alloc: Global,
    script: ScriptRead<'_>,
    line: u64,
    options: Options<'_>,
) -> Result<String, AllocError> {
    let task = options.task.unwrap_or_default();
    let Some(exit) = last_exit(script.text, line, task) else {
        return String::from_str(alloc, NO_TASK);
    };
    if !is_there(alloc, script, exit, options)? {
        return String::from_str(alloc, NO_TASK);
    }
    let exit = exit.saturating_add(script.before);
    format!(in alloc; "task {task} has ended in line {exit}; `--at {exit}` shows it")
}
