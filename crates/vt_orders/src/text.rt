//! All orders of a script, told as text.
use crate::outcomes::{Outcome, Outcomes};
use crate::queues::{Queued, Queues};
use crate::report::{Asked, answer_in, left_out, without_number};
use crate::schedule::{Share, push_schedule};
use vt_check::draft::Draft;
use vt_lines::lines::first_line;

// Appends how many of a thing there are.
fn push_count(text: &mut Draft, count: u64, one: &str, several: &str) {
    text.push_number(count);
    text.push(if count == 1 { one } else { several });
}

/// Appends a number; nothing stands for more than 2^64 - 1.
pub fn push_exactly(text: &mut Draft, number: Option<u64>) {
    if number.is_none() {
        text.push("more than ");
    }
    text.push_number(number.unwrap_or(u64::MAX));
}

// Appends how many orders there are, how many were tried, and what the others are.
fn push_head(text: &mut Draft, asked: Asked<'_, '_>, outcomes: &Outcomes) {
    text.push(asked.name);
    text.push(": ");
    push_count(text, outcomes.orders, " order, ", " orders, ");
    let count = outcomes.outcomes.len() as u64;
    push_count(text, count, " outcome\n", " outcomes\n");
    let others = outcomes.orders.saturating_sub(outcomes.tried);
    push_count(text, outcomes.tried, " was tried", " were tried");
    if others > 0 {
        text.push(", and ");
        push_count(text, others, " differs", " differ");
        text.push(" from these in neighbouring lines that change nothing");
    }
    text.push_char('\n');
    let left_out = left_out(asked, outcomes);
    if left_out != Some(0) {
        push_exactly(text, left_out);
        text.push(" left out, where a line comes before its task is born\n");
    }
}

// Appends a line with its answer, in the form in which a script holds its answers.
fn push_answered(text: &mut Draft, line: &Queued<'_>, answer: &[u8]) {
    text.push_number(line.number);
    text.push(": ");
    text.push_bytes(line.text.trim_ascii_end());
    let mut rest = answer;
    let mut mark = " => ";
    for _ in 0..u64::MAX {
        let Some((answer, after)) = first_line(rest) else {
            break;
        };
        text.push(mark);
        text.push_bytes(without_number(answer));
        text.push_char('\n');
        mark = "=> ";
        rest = after;
    }
}

// Appends the numbers of the lines in the order of an outcome.
fn push_order(text: &mut Draft, queues: &Queues<'_>, outcome: &Outcome) {
    text.push("order:");
    for place in &outcome.order {
        if let Some(line) = queues.lines.get(*place) {
            text.push_char(' ');
            text.push_number(line.number);
        }
    }
    text.push_char('\n');
}

// Appends the outcome of this number: in how many orders, the answers of the lines that are answered otherwise in another
// one, and a schedule.
fn push_outcome(
    text: &mut Draft,
    asked: Asked<'_, '_>,
    outcomes: &Outcomes,
    number: u64,
    outcome: &Outcome,
) {
    text.push("\nOUTCOME ");
    text.push_number(number);
    text.push(" of ");
    push_count(text, outcome.orders, " order\n", " orders\n");
    for (place, line) in asked.queues.lines.iter().enumerate() {
        if !outcomes.agree_on(place) {
            push_answered(text, line, answer_in(outcomes, outcome, place));
        }
    }
    push_order(text, asked.queues, outcome);
}

/// Appends what is told of all orders.
pub fn push_orders(
    text: &mut Draft,
    asked: Asked<'_, '_>,
    outcomes: &Outcomes,
    schedules: &[Vec<Share>],
) {
    push_head(text, asked, outcomes);
    let mut number: u64 = 0;
    for (outcome, shares) in outcomes.outcomes.iter().zip(schedules) {
        number = number.saturating_add(1);
        push_outcome(text, asked, outcomes, number, outcome);
        text.push("schedule:");
        push_schedule(text, asked.queues, shares.as_slice(), " ", "");
        text.push_char('\n');
    }
}
