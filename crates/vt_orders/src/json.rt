//! All orders of a script, told as objects of JSON.
use crate::outcomes::{Outcome, Outcomes};
use crate::queues::Queued;
use crate::report::{Asked, answer_in, left_out, without_number};
use crate::schedule::{Share, push_schedule};
use serde_json::Value;
use std::alloc::{AllocError, Global};
use vt_check::draft::Draft;
use vt_check::object::{List, Object};
use vt_lines::lines::first_line;

// A line with the lines of its answer.
fn answered(alloc: Global, line: &Queued<'_>, answer: &[u8]) -> Result<Value, AllocError> {
    let mut answers = List::new(alloc);
    let mut rest = answer;
    for _ in 0..u64::MAX {
        let Some((answer, after)) = first_line(rest) else {
            break;
        };
        answers.push_bytes(without_number(answer));
        rest = after;
    }
    let mut object = Object::new(alloc);
    object.put_number("line", line.number);
    object.put_bytes("call", line.text.trim_ascii_end());
    object.put("answer", answers.end());
    object.end()
}

// The lines that are answered otherwise in another outcome, with their answers in this one.
fn answers_of(
    asked: Asked<'_, '_>,
    outcomes: &Outcomes,
    outcome: &Outcome,
) -> Result<Value, AllocError> {
    let mut list = List::new(asked.alloc);
    for (place, line) in asked.queues.lines.iter().enumerate() {
        if !outcomes.agree_on(place) {
            let answer = answer_in(outcomes, outcome, place);
            list.push(answered(asked.alloc, line, answer));
        }
    }
    list.end()
}

// The numbers of the lines in the order of an outcome.
fn order_of(asked: Asked<'_, '_>, outcome: &Outcome) -> Result<Value, AllocError> {
    let mut list = List::new(asked.alloc);
    for place in &outcome.order {
        if let Some(line) = asked.queues.lines.get(*place) {
            list.push(Ok(Value::from(line.number)));
        }
    }
    list.end()
}

// Appends an outcome as an object.
fn push_outcome(
    text: &mut Draft,
    asked: Asked<'_, '_>,
    outcomes: &Outcomes,
    outcome: &Outcome,
    shares: &[Share],
) {
    let mut object = Object::of_kind(asked.alloc, "outcome");
    object.put_text("script", asked.name);
    object.put_number("orders", outcome.orders);
    object.put("answers", answers_of(asked, outcomes, outcome));
    object.put("order", order_of(asked, outcome));
    let mut schedule = object.draft();
    push_schedule(&mut schedule, asked.queues, shares, "", "\n");
    object.put_draft("schedule", schedule);
    object.push_line(text);
}

/// Appends what is told of all orders.
pub fn push_orders(
    text: &mut Draft,
    asked: Asked<'_, '_>,
    outcomes: &Outcomes,
    schedules: &[Vec<Share>],
) {
    for (outcome, shares) in outcomes.outcomes.iter().zip(schedules) {
        push_outcome(text, asked, outcomes, outcome, shares.as_slice());
    }
    let mut object = Object::of_kind(asked.alloc, "orders");
    object.put_text("script", asked.name);
    object.put_number("orders", outcomes.orders);
    object.put_number("outcomes", outcomes.outcomes.len() as u64);
    object.put_number("tried", outcomes.tried);
    match left_out(asked, outcomes) {
        Some(orders) => object.put_number("left_out", orders),
        None => object.put("left_out", Ok(Value::Null)),
    }
    object.push_line(text);
}
