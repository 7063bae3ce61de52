//! What is told of all orders of a script.
use crate::count::{orders_of_all, orders_of_born};
use crate::outcomes::{Outcome, Outcomes, outcomes_of};
use crate::queues::Queues;
use crate::schedule::{Share, Turns, schedule_of};
use crate::{json, text};
use std::alloc::{AllocError, Global};
use vt_check::check::Format;
use vt_check::draft::Draft;
use vt_script::Calls;

/// Which orders are tried, and how they are told.
#[derive(Clone, Copy)]
pub struct Options {
    pub format: Format,
    /// Whether a line may come before its task is born.
    pub unborn: bool,
    /// The most orders of a script that are tried.
    pub most: u64,
}

/// A script of which all orders are told.
#[derive(Clone, Copy)]
pub struct Asked<'a, 'm> {
    pub alloc: Global,
    /// Its name, or that of its file.
    pub name: &'m str,
    pub queues: &'m Queues<'a>,
    pub options: Options,
}

/// What is told, and whether the lines are answered in more than one way.
#[derive(Drop)]
pub struct Report {
    pub text: String,
    pub differs: bool,
}

// How many orders have to be tried at most; nothing for more than 2^64 - 1.
fn orders_in(asked: Asked<'_, '_>) -> Option<u64> {
    if asked.options.unborn {
        orders_of_all(asked.queues)
    } else {
        orders_of_born(asked.queues)
    }
}

/// How many orders are left out, since a line comes before its task is born; nothing for more than 2^64 - 1.
pub(crate) fn left_out(asked: Asked<'_, '_>, outcomes: &Outcomes) -> Option<u64> {
    let all = orders_of_all(asked.queues)?;
    Some(all.saturating_sub(outcomes.orders))
}

/// What is to be said of a script that has more orders than are tried; nothing where it has not.
pub fn excess(asked: Asked<'_, '_>) -> Result<Option<String>, AllocError> {
    let orders = orders_in(asked);
    let most = asked.options.most;
    if matches!(orders, Some(orders) if orders <= most) {
        return Ok(None);
    }
    let mut text = Draft::new(asked.alloc);
    text.push(asked.name);
    text.push(" has ");
    text::push_exactly(&mut text, orders);
    text.push(" orders, and none was tried: at most ");
    text.push_number(most);
    text.push(" are, and `--most N` takes another number");
    match text.end() {
        Ok(text) => Ok(Some(text)),
        Err(error) => Err(error),
    }
}

/// The answer of a line in an outcome, as a run writes it.
pub(crate) fn answer_in<'o>(outcomes: &'o Outcomes, outcome: &Outcome, place: usize) -> &'o [u8] {
    let Some(answer) = outcome.answers.get(place) else {
        return &[];
    };
    match outcomes.answers.get_index(*answer) {
        Some(text) => text.as_slice(),
        None => &[],
    }
}

/// A line of an answer, without the number that a run writes before it.
pub(crate) fn without_number(line: &[u8]) -> &[u8] {
    for (place, byte) in line.iter().enumerate() {
        if *byte == b' ' {
            return line.get(place.saturating_add(1)..).unwrap_or_default();
        }
    }
    line
}

// The schedules of the outcomes, in their order.
fn schedules_of<C: Calls, T: Turns<C>>(
    asked: Asked<'_, '_>,
    outcomes: &Outcomes,
    by: &T,
) -> Result<Vec<Vec<Share>>, AllocError> {
    let mut schedules = Vec::new(asked.alloc);
    for outcome in &outcomes.outcomes {
        let order = outcome.order.as_slice();
        schedules.push(schedule_of(asked.alloc, asked.queues, order, by)?)?;
    }
    Ok(schedules)
}

/// Tries the orders of a script, of which there are not too many, and tells in which ways its lines are answered.
pub fn orders_told<C: Calls, T: Turns<C>>(
    asked: Asked<'_, '_>,
    by: &T,
) -> Result<Report, AllocError> {
    let Asked {
        alloc,
        queues,
        options,
        ..
    } = asked;
    let outcomes = outcomes_of::<C>(alloc, queues, options.unborn, options.most)?;
    let schedules = schedules_of(asked, &outcomes, by)?;
    let mut text = Draft::new(alloc);
    match options.format {
        Format::Text => text::push_orders(&mut text, asked, &outcomes, &schedules),
        Format::Json => json::push_orders(&mut text, asked, &outcomes, &schedules),
    }
    let differs = outcomes.outcomes.len() > 1;
    Ok(Report {
        text: text.end()?,
        differs,
    })
}
