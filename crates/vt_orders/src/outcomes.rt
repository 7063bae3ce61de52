//! The ways in which the lines of a script are answered, in all orders.
use crate::orders::Trial;
use crate::queues::Queues;
use indexmap::IndexSet;
use std::alloc::{AllocError, Global};
use vt_script::Calls;

/// Orders in which each line has one answer.
#[derive(Drop)]
pub struct Outcome {
    /// The answer of each line, by its place among all answers.
    pub answers: Vec<usize>,
    /// How many orders there are.
    pub orders: u64,
    /// The first of them: the lines, by their places among all.
    pub order: Vec<usize>,
}

/// What was found in all orders.
#[derive(Drop)]
pub struct Outcomes {
    alloc: Global,
    /// The answers, as a run writes them.
    pub answers: IndexSet<Vec<u8>>,
    // The answers of each line in an outcome.
    kept: IndexSet<Vec<usize>>,
    pub outcomes: Vec<Outcome>,
    /// How many orders were tried.
    pub tried: u64,
    /// How many orders they stand for, themselves among them.
    pub orders: u64,
}

impl Outcomes {
    fn new(alloc: Global) -> Self {
        Outcomes {
            alloc,
            answers: IndexSet::new(alloc),
            kept: IndexSet::new(alloc),
            outcomes: Vec::new(alloc),
            tried: 0,
            orders: 0,
        }
    }

    // Adds an order that came to its end.
    fn add(&mut self, trial: &Trial) -> Result<(), AllocError> {
        let orders = trial.stands_for();
        self.tried = self.tried.saturating_add(1);
        self.orders = self.orders.saturating_add(orders);
        let answers = trial.answers.as_slice().to_vec(self.alloc)?;
        let (place, is_new) = self.kept.insert_full(answers)?;
        if is_new {
            self.outcomes.push(Outcome {
                answers: trial.answers.as_slice().to_vec(self.alloc)?,
                orders: 0,
                order: trial.order.as_slice().to_vec(self.alloc)?,
            })?;
        }
        if let Some(outcome) = self.outcomes.get_mut(place) {
            outcome.orders = outcome.orders.saturating_add(orders);
        }
        Ok(())
    }

    // Tries one order, in a world of its own, and returns whether another one is left.
    fn try_one<C: Calls>(
        &mut self,
        queues: &Queues<'_>,
        trial: &mut Trial,
    ) -> Result<bool, AllocError> {
        let Ok(mut world) = C::opening(self.alloc) else {
            return Err(AllocError);
        };
        let came = trial.run(queues, &mut world, &mut self.answers);
        world.end();
        if came? {
            self.add(trial)?;
        }
        trial.go_back(queues)
    }

    // Tries at most so many orders.
    fn try_all<C: Calls>(
        &mut self,
        queues: &Queues<'_>,
        trial: &mut Trial,
        most: u64,
    ) -> Result<(), AllocError> {
        for _ in 0..most {
            if !self.try_one::<C>(queues, trial)? {
                break;
            }
        }
        Ok(())
    }

    /// Whether a line has one answer in all orders.
    pub fn agree_on(&self, line: usize) -> bool {
        let Some(first) = self.outcomes.first() else {
            return true;
        };
        let answer = first.answers.get(line);
        for outcome in &self.outcomes {
            if outcome.answers.get(line) != answer {
                return false;
            }
        }
        true
    }
}

/// Tries every order of a script that keeps its queues, with one for those that differ in neighbouring lines that change
/// nothing. So many orders are there at most; where `unborn` is not set, lines wait for the birth of their task.
pub fn outcomes_of<C: Calls>(
    alloc: Global,
    queues: &Queues<'_>,
    unborn: bool,
    most: u64,
) -> Result<Outcomes, AllocError> {
    let mut found = Outcomes::new(alloc);
    let mut trial = Trial::new(alloc, queues, unborn)?;
    found.try_all::<C>(queues, &mut trial, most)?;
    Ok(found)
}
