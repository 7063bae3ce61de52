//! What is told of a line that is answered.
use std::alloc::{AllocError, Global};
use vt_io::memory::BytesSink;
use vt_line::print::write_reply;
use vt_lines::told::Teller;
use vt_request::{Answer, Call, CallKind, TaskName};
use vt_spec::errors::{Deny, Rule};

// In how large pieces an answer is written.
const PIECE: usize = 8192;

/// What is told of a line. An allocation that fails is noted.
#[derive(Drop)]
pub struct Told {
    alloc: Global,
    // The number with which the answer is written.
    number: u64,
    /// Its answer, as a run writes it.
    pub text: Vec<u8>,
    pub is_refused: bool,
    /// The task that was born by it.
    pub child: Option<TaskName>,
    pub failed: bool,
}

// An answer, as a run writes it behind this number.
fn written(
    alloc: Global,
    number: u64,
    outcome: &Result<Answer, Deny>,
) -> Result<Vec<u8>, AllocError> {
    let mut sink = BytesSink::new(alloc, PIECE);
    match write_reply(&mut sink, number, outcome) {
        Ok(()) => sink.bytes().to_vec(alloc),
        Err(_) => Err(AllocError),
    }
}

impl Told {
    /// Before the line of this number is answered.
    pub fn new(alloc: Global, number: u64) -> Self {
        Told {
            alloc,
            number,
            text: Vec::new(alloc),
            is_refused: false,
            child: None,
            failed: false,
        }
    }

    // Notes an answer.
    fn note(&mut self, outcome: &Result<Answer, Deny>) {
        match written(self.alloc, self.number, outcome) {
            Ok(text) => self.text = text,
            Err(_) => self.failed = true,
        }
        match outcome {
            Ok(Answer::Child(name)) => match name.clone() {
                Ok(name) => self.child = Some(name),
                Err(_) => self.failed = true,
            },
            Ok(_) => {}
            Err(deny) => {
                self.is_refused = true;
                self.failed |= deny.rule == Rule::S5;
            }
        }
    }
}

impl<C> Teller<C> for Told {
    fn before(&mut self, _world: &C, _name: &TaskName, _call: &Call<'_>) {}

    fn after(
        &mut self,
        _world: &C,
        _name: TaskName,
        _kind: CallKind,
        outcome: &Result<Answer, Deny>,
    ) {
        self.note(outcome);
    }

    fn alone(&mut self, outcome: &Result<Answer, Deny>) {
        self.note(outcome);
    }
}
