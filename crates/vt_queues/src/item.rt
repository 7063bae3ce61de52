//! What waits in a queue.
ghost use Rattle.std.specs.Prelude.{◌≡◌};
ghost use Rattle.vt_spec.specs.Machine.Turns.{same_who};
ghost use Rattle.vt_queues.specs.QueuesValue.{who_meant};

use crate::call_line::CallLine;
use vt_request::{Directive, TaskName};
use vt_spec::errors::Deny;

/// Whose queue it is.
#[derive(Debug, Drop, PartialEq, Eq)]
pub enum Who {
    Task(TaskName),
    /// That of `!`.
    Nobody,
}

impl Who {
    /// Whether both are the same task, or both are `!`.
    pub(crate) fn is(&self, other: &Who) -> bool
        ensures { result ≡ same_who (who_meant self.now) (who_meant other.now) }
    {
        match (self, other) {
            (Who::Task(name), Who::Task(other)) => name == other,
            (Who::Nobody, Who::Nobody) => true,
            _ => false,
        }
    }
}

/// What stands in a queue.
#[derive(Debug, Drop)]
pub enum Item {
    Run(CallLine),
    Ask(Directive),
    /// A line that is refused.
    Refused(Deny),
}

/// An item, with the number of its line in the script.
#[derive(Debug, Drop)]
pub struct Queued {
    pub line: u64,
    pub item: Item,
}
