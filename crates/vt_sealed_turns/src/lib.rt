//! Sealed sets of tasks in a world that takes turns, as `TurnKernel` does. Laws say what a turn leaves of a set that is
//! sealed off, and what turns of its tasks reply.
//!
//! They are of turns as the clauses of `Sched` have them (`TurnsAs`, `PlaysAs`), and hold also where an allocation
//! fails. A world of the definitions stands for that of the code (`TakesTurns`).
#![tactic(auto)]

pub mod members;
pub mod outsiders;
pub mod seen;
