//! What lines ask for.
ghost use Rattle.std.specs.Prelude.{◌≡◌, IfOk};
ghost use Rattle.vt_spec.specs.declared.errors.Rule.TheVariants.{S1};
ghost use Rattle.vt_line.specs.Versions.{version_of};
ghost use Rattle.vt_turns_run.specs.Placed.{IsAsked};

use std::alloc::{AllocError, Global};
use vt_line::line::{Line, Unescaped};
use vt_line::version::Version;
use vt_request::{Directive, TaskName};
use vt_spec::errors::{Deny, Rule};

/// What a line asks for, but for the words of a call.
#[derive(Drop)]
pub(crate) enum Asked {
    /// It has no answer.
    Silent,
    /// It asks for a call of this task.
    Call(TaskName),
    Ask(Directive),
    /// It is too long, or not of the grammar.
    Nothing,
}

// What a line asks for that is refused so: nothing, unless there was no memory to read it.
fn nothing(deny: Deny) -> Result<Asked, AllocError>
    ensures { IfOk result (λ asked. (asked ≡ Asked.Nothing) × (deny.rule ≡ S1)) }
{
    if deny.rule == Rule::S1 {
        Ok(Asked::Nothing)
    } else {
        Err(AllocError)
    }
}

/// Reads a line.
#[tactic(auto, using(crate::proofs::Placing::asks_nothing, crate::proofs::Placing::asks_call))]
pub(crate) fn read_line(version: Version, alloc: Global, line: &[u8]) -> Result<Asked, AllocError>
    ensures { IfOk result (IsAsked (version_of version) line.now) }
{
    let mut texts: Option<Unescaped> = None;
    match Line::parse_as(version, alloc, line, &mut texts) {
        Ok(Line::Silent) => Ok(Asked::Silent),
        Ok(Line::Call(name, _)) => Ok(Asked::Call(name)),
        Ok(Line::Ask(directive)) => Ok(Asked::Ask(directive)),
        Err(deny) => nothing(deny),
    }
}
