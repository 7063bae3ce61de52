//! The later rules that a refused line would fail too.
ghost use Rattle.std.specs.Prelude.{◌≡◌, ◌++◌, ◌∷◌, [], drop, List, IfOk, OnOk};
ghost use Rattle.vt_spec.specs.declared.errors.Rule.{Rule};
ghost use Rattle.vt_spec.specs.Language.Calls.{Call};
ghost use Rattle.vt_line.specs.Versions.{version_of};
ghost use Rattle.vt_tasks.specs.TaskValue.{task_of};
ghost use Rattle.vt_later.specs.Passing.{MountersStayAsked};
ghost use Rattle.vt_explain.specs.LaterRules.{IsCallIn, RefuseInTurn, refusal};

use std::alloc::{AllocError, Global};
use vt_check::draft::Draft;
use vt_later::{is_among, refusal};
use vt_layers::LookAtLayers;
use vt_line::line::Line;
use vt_script::Version;
use vt_spec::errors::Rule;
use vt_tasks::Task;

/// The most rules that are told.
const MOST: u8 = 16;

/// A line that was refused, the world in which it was, and who called.
#[derive(Drop)]
pub struct Refused<'a, L: LookAtLayers> {
    pub version: Version,
    pub alloc: Global,
    pub world: &'a L,
    pub who: &'a Task,
    pub line: &'a [u8],
}

// The rule that refuses the line where these are let pass, if one does.
fn refusal_of<L: LookAtLayers>(
    refused: &Refused<'_, L>,
    passed: &[Rule],
) -> Result<Option<Rule>, AllocError>
    ensures { MountersStayAsked (L.looks refused.now.world.now) → IfOk result (λ rule. (call : Call)
        → IsCallIn (version_of refused.now.version) refused.now.line.now call
        → rule ≡ refusal (L.looks refused.now.world.now) (L.overfills refused.now.world.now)
        (task_of refused.now.who.now) call passed.now) }
{
    let mut texts = None;
    match Line::parse_as(refused.version, refused.alloc, refused.line, &mut texts) {
        Ok(Line::Call(_, call)) => refusal(refused.world, refused.who, &call, passed),
        Ok(_) => Ok(None),
        Err(deny) => {
            if deny.rule == Rule::S5 {
                return Err(AllocError);
            }
            Ok(None)
        }
    }
}

// Adds so many rules that refuse the line where those that are there are let pass.
fn push_rules_behind<L: LookAtLayers>(
    refused: &Refused<'_, L>,
    most: u8,
    rules: &mut Vec<Rule>,
) -> Result<(), AllocError>
    ensures { OnOk result (MountersStayAsked (L.looks refused.now.world.now) → (call : Call)
        → IsCallIn (version_of refused.now.version) refused.now.line.now call
        → (told : List Rule) × (rules.new.items ≡ rules.old.items ++ told)
        × RefuseInTurn (refusal (L.looks refused.now.world.now) (L.overfills refused.now.world.now)
        (task_of refused.now.who.now) call) most rules.old.items told) }
{
    if most == 0 {
        return Ok(());
    }
    let Some(rule) = refusal_of(refused, rules.as_slice())? else {
        return Ok(());
    };
    if is_among(rule, rules.as_slice()) {
        return Ok(());
    }
    rules.push(rule)?;
    push_rules_behind(refused, most - 1, rules)
}

// The rules behind the first.
fn behind_first(rules: &[Rule]) -> &[Rule]
    ensures { result.now ≡ drop 1 rules.now }
{
    match rules.split_first() {
        Some((_, behind)) => behind,
        None => rules,
    }
}

/// The rules that refuse a line behind the one that did, in the policy's order: each where those before it are let pass,
/// at most 16. Behind a rule that cannot be let pass none is told.
pub fn later_rules<L: LookAtLayers>(
    refused: &Refused<'_, L>,
    first: Rule,
) -> Result<Vec<Rule>, AllocError>
    ensures { MountersStayAsked (L.looks refused.now.world.now) → IfOk result (λ rules. (call : Call)
        → IsCallIn (version_of refused.now.version) refused.now.line.now call
        → RefuseInTurn (refusal (L.looks refused.now.world.now) (L.overfills refused.now.world.now)
        (task_of refused.now.who.now) call) 16 (first ∷ []) rules.items) }
{
    let mut rules = Vec::new(refused.alloc);
    rules.push(first)?;
    push_rules_behind(refused, MOST, &mut rules)?;
    Vec::from_slice(refused.alloc, behind_first(rules.as_slice()))
}

/// Appends rules, each with its error.
pub fn push_rules(text: &mut Draft, rules: &[Rule]) {
    for (index, rule) in rules.iter().enumerate() {
        if index > 0 {
            text.push(", ");
        }
        text.push(rule.name());
        text.push(" (");
        text.push(rule.errno().name());
        text.push(")");
    }
}
