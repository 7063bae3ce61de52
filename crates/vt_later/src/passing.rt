//! Tables of rules where some are let pass.
ghost use Rattle.std.specs.Prelude.{◌≡◌, ◌&&◌, false, not, Ok, ℕ};
ghost use Rattle.vt_laws_rules.specs.RuleRanks.{is_among};
ghost use Rattle.vt_spec.specs.Errors.{unless};
ghost use Rattle.vt_spec.specs.Language.Changes.{Change};
ghost use Rattle.vt_spec.specs.Machine.Rules.Conditions.{has_no_upper};
ghost use Rattle.vt_spec.specs.Machine.Rules.Mounting.{admin_rules};
ghost use Rattle.vt_location.specs.Locations.{location_of};
ghost use Rattle.vt_looks.specs.Asking.{asked_at, asked_by};
ghost use Rattle.vt_tasks.specs.TaskValue.{task_of};
ghost use Rattle.vt_later.specs.Passing.{can_pass, lets_pass, without};
ghost use Rattle.vt_later.specs.Past.{table_past};

use vt_cred::Caps;
use vt_location::Location;
use vt_looks::{Asked, Look};
use vt_rules::lacks;
use vt_spec::errors::{Deny, Rule};
use vt_tasks::Task;

/// A row of a table: whether its rule fails.
pub(crate) type Row = (bool, Rule);

// Whether a rule can be let pass.
fn can_pass(rule: Rule) -> bool
    ensures { result ≡ can_pass rule }
{
    match rule {
        Rule::S3 | Rule::S6 | Rule::K1 => true,
        Rule::E1 | Rule::E2 | Rule::E3 | Rule::E4 | Rule::E5 => true,
        Rule::E6 | Rule::E7 | Rule::E8 | Rule::E9 => true,
        Rule::F1 | Rule::F3 | Rule::L1 | Rule::P1 | Rule::P2 => true,
        Rule::C1 | Rule::C2 | Rule::C3 => true,
        Rule::M2 | Rule::M3 | Rule::M4 | Rule::M5 | Rule::M6 | Rule::M7 => true,
        Rule::M8 | Rule::M9 | Rule::M10 | Rule::M11 | Rule::M12 => true,
        _ => false,
    }
}

/// Whether a rule is one of these.
pub fn is_among(rule: Rule, rules: &[Rule]) -> bool
    ensures { result ≡ is_among rule rules.now }
{
    rules.iter().any(|one| one.name() == rule.name())
}

// Whether a row refuses.
fn refuses(passed: &[Rule], fails: bool, rule: Rule) -> bool
    ensures { result ≡ (fails && not (lets_pass passed.now rule)) }
{
    fails && !(can_pass(rule) && is_among(rule, passed))
}

/// The refusal by the first row that fails and is not let pass, else what is asked behind the rows.
pub(crate) fn unless(passed: &[Rule], rows: &[Row], behind: Result<(), Deny>) -> Result<(), Deny>
    ensures { result ≡ unless (without (lets_pass passed.now) rows.now) behind }
{
    for (fails, rule) in rows {
        if refuses(passed, *fails, *rule) {
            return Err(rule.denial());
        }
    }
    behind
}

/// The refusal by the first row that fails and is not let pass.
pub(crate) fn first(passed: &[Rule], rows: &[Row]) -> Result<(), Deny>
    ensures { result ≡ table_past passed.now rows.now }
{
    unless(passed, rows, Ok(()))
}

/// K1 (EPERM), unless it is let pass: mount(2).
pub(crate) fn may_administer(who: &Task, passed: &[Rule]) -> Result<(), Deny>
    ensures { result ≡ table_past passed.now (admin_rules (task_of who.now)) }
{
    first(passed, &[(lacks(who, Caps::CAP_SYS_ADMIN), Rule::K1)])
}

/// What the mounter of an overlay is asked for a change: B1 (EACCES), B2 (EPERM). Without an upper layer F2 has refused.
pub(crate) fn mounter_refusal<L: Look>(world: &L, at: Location, asked: Asked) -> Result<(), Deny>
    ensures { (change : Change ℕ) → asked_by change ≡ asked_at at asked
        → has_no_upper (L.looks world.now) (location_of at) ≡ false
        → result ≡ unless ((L.looks world.now).mounter_rules (location_of at) change) (Ok tt) }
{
    if world.has_no_upper(at) {
        return Ok(());
    }
    world.mounter_may_change(at, asked)
}
