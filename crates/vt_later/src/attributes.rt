//! Calls that set attributes and marks: chmod(2), chown(2), setxattr(2).
ghost use Rattle.std.specs.Prelude.{◌≡◌, Bool, ℕ};
ghost use Rattle.vt_spec.specs.declared.attributes.Attr.{Attr as AttrMeant};
ghost use Rattle.vt_spec.specs.Language.Calls.Call.{Chmod, Chown, Opaque};
ghost use Rattle.vt_spec.specs.Machine.Rules.Attributes.{attr_rules};
ghost use Rattle.vt_location.specs.Locations.{location_of};
ghost use Rattle.vt_tasks.specs.TaskValue.{task_of};
ghost use Rattle.vt_later.specs.Passing.{MountersStayAsked};
ghost use Rattle.vt_later.specs.Past.{call_past, table_past};

use crate::passing::{first, may_administer, mounter_refusal, unless};
use crate::walks::{Aim, led_to};
use vt_cred::owns;
use vt_location::Location;
use vt_looks::{Asked, Look};
use vt_node::Attr;
use vt_rules::{attr_at, is_read_only, may_chown};
use vt_spec::errors::{Deny, Rule};
use vt_tasks::Task;

// Attributes are set, by one who is allowed to or not: F1, F2, L1, C2, B1, B2.
fn attr_set<L: Look>(
    world: &L,
    passed: &[Rule],
    object: Location,
    allowed: bool,
) -> Result<(), Deny>
    ensures { MountersStayAsked (L.looks world.now) → (attr : AttrMeant) → result ≡ table_past passed.now
        (attr_rules (L.looks world.now) (location_of object) allowed attr) }
{
    let mounter = mounter_refusal(world, object, Asked::Object);
    let rows = [
        (is_read_only(world, object), Rule::F1),
        (world.has_no_upper(object), Rule::F2),
        (world.is_locked(object), Rule::L1),
        (!allowed, Rule::C2),
    ];
    unless(passed, &rows, mounter)
}

/// F1, F2, L1, C2, B1, B2.
#[tactic(auto, unfolding(vt_spec::specs::Machine::Judging::judging))]
pub fn chmod<L: Look>(world: &L, who: &Task, passed: &[Rule], path: &[u8]) -> Result<(), Deny>
    ensures { MountersStayAsked (L.looks world.now) → (mode : ℕ)
        → result ≡ call_past (L.looks world.now) (task_of who.now) passed.now (Chmod path.now mode) }
{
    let object = led_to(world, who, Aim::Object, path)?;
    let owner = owns(&who.cred, &attr_at(world, object));
    attr_set(world, passed, object, owner)
}

/// Whom chown(2) is to make the owner and the group; `None` keeps them.
#[derive(Clone, Copy, Debug)]
pub struct Owners {
    pub uid: Option<u32>,
    pub gid: Option<u32>,
}

/// F1, F2, L1, C2, B1, B2.
#[tactic(auto, unfolding(vt_spec::specs::Machine::Judging::judging))]
pub fn chown<L: Look>(
    world: &L,
    who: &Task,
    passed: &[Rule],
    path: &[u8],
    owners: Owners,
) -> Result<(), Deny>
    ensures { MountersStayAsked (L.looks world.now)
        → result ≡ call_past (L.looks world.now) (task_of who.now) passed.now (Chown path.now owners.uid owners.gid) }
{
    let object = led_to(world, who, Aim::Object, path)?;
    let old = attr_at(world, object);
    let new = Attr {
        uid: owners.uid.unwrap_or(old.uid),
        gid: owners.gid.unwrap_or(old.gid),
        mode: old.mode,
    };
    attr_set(world, passed, object, may_chown(&who.cred, &old, &new))
}

/// K1, and after the walk F1, F2, L1, O4.
#[tactic(auto, unfolding(vt_spec::specs::Machine::Judging::judging))]
pub fn opaque<L: Look>(world: &L, who: &Task, passed: &[Rule], path: &[u8]) -> Result<(), Deny>
    ensures { (mark : Bool)
        → result ≡ call_past (L.looks world.now) (task_of who.now) passed.now (Opaque path.now mark) }
{
    may_administer(who, passed)?;
    let directory = led_to(world, who, Aim::Directory, path)?;
    let rows = [
        (is_read_only(world, directory), Rule::F1),
        (world.has_no_upper(directory), Rule::F2),
        (world.is_locked(directory), Rule::L1),
        (world.is_overlay(directory), Rule::O4),
    ];
    first(passed, &rows)
}
