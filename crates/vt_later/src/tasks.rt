//! Calls on tasks and namespaces: chdir(2), chroot(2), fork(2), unshare(2), setns(2).
ghost use Rattle.std.specs.Prelude.{◌≡◌, List, option_map, ℕ};
ghost use Rattle.vt_spec.specs.declared.errors.Rule.{Rule};
ghost use Rattle.vt_spec.specs.Language.Calls.Call.{Chdir, Chroot, Fork, Setns, Unshare};
ghost use Rattle.vt_spec.specs.Machine.Looks.{Looks};
ghost use Rattle.vt_spec.specs.Machine.Rules.Tasks.{enter_rules};
ghost use Rattle.vt_location.specs.Locations.{location_of};
ghost use Rattle.vt_request.specs.Requests.{fork_words_of};
ghost use Rattle.vt_tasks.specs.TaskValue.{task_of};
ghost use Rattle.vt_later.specs.Past.{call_past, table_past};

use crate::passing::{first, may_administer};
use crate::walks::{Aim, led_to};
use vt_cred::{Caps, Rights};
use vt_location::Location;
use vt_looks::Look;
use vt_request::{ForkWords, TaskName};
use vt_rules::{is_barren, lacks, may, named};
use vt_spec::errors::{Deny, Rule};
use vt_tasks::Task;

// A directory is entered: C1, B1.
fn entered<L: Look>(world: &L, who: &Task, passed: &[Rule], directory: Location) -> Result<(), Deny>
    ensures { result ≡ table_past passed.now
        (enter_rules (L.looks world.now) (task_of who.now) (location_of directory)) }
{
    let rows = [
        (!may(world, who, directory, Rights::SEARCH), Rule::C1),
        (!world.mounter_may(directory, Rights::SEARCH), Rule::B1),
    ];
    first(passed, &rows)
}

/// C1, B1.
#[tactic(auto, unfolding(vt_spec::specs::Machine::Judging::judging))]
pub fn chdir<L: Look>(world: &L, who: &Task, passed: &[Rule], path: &[u8]) -> Result<(), Deny>
    ensures { result ≡ call_past (L.looks world.now) (task_of who.now) passed.now (Chdir path.now) }
{
    let directory = led_to(world, who, Aim::Directory, path)?;
    entered(world, who, passed, directory)
}

/// K1, and after the walk C1, B1.
#[tactic(auto, unfolding(vt_spec::specs::Machine::Judging::judging))]
pub fn chroot<L: Look>(world: &L, who: &Task, passed: &[Rule], path: &[u8]) -> Result<(), Deny>
    ensures { result ≡ call_past (L.looks world.now) (task_of who.now) passed.now (Chroot path.now) }
{
    first(passed, &[(lacks(who, Caps::CAP_SYS_CHROOT), Rule::K1)])?;
    let root = led_to(world, who, Aim::Directory, path)?;
    entered(world, who, passed, root)
}

/// S6, K1.
#[tactic(auto, unfolding(vt_spec::specs::Machine::Judging::judging))]
pub fn fork(who: &Task, passed: &[Rule], words: &Option<ForkWords>) -> Result<(), Deny>
    ensures { (looks : Looks ℕ) → result ≡ call_past looks (task_of who.now) passed.now
        (Fork (option_map fork_words_of words.now)) }
{
    let barren = (is_barren(who), Rule::S6);
    let Some(child) = words else {
        return first(passed, &[barren]);
    };
    let cred = &who.cred;
    let other_groups = child.gid != cred.gid() || child.groups.as_slice() != cred.groups();
    let rows = [
        barren,
        (
            child.uid != cred.uid() && !cred.has(Caps::CAP_SETUID),
            Rule::K1,
        ),
        (other_groups && !cred.has(Caps::CAP_SETGID), Rule::K1),
        (!cred.has(named(cred, child.caps)), Rule::K1),
    ];
    first(passed, &rows)
}

/// K1.
#[tactic(auto, unfolding(vt_spec::specs::Machine::Judging::judging))]
pub fn unshare(who: &Task, passed: &[Rule]) -> Result<(), Deny>
    ensures { (looks : Looks ℕ) → result ≡ call_past looks (task_of who.now) passed.now Unshare }
{
    may_administer(who, passed)
}

/// S2 of the task that is named, K1.
#[tactic(auto, unfolding(vt_spec::specs::Machine::Judging::judging))]
pub fn setns<L: Look>(world: &L, who: &Task, passed: &[Rule], name: &TaskName) -> Result<(), Deny>
    ensures { result ≡ call_past (L.looks world.now) (task_of who.now) passed.now (Setns name.now) }
{
    if world.namespace_called(name).is_none() {
        return Err(Rule::S2.denial());
    }
    let lacking = lacks(who, Caps::CAP_SYS_ADMIN) | lacks(who, Caps::CAP_SYS_CHROOT);
    first(passed, &[(lacking, Rule::K1)])
}
