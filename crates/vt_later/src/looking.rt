//! Calls that look: stat(2), readlink(2), read(2), getdents(2), execve(2).
ghost use Rattle.std.specs.Prelude.{◌≡◌};
ghost use Rattle.vt_spec.specs.Language.Calls.Call.{Exec, Ls, Lstat, Read, Readlink, Stat};
ghost use Rattle.vt_tasks.specs.TaskValue.{task_of};
ghost use Rattle.vt_later.specs.Past.{call_past};

use crate::passing::first;
use crate::walks::{Aim, led_to};
use vt_cred::Rights;
use vt_looks::Look;
use vt_node::Kind;
use vt_rules::{is_directory, is_kind, is_noexec, may};
use vt_spec::errors::{Deny, Rule};
use vt_tasks::Task;

/// C1, B1.
#[tactic(auto, unfolding(vt_spec::specs::Machine::Judging::judging))]
pub fn list<L: Look>(world: &L, who: &Task, passed: &[Rule], path: &[u8]) -> Result<(), Deny>
    ensures { result ≡ call_past (L.looks world.now) (task_of who.now) passed.now (Ls path.now) }
{
    let directory = led_to(world, who, Aim::Directory, path)?;
    let rows = [
        (!may(world, who, directory, Rights::READ), Rule::C1),
        (!world.mounter_may(directory, Rights::READ), Rule::B1),
    ];
    first(passed, &rows)
}

/// The rules of the walk alone.
#[tactic(auto, unfolding(vt_spec::specs::Machine::Judging::judging))]
pub fn stat<L: Look>(world: &L, who: &Task, passed: &[Rule], path: &[u8]) -> Result<(), Deny>
    ensures { result ≡ call_past (L.looks world.now) (task_of who.now) passed.now (Stat path.now) }
{
    led_to(world, who, Aim::Object, path)?;
    Ok(())
}

/// The rules of the walk alone.
#[tactic(auto, unfolding(vt_spec::specs::Machine::Judging::judging))]
pub fn lstat<L: Look>(world: &L, who: &Task, passed: &[Rule], path: &[u8]) -> Result<(), Deny>
    ensures { result ≡ call_past (L.looks world.now) (task_of who.now) passed.now (Lstat path.now) }
{
    led_to(world, who, Aim::Symlink, path)?;
    Ok(())
}

/// E5.
#[tactic(auto, unfolding(vt_spec::specs::Machine::Judging::judging))]
pub fn readlink<L: Look>(world: &L, who: &Task, passed: &[Rule], path: &[u8]) -> Result<(), Deny>
    ensures { result ≡ call_past (L.looks world.now) (task_of who.now) passed.now (Readlink path.now) }
{
    let symlink = led_to(world, who, Aim::Symlink, path)?;
    let rows = [(!is_kind(world, symlink, Kind::Symlink), Rule::E5)];
    first(passed, &rows)
}

/// E2, E9, C1, B1.
#[tactic(auto, unfolding(vt_spec::specs::Machine::Judging::judging))]
pub fn read<L: Look>(world: &L, who: &Task, passed: &[Rule], path: &[u8]) -> Result<(), Deny>
    ensures { result ≡ call_past (L.looks world.now) (task_of who.now) passed.now (Read path.now) }
{
    let file = led_to(world, who, Aim::Object, path)?;
    let rows = [
        (is_directory(world, file), Rule::E2),
        (is_kind(world, file, Kind::White), Rule::E9),
        (!may(world, who, file, Rights::READ), Rule::C1),
        (!world.mounter_may(file, Rights::READ), Rule::B1),
    ];
    first(passed, &rows)
}

/// E8, F3, C1, B1.
#[tactic(auto, unfolding(vt_spec::specs::Machine::Judging::judging))]
pub fn exec<L: Look>(world: &L, who: &Task, passed: &[Rule], path: &[u8]) -> Result<(), Deny>
    ensures { result ≡ call_past (L.looks world.now) (task_of who.now) passed.now (Exec path.now) }
{
    let file = led_to(world, who, Aim::Object, path)?;
    let rows = [
        (!is_kind(world, file, Kind::File), Rule::E8),
        (is_noexec(world, file), Rule::F3),
        (!may(world, who, file, Rights::EXECUTE), Rule::C1),
        (!world.mounter_may(file, Rights::EXECUTE), Rule::B1),
    ];
    first(passed, &rows)
}
