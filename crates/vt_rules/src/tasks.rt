//! Where a task may go, and which children it may have: chdir(2), chroot(2), fork(2), setuid(2), setgroups(2),
//! capset(2).
ghost use Rattle.std.specs.Prelude.{◌≡◌, ◌||◌, length, nat_le, Ok, Some};
ghost use Rattle.vt_spec.specs.Language.Limits.{deepest_name, most_forks};
ghost use Rattle.vt_spec.specs.Errors.{unless};
ghost use Rattle.vt_spec.specs.Machine.Tasks.{capabilities_of, child_credentials};
ghost use Rattle.vt_spec.specs.Machine.Rules.Tasks.{enter_rules, fork_rules};
ghost use Rattle.vt_cred.specs.Caps.{capability_bits};
ghost use Rattle.vt_location.specs.Locations.{location_of};
ghost use Rattle.vt_request.specs.Requests.{capabilities_of as word_of, fork_words_of};
ghost use Rattle.vt_tasks.specs.TaskValue.{task_of};

use crate::rights::may;
use vt_cred::{Caps, Cred, Rights};
use vt_location::Location;
use vt_looks::Look;
use vt_request::{CapsWord, ForkWords};
use vt_spec::errors::{Deny, Rule};
use vt_tasks::{MAX_DEPTH, MAX_FORKS, Task};

/// A directory may be entered: chdir(2), chroot(2).
///
/// C1 (EACCES), B1 (EACCES).
pub fn may_enter<L: Look>(world: &L, who: &Task, directory: Location) -> Result<(), Deny>
    ensures { result ≡ unless
        (enter_rules (L.looks world.now) (task_of who.now) (location_of directory)) (Ok tt) }
{
    if !may(world, who, directory, Rights::SEARCH) {
        return Err(Rule::C1.denial());
    }
    if !world.mounter_may(directory, Rights::SEARCH) {
        return Err(Rule::B1.denial());
    }
    Ok(())
}

/// The capabilities that a word names: capset(2).
pub fn named(who: &Cred, caps: CapsWord) -> Caps
    ensures { capability_bits result ≡ capabilities_of (word_of caps) who.now }
{
    match caps {
        CapsWord::Held => who.caps(),
        CapsWord::Named(caps) => caps,
    }
}

/// Whether the task has no more forks, or its name can have no more numbers: fork(2).
pub fn is_barren(who: &Task) -> bool
    ensures { result ≡ (nat_le most_forks (task_of who.now).forks
        || nat_le deepest_name (length (task_of who.now).name)) }
{
    who.forks >= MAX_FORKS || who.name.numbers().len() >= MAX_DEPTH
}

/// The task may fork a child with these credentials: fork(2), then setgroups(2), setgid(2), setuid(2) and
/// capset(2) of the child.
///
/// S6 (ENOSPC), K1 (EPERM).
pub fn may_fork(who: &Task, child: &ForkWords) -> Result<(), Deny>
    ensures { result ≡ unless (fork_rules (task_of who.now)
        (child_credentials (task_of who.now).credentials (Some (fork_words_of child.now)))) (Ok tt) }
{
    if is_barren(who) {
        return Err(Rule::S6.denial());
    }
    let cred = &who.cred;
    if child.uid != cred.uid() && !cred.has(Caps::CAP_SETUID) {
        return Err(Rule::K1.denial());
    }
    if (child.gid != cred.gid() || child.groups.as_slice() != cred.groups())
        && !cred.has(Caps::CAP_SETGID)
    {
        return Err(Rule::K1.denial());
    }
    if !cred.has(named(cred, child.caps)) {
        return Err(Rule::K1.denial());
    }
    Ok(())
}
