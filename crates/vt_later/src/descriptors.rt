//! Calls on open files: open(2), pread(2), pwrite(2), close(2).
ghost use Rattle.std.specs.Prelude.{◌≡◌, ◌&&◌, ◌+◌, false, length, nat_eq, nat_le, nat_lt, not, List, Ok, ℕ};
ghost use Rattle.vt_spec.specs.Errors.{unless};
ghost use Rattle.vt_spec.specs.declared.errors.Rule.{Rule};
ghost use Rattle.vt_spec.specs.Language.Calls.{Access as AccessMeant, opens_for_writing};
ghost use Rattle.vt_spec.specs.Language.Calls.Call.{Close, OpenFile, Pread, Pwrite};
ghost use Rattle.vt_spec.specs.Language.Calls.Creation.{Exclusive, NoCreation, OrCreate};
ghost use Rattle.vt_spec.specs.Machine.Judging.{opens};
ghost use Rattle.vt_spec.specs.Language.Limits.{largest_file, most_descriptors};
ghost use Rattle.vt_spec.specs.Machine.Looks.{Looks};
ghost use Rattle.vt_spec.specs.PathText.{is_empty};
ghost use Rattle.vt_spec.specs.Machine.Rules.Conditions.{has_no_upper};
ghost use Rattle.vt_spec.specs.Machine.Rules.Descriptors.{access_rights, copy_rules, is_copied_up, open_rules};
ghost use Rattle.vt_cred.specs.Rights.{right_bits};
ghost use Rattle.vt_location.specs.Locations.{location_of};
ghost use Rattle.vt_request.specs.Requests.{access_of, creation_of};
ghost use Rattle.vt_tasks.specs.TaskValue.{task_of};
ghost use Rattle.vt_later.specs.Passing.{MountersStayAsked};
ghost use Rattle.vt_later.specs.Past.{by_looks, call_past, table_past};

use crate::making::made;
use crate::passing::{first, mounter_refusal, unless};
use crate::walks::{Aim, NameAim, led_to, placed};
use vt_cred::{Flags, Rights};
use vt_location::Location;
use vt_looks::{Asked, Look};
use vt_node::{Kind, LARGEST_FILE};
use vt_request::{Access, Creation};
use vt_rules::{OpenHow, is_directory, is_kind, is_read_only, may, readable_file, writable_file};
use vt_spec::errors::{Deny, Rule};
use vt_tasks::{MAX_DESCRIPTORS, Task};

// The rights that an access mode asks for, as one request.
fn rights_of(access: Access) -> Rights
    ensures { right_bits result ≡ access_rights (access_of access) }
{
    match access {
        Access::Read => Rights::READ,
        Access::Write => Rights::WRITE,
        Access::ReadWrite => Rights::READ.union(Rights::WRITE),
    }
}

// An object of lower layers alone is copied up as it is opened for writing: B1, B2.
fn copied<L: Look>(world: &L, file: Location, access: Access) -> Result<(), Deny>
    ensures { (opens_for_writing (access_of access) && has_no_upper (L.looks world.now) (location_of file)) ≡ false
        → result ≡ unless (copy_rules (is_copied_up (L.looks world.now) (location_of file) (access_of access))
        (L.looks world.now) (location_of file)) (Ok tt) }
{
    if access.writes() && world.is_only_below(file) {
        return mounter_refusal(world, file, Asked::Object);
    }
    Ok(())
}

// A file that is there is opened: E2, E9, F1, F2, L1, C1, B1, B2.
fn opened<L: Look>(
    world: &L,
    who: &Task,
    passed: &[Rule],
    file: Location,
    access: Access,
) -> Result<(), Deny>
    ensures { MountersStayAsked (L.looks world.now) → result ≡ table_past passed.now
        (open_rules (L.looks world.now) (task_of who.now) (location_of file) (access_of access)) }
{
    let writes = access.writes();
    let wanted = rights_of(access);
    let mounter = copied(world, file, access);
    let rows = [
        (is_directory(world, file), Rule::E2),
        (is_kind(world, file, Kind::White), Rule::E9),
        (writes & is_read_only(world, file), Rule::F1),
        (writes & world.has_no_upper(file), Rule::F2),
        (writes & world.is_locked(file), Rule::L1),
        (!may(world, who, file, wanted), Rule::C1),
        (!world.mounter_may(file, wanted), Rule::B1),
    ];
    unless(passed, &rows, mounter)
}

// A file has to be there.
fn open_there<L: Look>(
    world: &L,
    who: &Task,
    passed: &[Rule],
    path: &[u8],
    access: Access,
) -> Result<(), Deny>
    ensures { MountersStayAsked (L.looks world.now)
        → result ≡ by_looks (L.looks world.now) (task_of who.now) passed.now
        (opens nat_eq (L.looks world.now) (task_of who.now) path.now (access_of access) NoCreation) }
{
    let file = led_to(world, who, Aim::Object, path)?;
    opened(world, who, passed, file, access)
}

// `O_CREAT`: a missing file is made. E2 of the last word.
fn open_or_create<L: Look>(
    world: &L,
    who: &Task,
    passed: &[Rule],
    path: &[u8],
    access: Access,
) -> Result<(), Deny>
    ensures { MountersStayAsked (L.looks world.now) → (mode : ℕ)
        → result ≡ by_looks (L.looks world.now) (task_of who.now) passed.now
        (opens nat_eq (L.looks world.now) (task_of who.now) path.now (access_of access) (OrCreate mode)) }
{
    let place = placed(world, who, NameAim::File, path)?;
    let words = [(place.last.is_special() | place.slash, Rule::E2)];
    match place.object {
        Some(file) => unless(passed, &words, opened(world, who, passed, file, access)),
        None => made(world, who, passed, &place, &words),
    }
}

// `O_CREAT` and `O_EXCL`: the file must not be there. E1, E2 of the last word, E1.
fn open_exclusive<L: Look>(world: &L, who: &Task, passed: &[Rule], path: &[u8]) -> Result<(), Deny>
    ensures { MountersStayAsked (L.looks world.now) → (access : AccessMeant) → (mode : ℕ)
        → result ≡ by_looks (L.looks world.now) (task_of who.now) passed.now
        (opens nat_eq (L.looks world.now) (task_of who.now) path.now access (Exclusive mode)) }
{
    let place = placed(world, who, NameAim::NewName, path)?;
    let words = [(place.last.is_special(), Rule::E1), (place.slash, Rule::E2)];
    let there = [(place.object.is_some(), Rule::E1)];
    unless(passed, &words, made(world, who, passed, &place, &there))
}

// Whether the task has as many open files as it may have.
fn has_no_room(who: &Task) -> bool
    ensures { result ≡ nat_le most_descriptors (length (task_of who.now).descriptors) }
{
    who.descriptors.len() >= MAX_DESCRIPTORS
}

/// S3, and then those of a file that is there, or of one that is made.
#[tactic(auto, unfolding(vt_spec::specs::Machine::Judging::judging))]
pub fn open<L: Look>(
    world: &L,
    who: &Task,
    passed: &[Rule],
    path: &[u8],
    how: OpenHow,
) -> Result<(), Deny>
    ensures { MountersStayAsked (L.looks world.now)
        → result ≡ call_past (L.looks world.now) (task_of who.now) passed.now
        (OpenFile path.now (access_of how.access) (creation_of how.creation)) }
{
    first(passed, &[(has_no_room(who), Rule::S3)])?;
    let access = how.access;
    match how.creation {
        Creation::Never => open_there(world, who, passed, path, access),
        Creation::OrCreate(_) => open_or_create(world, who, passed, path, access),
        Creation::Exclusive(_) => open_exclusive(world, who, passed, path),
    }
}

/// S4.
#[tactic(auto, unfolding(vt_spec::specs::Machine::Judging::judging))]
pub fn pread(who: &Task, descriptor: u8) -> Result<(), Deny>
    ensures { (looks : Looks ℕ) → (passed : List Rule) → (offset size : ℕ)
        → result ≡ call_past looks (task_of who.now) passed (Pread descriptor offset size) }
{
    readable_file(who, descriptor)?;
    Ok(())
}

/// Bytes that pwrite(2) writes, and where.
#[derive(Clone, Copy)]
pub struct Part<'a> {
    pub offset: u32,
    pub bytes: &'a [u8],
}

// Whether bytes end over the limit of a file.
fn ends_too_late(part: Part<'_>) -> bool
    ensures { result ≡ (not (is_empty part.entry.bytes.now)
        && nat_lt largest_file (part.entry.offset + length part.entry.bytes.now)) }
{
    let (offset, size) = (part.offset as usize, part.bytes.len());
    !part.bytes.is_empty() && (offset > LARGEST_FILE || size > LARGEST_FILE - offset)
}

/// S4, E6, L1.
#[tactic(auto, unfolding(vt_spec::specs::Machine::Judging::judging))]
pub fn pwrite<L: Look>(
    world: &L,
    who: &Task,
    passed: &[Rule],
    descriptor: u8,
    part: Part<'_>,
) -> Result<(), Deny>
    ensures { result ≡ call_past (L.looks world.now) (task_of who.now) passed.now
        (Pwrite descriptor part.entry.offset part.entry.bytes.now) }
{
    let file = writable_file(who, descriptor)?;
    let rows = [
        (ends_too_late(part), Rule::E6),
        (world.is_locked(file), Rule::L1),
    ];
    first(passed, &rows)
}

/// S4.
#[tactic(auto, unfolding(vt_spec::specs::Machine::Judging::judging))]
pub fn close(who: &Task, descriptor: u8) -> Result<(), Deny>
    ensures { (looks : Looks ℕ) → (passed : List Rule)
        → result ≡ call_past looks (task_of who.now) passed (Close descriptor) }
{
    match who.descriptors.get(descriptor) {
        Some(_) => Ok(()),
        None => Err(Rule::S4.denial()),
    }
}
