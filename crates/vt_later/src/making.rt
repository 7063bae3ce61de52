//! Calls that make a name, and write: mkdir(2), symlink(2), mknod(2), link(2), write(2).
ghost use Rattle.std.specs.Prelude.{◌≡◌, ◌++◌, length, nat_eq, nat_lt, not, Option, ℕ};
ghost use Rattle.vt_spec.specs.Language.Calls.Call.{LinkTo, MakeWhiteout, Mkdir, SymlinkAt, Write};
ghost use Rattle.vt_spec.specs.Language.Limits.{largest_file};
ghost use Rattle.vt_spec.specs.Machine.Judging.{unnumbered};
ghost use Rattle.vt_spec.specs.Machine.Rules.Making.{make_rules, rewrite_rules};
ghost use Rattle.vt_spec.specs.Tree.{Node as NodeMeant};
ghost use Rattle.vt_location.specs.Locations.{location_of};
ghost use Rattle.vt_tasks.specs.TaskValue.{task_of};
ghost use Rattle.vt_walk.specs.WalkValue.{place_of};
ghost use Rattle.vt_later.specs.Passing.{MountersStayAsked};
ghost use Rattle.vt_later.specs.Past.{call_past, table_past};

use crate::passing::{Row, first, mounter_refusal, unless};
use crate::walks::{Aim, NameAim, led_to, placed};
use vt_cred::Rights;
use vt_location::Location;
use vt_looks::{Asked, Look, Place};
use vt_node::{Kind, LARGEST_FILE};
use vt_rules::{is_directory, is_kind, is_read_only, may};
use vt_spec::errors::{Deny, Rule};
use vt_tasks::Task;
use vt_text::path::LONGEST_PATH;

// Whether two locations are on different mounts.
fn are_apart(one: Location, other: Location) -> bool
    ensures { result ≡ not (nat_eq (location_of one).mount (location_of other).mount) }
{
    one.mount != other.mount
}

/// The refusal by rows on a place's last word, or behind them by a rule on what is made there: F1, F2, L1, C1, B1, B2.
pub fn made<L: Look>(
    world: &L,
    who: &Task,
    passed: &[Rule],
    place: &Place<'_>,
    words: &[Row],
) -> Result<(), Deny>
    ensures { MountersStayAsked (L.looks world.now) → (node : NodeMeant ℕ) → result ≡ table_past passed.now
        (words.now ++ make_rules (L.looks world.now) (task_of who.now) (place_of place.now)
        (unnumbered (place_of place.now) node)) }
{
    let at = place.parent;
    let mounter = mounter_refusal(world, at, Asked::Entry);
    let rows = [
        (is_read_only(world, at), Rule::F1),
        (world.has_no_upper(at), Rule::F2),
        (world.is_locked(at), Rule::L1),
        (!may(world, who, at, Rights::WRITE), Rule::C1),
        (!world.mounter_may(at, Rights::WRITE), Rule::B1),
    ];
    unless(passed, words, unless(passed, &rows, mounter))
}

/// E1, F1, F2, L1, C1, B1, B2.
#[tactic(auto, unfolding(vt_spec::specs::Machine::Judging::judging))]
pub fn mkdir<L: Look>(world: &L, who: &Task, passed: &[Rule], path: &[u8]) -> Result<(), Deny>
    ensures { MountersStayAsked (L.looks world.now) → (mode : Option ℕ)
        → result ≡ call_past (L.looks world.now) (task_of who.now) passed.now (Mkdir path.now mode) }
{
    let place = placed(world, who, NameAim::NewName, path)?;
    let words = [
        (place.last.is_special(), Rule::E1),
        (place.object.is_some(), Rule::E1),
    ];
    made(world, who, passed, &place, &words)
}

/// W1, W2 of the text, E1, F1, F2, L1, C1, B1, B2.
#[tactic(auto, unfolding(vt_spec::specs::Machine::Judging::judging))]
pub fn symlink<L: Look>(
    world: &L,
    who: &Task,
    passed: &[Rule],
    text: &[u8],
    path: &[u8],
) -> Result<(), Deny>
    ensures { MountersStayAsked (L.looks world.now)
        → result ≡ call_past (L.looks world.now) (task_of who.now) passed.now (SymlinkAt text.now path.now) }
{
    if text.is_empty() {
        return Err(Rule::W1.denial());
    }
    if text.len() > LONGEST_PATH {
        return Err(Rule::W2.denial());
    }
    let place = placed(world, who, NameAim::NewLeaf, path)?;
    let words = [
        (place.last.is_special(), Rule::E1),
        (place.object.is_some(), Rule::E1),
    ];
    made(world, who, passed, &place, &words)
}

/// E1, F1, F2, L1, C1, O4.
#[tactic(auto, unfolding(vt_spec::specs::Machine::Judging::judging))]
pub fn whiteout<L: Look>(world: &L, who: &Task, passed: &[Rule], path: &[u8]) -> Result<(), Deny>
    ensures { result ≡ call_past (L.looks world.now) (task_of who.now) passed.now (MakeWhiteout path.now) }
{
    let place = placed(world, who, NameAim::NewLeaf, path)?;
    let at = place.parent;
    let rows = [
        (place.last.is_special(), Rule::E1),
        (place.object.is_some(), Rule::E1),
        (is_read_only(world, at), Rule::F1),
        (world.has_no_upper(at), Rule::F2),
        (world.is_locked(at), Rule::L1),
        (!may(world, who, at, Rights::WRITE), Rule::C1),
        (world.is_overlay(at), Rule::O4),
    ];
    first(passed, &rows)
}

/// E1, E7, F1, F2, L1, P2, C1, B1, B2.
#[tactic(auto, unfolding(vt_spec::specs::Machine::Judging::judging))]
pub fn link<L: Look>(
    world: &L,
    who: &Task,
    passed: &[Rule],
    old: &[u8],
    new: &[u8],
) -> Result<(), Deny>
    ensures { MountersStayAsked (L.looks world.now)
        → result ≡ call_past (L.looks world.now) (task_of who.now) passed.now (LinkTo old.now new.now) }
{
    let object = led_to(world, who, Aim::Symlink, old)?;
    let place = placed(world, who, NameAim::NewLeaf, new)?;
    let at = place.parent;
    let name = Asked::Name {
        object: object.node,
    };
    let mounter = mounter_refusal(world, at, name);
    let rows = [
        (place.last.is_special(), Rule::E1),
        (place.object.is_some(), Rule::E1),
        (is_directory(world, object), Rule::E7),
        (is_read_only(world, at), Rule::F1),
        (world.has_no_upper(at), Rule::F2),
        (world.is_locked(object) | world.is_locked(at), Rule::L1),
        (are_apart(object, at), Rule::P2),
        (!may(world, who, at, Rights::WRITE), Rule::C1),
        (!world.mounter_may(at, Rights::WRITE), Rule::B1),
    ];
    unless(passed, &rows, mounter)
}

// Whether content is over the limit of a file.
fn is_too_large(bytes: &[u8]) -> bool
    ensures { result ≡ nat_lt largest_file (length bytes.now) }
{
    bytes.len() > LARGEST_FILE
}

// A file that is there is rewritten: E2, E6, E9, F1, F2, L1, C1, B1, B2.
fn rewritten<L: Look>(
    world: &L,
    who: &Task,
    passed: &[Rule],
    file: Location,
    bytes: &[u8],
) -> Result<(), Deny>
    ensures { MountersStayAsked (L.looks world.now) → result ≡ table_past passed.now
        (rewrite_rules (L.looks world.now) (task_of who.now) (location_of file) bytes.now) }
{
    let mounter = mounter_refusal(world, file, Asked::Object);
    let rows = [
        (is_directory(world, file), Rule::E2),
        (is_too_large(bytes), Rule::E6),
        (is_kind(world, file, Kind::White), Rule::E9),
        (is_read_only(world, file), Rule::F1),
        (world.has_no_upper(file), Rule::F2),
        (world.is_locked(file), Rule::L1),
        (!may(world, who, file, Rights::WRITE), Rule::C1),
        (!world.mounter_may(file, Rights::WRITE), Rule::B1),
    ];
    unless(passed, &rows, mounter)
}

/// E2 of the last word, and then those of a file that is there, or E6 and those of one that is made.
#[tactic(auto, unfolding(vt_spec::specs::Machine::Judging::judging))]
pub fn write<L: Look>(
    world: &L,
    who: &Task,
    passed: &[Rule],
    path: &[u8],
    bytes: &[u8],
) -> Result<(), Deny>
    ensures { MountersStayAsked (L.looks world.now)
        → result ≡ call_past (L.looks world.now) (task_of who.now) passed.now (Write path.now bytes.now) }
{
    let place = placed(world, who, NameAim::File, path)?;
    let word = (place.last.is_special() | place.slash, Rule::E2);
    match place.object {
        Some(file) => unless(passed, &[word], rewritten(world, who, passed, file, bytes)),
        None => {
            let words = [word, (is_too_large(bytes), Rule::E6)];
            made(world, who, passed, &place, &words)
        }
    }
}
