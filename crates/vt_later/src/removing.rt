//! Calls that remove and rename: unlink(2), rmdir(2), rename(2).
ghost use Rattle.std.specs.List.{list_any};
ghost use Rattle.std.specs.Prelude.{◌≡◌, false, nat_eq, not, option_map, option_to_list};
ghost use Rattle.vt_spec.specs.Language.Calls.Call.{Rename, Rmdir, Unlink};
ghost use Rattle.vt_spec.specs.Lists.{holds_of};
ghost use Rattle.vt_spec.specs.Machine.Looks.{is_directory_at};
ghost use Rattle.vt_spec.specs.Machine.Rules.Conditions.{has_no_upper, is_kept, is_mount_point_in};
ghost use Rattle.vt_spec.specs.Machine.Rules.Removing.{changes_parent, is_nonempty, is_stuck, object_there, rename_rules, rmdir_rules, same_object_rules};
ghost use Rattle.vt_spec.specs.Machine.Walking.{is_dot, is_dot_dot};
ghost use Rattle.vt_location.specs.Locations.{location_of};
ghost use Rattle.vt_looks.specs.Places.{last_of};
ghost use Rattle.vt_rules.specs.Tables.{kind_rules, layer_rules, right_rules, way_rules};
ghost use Rattle.vt_tasks.specs.TaskValue.{task_of};
ghost use Rattle.vt_walk.specs.WalkValue.{place_of};
ghost use Rattle.vt_later.specs.Passing.{MountersStayAsked};
ghost use Rattle.vt_later.specs.Past.{call_past, table_past};

use crate::passing::{Row, first, mounter_refusal, unless};
use crate::walks::{NameAim, placed};
use vt_cred::Rights;
use vt_location::Location;
use vt_looks::{Asked, LastWord, Look, Place};
use vt_rules::{is_directory, is_kept, is_name_of, is_read_only, is_same_filesystem, may};
use vt_spec::errors::{Deny, Rule};
use vt_tasks::Task;

// The object at a place where one exists.
fn object_there(place: &Place<'_>) -> Location
    ensures { location_of result ≡ object_there (place_of place.now) }
{
    match place.object {
        Some(object) => object,
        None => place.parent,
    }
}

/// E2, F1, F2, L1, C1, C3, B1, B2.
#[tactic(auto, unfolding(vt_spec::specs::Machine::Judging::judging))]
pub fn unlink<L: Look>(world: &L, who: &Task, passed: &[Rule], path: &[u8]) -> Result<(), Deny>
    ensures { MountersStayAsked (L.looks world.now)
        → result ≡ call_past (L.looks world.now) (task_of who.now) passed.now (Unlink path.now) }
{
    let place = placed(world, who, NameAim::OldLeaf, path)?;
    let (at, object) = (place.parent, object_there(&place));
    let mounter = mounter_refusal(world, at, Asked::Entry);
    let rows = [
        (place.last.is_special(), Rule::E2),
        (is_directory(world, object), Rule::E2),
        (is_read_only(world, at), Rule::F1),
        (world.has_no_upper(at), Rule::F2),
        (world.is_locked(object) | world.is_locked(at), Rule::L1),
        (!may(world, who, at, Rights::WRITE), Rule::C1),
        (is_kept(world, who, at, object), Rule::C3),
        (!world.mounter_may(at, Rights::WRITE), Rule::B1),
    ];
    unless(passed, &rows, mounter)
}

// Whether a last word is `..`.
fn is_dot_dot(word: LastWord<'_>) -> bool
    ensures { result ≡ is_dot_dot (last_of word.entry) }
{
    matches!(word, LastWord::DotDot)
}

// Whether a last word is `.`.
fn is_dot(word: LastWord<'_>) -> bool
    ensures { result ≡ is_dot (last_of word.entry) }
{
    matches!(word, LastWord::Dot)
}

// A directory loses its name: E3, E4, F1, F2, L1, P1, C1, C3, B1, B2.
fn directory_removed<L: Look>(
    world: &L,
    who: &Task,
    passed: &[Rule],
    place: &Place<'_>,
) -> Result<(), Deny>
    ensures { MountersStayAsked (L.looks world.now) → result ≡ table_past passed.now
        (rmdir_rules nat_eq (L.looks world.now) (task_of who.now) (place_of place.now)
        (object_there (place_of place.now))) }
{
    let (at, object) = (place.parent, object_there(place));
    let mounter = mounter_refusal(world, at, Asked::Entry);
    let rows = [
        (!is_directory(world, object), Rule::E3),
        (world.is_nonempty(object), Rule::E4),
        (is_read_only(world, at), Rule::F1),
        (world.has_no_upper(at), Rule::F2),
        (world.is_locked(object) | world.is_locked(at), Rule::L1),
        (world.is_mount_point_in(who.namespace, object), Rule::P1),
        (!may(world, who, at, Rights::WRITE), Rule::C1),
        (is_kept(world, who, at, object), Rule::C3),
        (!world.mounter_may(at, Rights::WRITE), Rule::B1),
    ];
    unless(passed, &rows, mounter)
}

/// E4, E5, P1 of the last word, and then E3, E4, F1, F2, L1, P1, C1, C3, B1, B2.
#[tactic(auto, unfolding(vt_spec::specs::Machine::Judging::judging))]
pub fn rmdir<L: Look>(world: &L, who: &Task, passed: &[Rule], path: &[u8]) -> Result<(), Deny>
    ensures { MountersStayAsked (L.looks world.now)
        → result ≡ call_past (L.looks world.now) (task_of who.now) passed.now (Rmdir path.now) }
{
    let place = placed(world, who, NameAim::OldName, path)?;
    let words = [
        (is_dot_dot(place.last), Rule::E4),
        (is_dot(place.last), Rule::E5),
        (place.last.is_no_word(), Rule::P1),
    ];
    unless(
        passed,
        &words,
        directory_removed(world, who, passed, &place),
    )
}

// Whether something is there, and is a directory.
fn is_directory_there<L: Look>(world: &L, object: Option<Location>) -> bool
    ensures { result ≡ holds_of (is_directory_at (L.looks world.now)) (option_map location_of object) }
{
    match object {
        Some(object) => is_directory(world, object),
        None => false,
    }
}

// Whether something is there, and is no directory.
fn is_other_there<L: Look>(world: &L, object: Option<Location>) -> bool
    ensures { result
        ≡ holds_of (λ at. not (is_directory_at (L.looks world.now) at)) (option_map location_of object) }
{
    match object {
        Some(object) => !is_directory(world, object),
        None => false,
    }
}

// Whether a directory with entries is there.
fn is_nonempty_there<L: Look>(world: &L, object: Option<Location>) -> bool
    ensures { result ≡ holds_of (is_nonempty (L.looks world.now)) (option_map location_of object) }
{
    match object {
        Some(object) => world.is_nonempty(object),
        None => false,
    }
}

// Whether something is there on which a mount of the caller's namespace stands.
fn is_point_there<L: Look>(world: &L, who: &Task, object: Option<Location>) -> bool
    ensures { result ≡ holds_of (is_mount_point_in nat_eq (L.looks world.now) (task_of who.now).namespace)
        (option_map location_of object) }
{
    match object {
        Some(object) => world.is_mount_point_in(who.namespace, object),
        None => false,
    }
}

// Whether a sticky directory keeps what is at a place.
fn is_kept_there<L: Look>(world: &L, who: &Task, place: &Place<'_>) -> bool
    ensures { result ≡ holds_of (is_kept (L.looks world.now) (task_of who.now) (location_of place.now.parent))
        (option_map location_of place.now.object) }
{
    match place.object {
        Some(object) => is_kept(world, who, place.parent, object),
        None => false,
    }
}

// Whether something is there that lies in a layer of a live overlay.
fn is_locked_there<L: Look>(world: &L, object: Option<Location>) -> bool
    ensures { result ≡ list_any (L.looks world.now).is_locked (option_to_list (option_map location_of object)) }
{
    match object {
        Some(object) => world.is_locked(object),
        None => false,
    }
}

// Whether a rename leaves a directory in another parent, which its `..` then names.
fn changes_parent<L: Look>(world: &L, from: &Place<'_>, to: &Place<'_>) -> bool
    ensures { result ≡ changes_parent nat_eq (L.looks world.now) (place_of from.now) (place_of to.now)
        (object_there (place_of from.now)) }
{
    is_directory(world, object_there(from)) && !from.parent.is_same(to.parent)
}

// Whether an object is a directory that a lower layer has at its name too; of an overlay without an upper layer this is
// not asked.
fn is_stuck<L: Look>(world: &L, from: &Place<'_>) -> bool
    ensures { has_no_upper (L.looks world.now) (location_of from.now.parent) ≡ false
        → result ≡ is_stuck (L.looks world.now) (place_of from.now) (object_there (place_of from.now)) }
{
    !world.has_no_upper(from.parent)
        && is_directory(world, object_there(from))
        && world.has_lower_directory(from.parent, from.last.name())
}

// Two names of one object: F1, F2, P2.
fn same_object<L: Look>(
    world: &L,
    passed: &[Rule],
    from: &Place<'_>,
    to: &Place<'_>,
) -> Result<(), Deny>
    ensures { result ≡ table_past passed.now
        (same_object_rules nat_eq (L.looks world.now) (place_of from.now) (place_of to.now)) }
{
    let (old, new) = (from.parent, to.parent);
    let rows = [
        (
            is_read_only(world, old) | is_read_only(world, new),
            Rule::F1,
        ),
        (world.has_no_upper(old) | world.has_no_upper(new), Rule::F2),
        (old.mount != new.mount, Rule::P2),
    ];
    first(passed, &rows)
}

// What has the new name, and where it is: E2, E3, E4, E5.
fn kind_rows<L: Look>(world: &L, from: &Place<'_>, to: &Place<'_>) -> [Row; 4]
    ensures { result ≡ kind_rules nat_eq (L.looks world.now) (place_of to.now) (object_there (place_of from.now)) }
{
    let object = object_there(from);
    let moves_directory = is_directory(world, object);
    let goes_under = is_same_filesystem(world, object, to.parent)
        & world.is_under(object, to.parent.node);
    [
        (
            !moves_directory & is_directory_there(world, to.object),
            Rule::E2,
        ),
        (moves_directory & is_other_there(world, to.object), Rule::E3),
        (
            moves_directory & is_nonempty_there(world, to.object),
            Rule::E4,
        ),
        (moves_directory & goes_under, Rule::E5),
    ]
}

// Where the two names are: F1, F2, L1, P1, P2.
fn way_rows<L: Look>(world: &L, who: &Task, from: &Place<'_>, to: &Place<'_>) -> [Row; 5]
    ensures { result ≡ way_rules nat_eq (L.looks world.now) (task_of who.now) (place_of from.now) (place_of to.now)
        (object_there (place_of from.now)) }
{
    let (old, new, object) = (from.parent, to.parent, object_there(from));
    let locked = world.is_locked(old)
        | (world.is_locked(new) | (world.is_locked(object) | is_locked_there(world, to.object)));
    let points = world.is_mount_point_anywhere(object) | is_point_there(world, who, to.object);
    [
        (
            is_read_only(world, old) | is_read_only(world, new),
            Rule::F1,
        ),
        (world.has_no_upper(old) | world.has_no_upper(new), Rule::F2),
        (locked, Rule::L1),
        (points, Rule::P1),
        (old.mount != new.mount, Rule::P2),
    ]
}

// The caller's rights: C1, C3.
fn right_rows<L: Look>(world: &L, who: &Task, from: &Place<'_>, to: &Place<'_>) -> [Row; 3]
    ensures { result ≡ right_rules nat_eq (L.looks world.now) (task_of who.now) (place_of from.now) (place_of to.now)
        (object_there (place_of from.now)) }
{
    let (old, new, object) = (from.parent, to.parent, object_there(from));
    let turned = changes_parent(world, from, to);
    [
        (
            !may(world, who, old, Rights::WRITE) | !may(world, who, new, Rights::WRITE),
            Rule::C1,
        ),
        (turned & !may(world, who, object, Rights::WRITE), Rule::C1),
        (
            is_kept(world, who, old, object) | is_kept_there(world, who, to),
            Rule::C3,
        ),
    ]
}

// What layers, and the mounter of an overlay, are asked: O1, B1, B2.
fn layers_asked<L: Look>(
    world: &L,
    passed: &[Rule],
    from: &Place<'_>,
    to: &Place<'_>,
) -> Result<(), Deny>
    ensures { MountersStayAsked (L.looks world.now)
        → has_no_upper (L.looks world.now) (location_of from.now.parent) ≡ false
        → result ≡ table_past passed.now (layer_rules nat_eq (L.looks world.now) (place_of from.now)
        (place_of to.now) (object_there (place_of from.now))) }
{
    let (old, new, object) = (from.parent, to.parent, object_there(from));
    let turned = changes_parent(world, from, to);
    let asked = Asked::Rename {
        object: object.node,
        to: new.node,
    };
    let mounter = mounter_refusal(world, old, asked);
    let rows = [
        (is_stuck(world, from), Rule::O1),
        (
            !world.mounter_may(old, Rights::WRITE) | !world.mounter_may(new, Rights::WRITE),
            Rule::B1,
        ),
        (turned & !world.mounter_may(object, Rights::WRITE), Rule::B1),
    ];
    unless(passed, &rows, mounter)
}

// An object leaves one name for another: E2, E3, E4, E5, F1, F2, L1, P1, P2, C1, C3, O1, B1, B2.
fn renamed<L: Look>(
    world: &L,
    who: &Task,
    passed: &[Rule],
    from: &Place<'_>,
    to: &Place<'_>,
) -> Result<(), Deny>
    ensures { MountersStayAsked (L.looks world.now) → result ≡ table_past passed.now
        (rename_rules nat_eq (L.looks world.now) (task_of who.now) (place_of from.now) (place_of to.now)
        (object_there (place_of from.now))) }
{
    let layers = layers_asked(world, passed, from, to);
    let rights = unless(passed, &right_rows(world, who, from, to), layers);
    let ways = unless(passed, &way_rows(world, who, from, to), rights);
    unless(passed, &kind_rows(world, from, to), ways)
}

/// P1 of each last word after its walk; then those of two objects, or of two names of one.
#[tactic(auto, unfolding(vt_spec::specs::Machine::Judging::judging))]
pub fn rename<L: Look>(
    world: &L,
    who: &Task,
    passed: &[Rule],
    old: &[u8],
    new: &[u8],
) -> Result<(), Deny>
    ensures { MountersStayAsked (L.looks world.now)
        → result ≡ call_past (L.looks world.now) (task_of who.now) passed.now (Rename old.now new.now) }
{
    let from = placed(world, who, NameAim::OldLeaf, old)?;
    first(passed, &[(from.last.is_special(), Rule::P1)])?;
    let aim = NameAim::Renamed(is_directory_there(world, from.object));
    let to = placed(world, who, aim, new)?;
    first(passed, &[(to.last.is_special(), Rule::P1)])?;
    if is_name_of(world, object_there(&from), &to) {
        return same_object(world, passed, &from, &to);
    }
    renamed(world, who, passed, &from, &to)
}
