//! Where paths as bytes lead: path_resolution(7).
ghost use Rattle.std.specs.Prelude.{◌≡◌, nat_eq, option_copied, Err, IfErr, IfOk};
ghost use Rattle.vt_spec.specs.Machine.Rules.Mounting.{destination_walk, source_walk};
ghost use Rattle.vt_spec.specs.Machine.Rules.Removing.{rename_new_walk};
ghost use Rattle.vt_spec.specs.Machine.Walking.{directory_walk, file_walk, new_leaf_walk, new_walk, object_walk, old_leaf_walk, old_walk, symlink_walk, walk_end};
ghost use Rattle.vt_location.specs.Locations.{location_of};
ghost use Rattle.vt_looks.specs.Places.{as_place};
ghost use Rattle.vt_tasks.specs.TaskValue.{task_of};
ghost use Rattle.vt_policy.specs.Ends.{EndsAt, EndsAtPlace};

use vt_location::Location;
use vt_looks::{Look, OldPlace, Place};
use vt_spec::errors::Deny;
use vt_tasks::Task;
use vt_text::path::PathText;
use vt_walk::ObjectFound;

/// The object that a path leads to, a final symlink followed.
pub(crate) fn object_at<L: Look>(world: &L, who: &Task, path: &[u8]) -> Result<Location, Deny>
    ensures ok { IfOk result (λ at.
        EndsAt (walk_end (object_walk nat_eq (L.looks world.now) (task_of who.now) path.now)) at) }
    ensures err { IfErr result (λ deny. walk_end (object_walk nat_eq (L.looks world.now) (task_of who.now) path.now)
        ≡ Err deny) }
{
    vt_walk::object_walk(world, who, &PathText::parse(path)?)
}

/// The same, with the real object that was found.
pub(crate) fn object_found_at<'a, L: Look>(
    world: &'a L,
    who: &Task,
    path: &'a [u8],
) -> Result<ObjectFound<'a>, Deny>
    ensures ok { IfOk result (λ found.
        EndsAt (walk_end (object_walk nat_eq (L.looks world.now) (task_of who.now) path.now)) found.location) }
    ensures object { IfOk result (λ found.
        option_copied found.object ≡ L.real world.now (location_of found.location)) }
    ensures err { IfErr result (λ deny. walk_end (object_walk nat_eq (L.looks world.now) (task_of who.now) path.now)
        ≡ Err deny) }
{
    vt_walk::object_found_walk(world, who, &PathText::parse(path)?)
}

/// The directory that a path leads to.
pub(crate) fn directory_at<L: Look>(world: &L, who: &Task, path: &[u8]) -> Result<Location, Deny>
    ensures ok { IfOk result (λ at.
        EndsAt (walk_end (directory_walk nat_eq (L.looks world.now) (task_of who.now) path.now)) at) }
    ensures err { IfErr result (λ deny. walk_end (directory_walk nat_eq (L.looks world.now) (task_of who.now) path.now)
        ≡ Err deny) }
{
    vt_walk::directory_walk(world, who, &PathText::parse(path)?)
}

/// The object that a path leads to, a final symlink itself unless a slash follows.
pub(crate) fn symlink_at<L: Look>(world: &L, who: &Task, path: &[u8]) -> Result<Location, Deny>
    ensures ok { IfOk result (λ at.
        EndsAt (walk_end (symlink_walk nat_eq (L.looks world.now) (task_of who.now) path.now)) at) }
    ensures err { IfErr result (λ deny. walk_end (symlink_walk nat_eq (L.looks world.now) (task_of who.now) path.now)
        ≡ Err deny) }
{
    vt_walk::symlink_walk(world, who, &PathText::parse(path)?)
}

/// The source of a mount call: a directory that is not removed.
pub(crate) fn source_at<L: Look>(world: &L, who: &Task, path: &[u8]) -> Result<Location, Deny>
    ensures ok { IfOk result (λ at.
        EndsAt (walk_end (source_walk nat_eq (L.looks world.now) (task_of who.now) path.now)) at) }
    ensures err { IfErr result (λ deny. walk_end (source_walk nat_eq (L.looks world.now) (task_of who.now) path.now)
        ≡ Err deny) }
{
    vt_walk::source_walk(world, who, &PathText::parse(path)?)
}

/// The destination of a mount call: the root of the topmost mount over the directory that a path leads to.
pub(crate) fn destination_at<L: Look>(world: &L, who: &Task, path: &[u8]) -> Result<Location, Deny>
    ensures ok { IfOk result (λ at.
        EndsAt (walk_end (destination_walk nat_eq (L.looks world.now) (task_of who.now) path.now)) at) }
    ensures err { IfErr result (λ deny.
        walk_end (destination_walk nat_eq (L.looks world.now) (task_of who.now) path.now) ≡ Err deny) }
{
    vt_walk::destination_walk(world, who, &PathText::parse(path)?)
}

/// The parent that a path leads to, and what its last word names there.
pub(crate) fn new_place<'a, L: Look>(
    world: &L,
    who: &Task,
    path: &'a [u8],
) -> Result<Place<'a>, Deny>
    ensures ok { IfOk result (λ place.
        EndsAtPlace (walk_end (new_walk nat_eq (L.looks world.now) (task_of who.now) path.now)) place) }
    ensures err { IfErr result (λ deny. walk_end (new_walk nat_eq (L.looks world.now) (task_of who.now) path.now)
        ≡ Err deny) }
{
    vt_walk::new_walk(world, who, &PathText::parse(path)?)
}

/// As `new_place`, but no slash stands behind a missing name.
pub(crate) fn new_leaf_place<'a, L: Look>(
    world: &L,
    who: &Task,
    path: &'a [u8],
) -> Result<Place<'a>, Deny>
    ensures ok { IfOk result (λ place.
        EndsAtPlace (walk_end (new_leaf_walk nat_eq (L.looks world.now) (task_of who.now) path.now)) place) }
    ensures err { IfErr result (λ deny. walk_end (new_leaf_walk nat_eq (L.looks world.now) (task_of who.now) path.now)
        ≡ Err deny) }
{
    vt_walk::new_leaf_walk(world, who, &PathText::parse(path)?)
}

/// As `new_place`, of a name that exists.
pub(crate) fn old_place<'a, L: Look>(
    world: &L,
    who: &Task,
    path: &'a [u8],
) -> Result<OldPlace<'a>, Deny>
    ensures ok { IfOk result (λ place.
        EndsAtPlace (walk_end (old_walk nat_eq (L.looks world.now) (task_of who.now) path.now)) (as_place place)) }
    ensures err { IfErr result (λ deny. walk_end (old_walk nat_eq (L.looks world.now) (task_of who.now) path.now)
        ≡ Err deny) }
{
    vt_walk::old_walk(world, who, &PathText::parse(path)?)
}

/// As `old_place`; a trailing slash is accepted only if the object is a directory (else W3).
pub(crate) fn old_leaf_place<'a, L: Look>(
    world: &L,
    who: &Task,
    path: &'a [u8],
) -> Result<OldPlace<'a>, Deny>
    ensures ok { IfOk result (λ place.
        EndsAtPlace (walk_end (old_leaf_walk nat_eq (L.looks world.now) (task_of who.now) path.now))
        (as_place place)) }
    ensures err { IfErr result (λ deny. walk_end (old_leaf_walk nat_eq (L.looks world.now) (task_of who.now) path.now)
        ≡ Err deny) }
{
    vt_walk::old_leaf_walk(world, who, &PathText::parse(path)?)
}

/// The place of a file that is opened or made, a final symlink followed.
pub(crate) fn file_place<'a, L: Look>(
    world: &'a L,
    who: &Task,
    path: &'a [u8],
) -> Result<Place<'a>, Deny>
    ensures ok { IfOk result (λ place.
        EndsAtPlace (walk_end (file_walk nat_eq (L.looks world.now) (task_of who.now) path.now)) place) }
    ensures err { IfErr result (λ deny. walk_end (file_walk nat_eq (L.looks world.now) (task_of who.now) path.now)
        ≡ Err deny) }
{
    vt_walk::file_walk(world, who, &PathText::parse(path)?)
}

/// As `new_place`, of the second path of a rename: a slash stands behind a directory's new name alone.
pub(crate) fn rename_place<'a, L: Look>(
    world: &L,
    who: &Task,
    path: &'a [u8],
    old_is_directory: bool,
) -> Result<Place<'a>, Deny>
    ensures ok { IfOk result (λ place.
        EndsAtPlace (walk_end (rename_new_walk nat_eq (L.looks world.now)
        (task_of who.now) path.now old_is_directory)) place) }
    ensures err { IfErr result (λ deny.
        walk_end (rename_new_walk nat_eq (L.looks world.now) (task_of who.now) path.now old_is_directory) ≡ Err deny) }
{
    vt_walk::rename_new_walk(world, who, &PathText::parse(path)?, old_is_directory)
}
