//! Where the paths of a call lead: path_resolution(7).
ghost use Rattle.std.specs.Prelude.{◌≡◌, nat_eq, Err, IfErr, IfOk};
ghost use Rattle.vt_spec.specs.Machine.Judging.{walk_to, walk_to_name};
ghost use Rattle.vt_spec.specs.Machine.Walking.{walk_end};
ghost use Rattle.vt_tasks.specs.TaskValue.{task_of};
ghost use Rattle.vt_walk.specs.WalkValue.{old_place_result, place_result};
ghost use Rattle.vt_later.specs.Aims.{aim_of, name_aim_of};
ghost use Rattle.vt_later.specs.Past.{EndsAt, EndsAtPlace};

use vt_location::Location;
use vt_looks::{Look, OldPlace, Place};
use vt_spec::errors::Deny;
use vt_tasks::Task;
use vt_text::path::PathText;

/// What a path has to lead to.
#[derive(Clone, Copy, Debug)]
pub(crate) enum Aim {
    /// An object, a final symlink followed.
    Object,
    /// An object, a final symlink not followed.
    Symlink,
    Directory,
    /// A directory that is not removed.
    Source,
    /// That, and then the root of the topmost mount over it.
    Destination,
}

/// What the last word of a path has to name.
#[derive(Clone, Copy, Debug)]
pub(crate) enum NameAim {
    /// A file that exists, or a name for it; a final symlink is followed.
    File,
    /// A name in a directory that is not removed, whether it exists or not.
    NewName,
    /// So, but no slash stands behind a missing name.
    NewLeaf,
    /// A name that exists.
    OldName,
    /// So; a slash behind it asks for a directory.
    OldLeaf,
    /// The new name of a rename: a slash behind it asks that what is renamed is a directory.
    Renamed(bool),
}

/// Where a path leads.
pub(crate) fn led_to<L: Look>(
    world: &L,
    who: &Task,
    aim: Aim,
    path: &[u8],
) -> Result<Location, Deny>
    ensures ok { IfOk result (λ at.
        EndsAt (walk_end (walk_to nat_eq (L.looks world.now) (task_of who.now) (aim_of aim) path.now)) at) }
    ensures err { IfErr result (λ deny.
        walk_end (walk_to nat_eq (L.looks world.now) (task_of who.now) (aim_of aim) path.now) ≡ Err deny) }
{
    let path = PathText::parse(path)?;
    match aim {
        Aim::Object => vt_walk::object_walk(world, who, &path),
        Aim::Symlink => vt_walk::symlink_walk(world, who, &path),
        Aim::Directory => vt_walk::directory_walk(world, who, &path),
        Aim::Source => vt_walk::source_walk(world, who, &path),
        Aim::Destination => vt_walk::destination_walk(world, who, &path),
    }
}

// The place of a name that exists, as a place.
fn as_places(walked: Result<OldPlace<'_>, Deny>) -> Result<Place<'_>, Deny>
    ensures { place_result result ≡ old_place_result walked.entry }
{
    let place = walked?;
    Ok(Place {
        parent: place.parent,
        last: place.last,
        object: Some(place.object),
        slash: place.slash,
    })
}

/// The place that a path leads to.
pub(crate) fn placed<'a, L: Look>(
    world: &'a L,
    who: &Task,
    aim: NameAim,
    path: &'a [u8],
) -> Result<Place<'a>, Deny>
    ensures ok { IfOk result (λ place. EndsAtPlace
        (walk_end (walk_to_name nat_eq (L.looks world.now) (task_of who.now) (name_aim_of aim) path.now)) place) }
    ensures err { IfErr result (λ deny.
        walk_end (walk_to_name nat_eq (L.looks world.now) (task_of who.now) (name_aim_of aim) path.now) ≡ Err deny) }
{
    let path = PathText::parse(path)?;
    match aim {
        NameAim::File => vt_walk::file_walk(world, who, &path),
        NameAim::NewName => vt_walk::new_walk(world, who, &path),
        NameAim::NewLeaf => vt_walk::new_leaf_walk(world, who, &path),
        NameAim::OldName => as_places(vt_walk::old_walk(world, who, &path)),
        NameAim::OldLeaf => as_places(vt_walk::old_leaf_walk(world, who, &path)),
        NameAim::Renamed(directory) => vt_walk::rename_new_walk(world, who, &path, directory),
    }
}
