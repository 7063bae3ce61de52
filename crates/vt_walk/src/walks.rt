//! Walks to an object.
ghost use Rattle.std.specs.Prelude.{◌≡◌, nat_eq, option_copied, false, true, IfOk};
ghost use Rattle.vt_spec.specs.Machine.Looks.{is_directory_at};
ghost use Rattle.vt_spec.specs.Machine.Rules.Mounting.{destination_walk, source_walk};
ghost use Rattle.vt_spec.specs.Machine.Walking.{directory_walk, object_walk, symlink_walk, walk_end};
ghost use Rattle.vt_location.specs.Locations.{location_of};
ghost use Rattle.vt_tasks.specs.TaskValue.{task_of};
ghost use Rattle.vt_walk.specs.WalkValue.{location_end, location_result, object_found_result};

use crate::here::Here;
use crate::steps::{asked_by_slash, is_directory_here, last_walked, object_here, words_walked};
use crate::words::front_and_last;
use vt_location::Location;
use vt_looks::Look;
use vt_node::Node;
use vt_spec::errors::{Deny, Rule};
use vt_tasks::Task;
use vt_text::path::PathText;

/// The object that a path leads to, a final symlink followed. A trailing slash is accepted only if it is a directory.
///
/// W2 (ENAMETOOLONG): a word of a symlink's text is too long. W3 (ENOTDIR): a word, or a trailing slash, follows what
/// is no directory. W4 (EACCES): no search permission. W5 (EACCES): the mounter of an overlay has none. W6 (ENOENT): a
/// missing name. W7 (ELOOP): the 41st symlink. W8 (ENOENT): `..` of a directory that is removed, or not under the root
/// of its mount. W9 (ELOOP): a symlink on a mount with `MS_NOSYMFOLLOW`.
pub fn object_walk<L: Look>(world: &L, who: &Task, path: &PathText) -> Result<Location, Deny>
    ensures { location_result result
        ≡ location_end (walk_end (object_walk nat_eq (L.looks world.now) (task_of who.now) path.now)) }
{
    let found = object_found_walk(world, who, path)?;
    Ok(found.location)
}

/// Where a walk ended, and the real object there.
#[derive(Clone, Copy, Debug)]
pub struct ObjectFound<'a> {
    pub location: Location,
    pub object: Option<&'a Node>,
}

/// As `object_walk`, with the real object that was found.
pub fn object_found_walk<'a, L: Look>(
    world: &'a L,
    who: &Task,
    path: &PathText<'a>,
) -> Result<ObjectFound<'a>, Deny>
    ensures value { object_found_result result
        ≡ location_end (walk_end (object_walk nat_eq (L.looks world.now) (task_of who.now) path.now)) }
    ensures object { IfOk result (λ found.
        option_copied found.object ≡ L.real world.now (location_of found.location)) }
{
    let text = path.as_bytes();
    let here = words_walked(world, who, Here::at_start(who, text), path.words())?;
    asked_by_slash(world, text, here)?;
    Ok(ObjectFound {
        location: here.location,
        object: object_here(world, here),
    })
}

/// The directory that a path leads to, a final symlink followed. No search permission is needed on the directory
/// itself.
///
/// The errors are those of `object_walk`.
pub fn directory_walk<L: Look>(world: &L, who: &Task, path: &PathText) -> Result<Location, Deny>
    ensures value { location_result result
        ≡ location_end (walk_end (directory_walk nat_eq (L.looks world.now) (task_of who.now) path.now)) }
    ensures directory { IfOk result (λ directory. is_directory_at (L.looks world.now) (location_of directory) ≡ true) }
{
    let start = Here::at_start(who, path.as_bytes());
    let here = words_walked(world, who, start, path.words())?;
    if !is_directory_here(world, here) {
        return Err(Rule::W3.denial());
    }
    Ok(here.location)
}

/// The object that a path leads to; a final symlink is followed only if a slash follows it: lstat(2).
///
/// The errors are those of `object_walk`.
pub fn symlink_walk<L: Look>(world: &L, who: &Task, path: &PathText) -> Result<Location, Deny>
    ensures { location_result result
        ≡ location_end (walk_end (symlink_walk nat_eq (L.looks world.now) (task_of who.now) path.now)) }
{
    if path.ends_in_slash() {
        return object_walk(world, who, path);
    }
    let text = path.as_bytes();
    let (front, last) = front_and_last(text);
    let here = words_walked(world, who, Here::at_start(who, text), front)?;
    Ok(last_walked(world, who, here, last)?.location)
}

/// The source of a mount, or a layer: as `directory_walk`, and the directory is not removed, else W8 (ENOENT):
/// mount(2).
pub fn source_walk<L: Look>(world: &L, who: &Task, path: &PathText) -> Result<Location, Deny>
    ensures value { location_result result
        ≡ location_end (walk_end (source_walk nat_eq (L.looks world.now) (task_of who.now) path.now)) }
    ensures directory { IfOk result (λ source. is_directory_at (L.looks world.now) (location_of source) ≡ true) }
    ensures removed { IfOk result (λ source. (L.looks world.now).is_removed (location_of source) ≡ false) }
{
    match directory_walk(world, who, path) {
        Ok(source) if world.is_removed(source) => Err(Rule::W8.denial()),
        walked => walked,
    }
}

/// The destination of a mount: as `source_walk`, and then the root of the topmost mount over it, which is not removed
/// either, else W8 (ENOENT): mount(2).
pub fn destination_walk<L: Look>(world: &L, who: &Task, path: &PathText) -> Result<Location, Deny>
    ensures value { location_result result
        ≡ location_end (walk_end (destination_walk nat_eq (L.looks world.now) (task_of who.now) path.now)) }
    ensures removed { IfOk result (λ place. (L.looks world.now).is_removed (location_of place) ≡ false) }
{
    let source = source_walk(world, who, path)?;
    let place = world.topmost(source);
    if world.is_removed(place) {
        return Err(Rule::W8.denial());
    }
    Ok(place)
}
