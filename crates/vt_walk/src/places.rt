//! Walks to a parent, and what the last word names there.
ghost use Rattle.std.specs.Prelude.{◌≡◌, ◌+◌, nat_eq, false, not, is_some, ◌&&◌, ◌||◌, option_copied, option_map, IfOk, IfSome, Some};
ghost use Rattle.vt_spec.specs.Machine.Rules.Removing.{rename_new_walk};
ghost use Rattle.vt_spec.specs.Machine.Walking.{file_walk, new_leaf_walk, new_walk, old_leaf_walk, old_walk, place_walk, symlink_there, walk_end, walk_start};
ghost use Rattle.vt_spec.specs.Language.Limits.{most_symlinks};
ghost use Rattle.vt_spec.specs.PathText.{ends_in_slash};
ghost use Rattle.vt_location.specs.Locations.{location_of};
ghost use Rattle.vt_tasks.specs.TaskValue.{task_of};
ghost use Rattle.vt_text.specs.Walkable.{IsWalkable};
ghost use Rattle.vt_walk.specs.PlainWalks.{entered, file_walked, placed};
ghost use Rattle.vt_looks.specs.Places.{as_place, last_of};
ghost use Rattle.vt_walk.specs.WalkValue.{IsFilePlace, IsLent, IsPlace, old_place_result, place_end, place_of, place_result};

use crate::here::{Here, MOST_LINKS};
use crate::steps::{
    is_directory_at, link_begun, node_here, object_named, searched, symlink_text, words_walked,
};
use crate::words::front_and_last;
use vt_location::Location;
use vt_looks::{LastWord, Look, OldPlace, Place};
use vt_spec::errors::{Deny, Rule};
use vt_tasks::Task;
use vt_text::link;
use vt_text::path::PathText;

// What a last word names in a directory, with no symlink followed. W3, W4, W5: if there is a word, the directory is
// searched; without a word there is no trailing slash either. W8: `..` of a lost directory.
#[inline(always)]
fn placed<'a, L: Look>(
    world: &L,
    who: &Task,
    here: Here<'_>,
    last: LastWord<'a>,
    slash: bool,
) -> Result<Place<'a>, Deny>
    requires { IsLent (L.real world.now) here.location (option_copied here.lent) }
    ensures value { place_result result ≡ placed (L.looks world.now) (task_of who.now)
        (location_of here.entry.location) (last_of last.entry) slash }
    ensures place { IfOk result (λ place. IsPlace (L.looks world.now) (task_of who.now) place) }
{
    if last.is_no_word() {
        return Ok(Place {
            parent: here.location,
            last,
            object: Some(here.location),
            slash: false,
        });
    }
    let ground = world.ground(here.location.mount);
    let node = node_here(world, ground, here.location, here.lent);
    let directory = searched(world, who, ground, here.location, node)?;
    let object = object_named(world, who, here.location, directory, last)?;
    Ok(Place {
        parent: here.location,
        last,
        object,
        slash,
    })
}

/// The parent that a path leads to, and what its last word names there; a final symlink is not followed.
///
/// W2 (ENAMETOOLONG): a word of a symlink's text is too long. W3 (ENOTDIR): a word, or a trailing slash of a symlink's
/// text, follows what is no directory. W4 (EACCES): no search permission, also on the parent. W5 (EACCES): the mounter
/// of an overlay has none. W6 (ENOENT): a missing name before the last word. W7 (ELOOP): the 41st symlink. W8 (ENOENT):
/// `..` of a directory that is removed, or not under the root of its mount. W9 (ELOOP): a symlink on a mount with
/// `MS_NOSYMFOLLOW`.
pub fn place_walk<'a, L: Look>(
    world: &L,
    who: &Task,
    path: &PathText<'a>,
) -> Result<Place<'a>, Deny>
    ensures value { place_result result
        ≡ place_end (walk_end (place_walk nat_eq (L.looks world.now) (task_of who.now) path.now)) }
    ensures place { IfOk result (λ place. IsPlace (L.looks world.now) (task_of who.now) place) }
{
    let text = path.as_bytes();
    let (front, last) = front_and_last(text);
    let here = words_walked(world, who, Here::at_start(who, text), front)?;
    placed(world, who, here, last, path.ends_in_slash())
}

// Whether a name is missing in a removed directory, which takes no new name.
#[inline(always)]
fn takes_no_name<L: Look>(world: &L, place: &Place) -> bool
    ensures { result ≡ (not (is_some (place_of place.now).object)
        && (L.looks world.now).is_removed (place_of place.now).parent) }
{
    place.object.is_none() && world.is_removed(place.parent)
}

/// As `place_walk`, for a name that may be made: W8 (ENOENT) if it is missing and the parent is removed.
pub fn new_walk<'a, L: Look>(world: &L, who: &Task, path: &PathText<'a>) -> Result<Place<'a>, Deny>
    ensures value { place_result result
        ≡ place_end (walk_end (new_walk nat_eq (L.looks world.now) (task_of who.now) path.now)) }
    ensures place { IfOk result (λ place. IsPlace (L.looks world.now) (task_of who.now) place) }
{
    match place_walk(world, who, path) {
        Ok(place) if takes_no_name(world, &place) => Err(Rule::W8.denial()),
        walked => walked,
    }
}

/// As `new_walk`, but a slash after a missing name answers W6 (ENOENT): symlink(2), mknod(2), link(2).
pub fn new_leaf_walk<'a, L: Look>(
    world: &L,
    who: &Task,
    path: &PathText<'a>,
) -> Result<Place<'a>, Deny>
    ensures value { place_result result
        ≡ place_end (walk_end (new_leaf_walk nat_eq (L.looks world.now) (task_of who.now) path.now)) }
    ensures place { IfOk result (λ place. IsPlace (L.looks world.now) (task_of who.now) place) }
{
    match new_walk(world, who, path) {
        Ok(place) if place.slash && place.object.is_none() => Err(Rule::W6.denial()),
        walked => walked,
    }
}

/// As `place_walk`, for a name that must exist, else W6 (ENOENT).
pub fn old_walk<'a, L: Look>(
    world: &L,
    who: &Task,
    path: &PathText<'a>,
) -> Result<OldPlace<'a>, Deny>
    ensures value { old_place_result result
        ≡ place_end (walk_end (old_walk nat_eq (L.looks world.now) (task_of who.now) path.now)) }
    ensures place { IfOk result (λ place. IsPlace (L.looks world.now) (task_of who.now) (as_place place)) }
{
    let place = place_walk(world, who, path)?;
    let Some(object) = place.object else {
        return Err(Rule::W6.denial());
    };
    Ok(OldPlace {
        parent: place.parent,
        last: place.last,
        object,
        slash: place.slash,
    })
}

/// As `old_walk`; a trailing slash is accepted only if the object is a directory, else W3 (ENOTDIR): unlink(2),
/// rename(2).
pub fn old_leaf_walk<'a, L: Look>(
    world: &L,
    who: &Task,
    path: &PathText<'a>,
) -> Result<OldPlace<'a>, Deny>
    ensures value { old_place_result result
        ≡ place_end (walk_end (old_leaf_walk nat_eq (L.looks world.now) (task_of who.now) path.now)) }
    ensures place { IfOk result (λ place. IsPlace (L.looks world.now) (task_of who.now) (as_place place)) }
{
    match old_walk(world, who, path) {
        Ok(place) if place.slash && !is_directory_at(world, place.object) => {
            Err(Rule::W3.denial())
        }
        walked => walked,
    }
}

/// The second path of rename(2): as `new_walk`; a trailing slash is accepted only if a directory is renamed, else W3
/// (ENOTDIR).
pub fn rename_new_walk<'a, L: Look>(
    world: &L,
    who: &Task,
    path: &PathText<'a>,
    old_is_directory: bool,
) -> Result<Place<'a>, Deny>
    ensures value { place_result result
        ≡ place_end (walk_end (rename_new_walk nat_eq (L.looks world.now)
        (task_of who.now) path.now old_is_directory)) }
    ensures place { IfOk result (λ place. IsPlace (L.looks world.now) (task_of who.now) place) }
{
    match new_walk(world, who, path) {
        Ok(place) if place.slash && !old_is_directory => Err(Rule::W3.denial()),
        walked => walked,
    }
}

// Whether a slash ends this text, or a text before it.
fn asks_for_directory(slash: bool, text: &[u8]) -> bool
    ensures { result ≡ (slash || ends_in_slash text.now) }
{
    slash || link::ends_in_slash(text)
}

// The symlink that a place names, if it names one, and its text.
fn symlink_there<'a, L: Look>(world: &'a L, place: &Place) -> Option<(Location, &'a [u8])>
    ensures text { option_map (λ link. link.1.now) result
        ≡ symlink_there nat_eq (L.looks world.now) (place_of place.now) }
    ensures object { IfSome result (λ link. place.now.object ≡ Some link.0) }
{
    let object = place.object?;
    let text = symlink_text(world.node(object))?;
    Some((object, text))
}

// The place, its object replaced by the root of the topmost mount over it.
fn entered<'a, L: Look>(world: &L, place: Place<'a>) -> Place<'a>
    ensures { place_of result ≡ entered (L.looks world.now) (place_of place.entry) }
{
    let object = match place.object {
        Some(object) => Some(world.topmost(object)),
        None => None,
    };
    Place { object, ..place }
}

// The place of a file, before it is checked whether a name may be made there.
fn file_walked<'a, L: Look>(
    world: &'a L,
    who: &Task,
    path: &PathText<'a>,
) -> Result<Place<'a>, Deny>
    ensures value { place_result result ≡ file_walked (L.looks world.now) (task_of who.now) (most_symlinks + 1)
        (walk_start (task_of who.now) path.now) path.now false }
    ensures limits { IsWalkable path.now }
    ensures place { IfOk result (λ place. IsFilePlace (L.looks world.now) (task_of who.now) place) }
{
    let mut text = path.as_bytes();
    let mut start = Here::at_start(who, text);
    let mut slash = false;
    for _link in 0..MOST_LINKS + 1 {
        slash = asks_for_directory(slash, text);
        let (front, last) = front_and_last(text);
        let here = words_walked(world, who, start, front)?;
        let place = placed(world, who, here, last, slash)?;
        let Some((link, inner)) = symlink_there(world, &place) else {
            return Ok(entered(world, place));
        };
        let met = Here {
            location: link,
            left: here.left,
            lent: None,
        };
        start = link_begun(world, who, here.location, met, inner)?;
        text = inner;
    }
    Err(Rule::W7.denial())
}

/// The place of a file that is opened or made: open(2) with O_CREAT. A final symlink is followed, also to a missing
/// name, and the object is the root of the topmost mount over what is named.
///
/// The errors are those of `new_walk`. The last word may come from the text of a symlink, and a slash at the end of any
/// of the texts counts.
pub fn file_walk<'a, L: Look>(
    world: &'a L,
    who: &Task,
    path: &PathText<'a>,
) -> Result<Place<'a>, Deny>
    ensures value { place_result result
        ≡ place_end (walk_end (file_walk nat_eq (L.looks world.now) (task_of who.now) path.now)) }
    ensures place { IfOk result (λ place. IsFilePlace (L.looks world.now) (task_of who.now) place) }
{
    let place = file_walked(world, who, path)?;
    if takes_no_name(world, &place) {
        return Err(Rule::W8.denial());
    }
    Ok(place)
}
