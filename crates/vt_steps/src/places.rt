//! Walks to a parent, and what the last word names there.
ghost use Rattle.std.specs.Prelude.{◌≡◌, ◌||◌, nat_eq, option_map, IfOk, IfSome, Some};
ghost use Rattle.vt_spec.specs.PathText.{ends_in_slash};
ghost use Rattle.vt_spec.specs.Machine.Walking.{entered, file_walked, placed, symlink_there};
ghost use Rattle.vt_looks.specs.Places.{last_of};
ghost use Rattle.vt_tasks.specs.TaskValue.{task_of};
ghost use Rattle.vt_steps.specs.StepsValue.{EndsAtPlace, here_of, place_of};

use crate::here::{Halt, Here, Named, Walker, refused, with_met, with_word};
use crate::meeting::{met_over, name_led, symlink_text};
use crate::over::LookOver;
use crate::words::{link_begun, prefix_walked};
use std::alloc::{AllocError, Global};
use vt_location::Location;
use vt_looks::{LastWord, Look, Place};
use vt_spec::errors::Rule;
use vt_text::link;

// What a last word names in a directory, with no symlink followed.
pub(crate) fn placed<'a, L: LookOver>(
    walker: &Walker<'_, L>,
    here: Here,
    last: LastWord<'a>,
    slash: bool,
) -> Result<Named<'a>, Halt>
    ensures { EndsAtPlace (placed nat_eq (L.looks walker.now.world.now) (task_of walker.now.who.now)
        (here_of here) (last_of last.entry) slash) result }
{
    let parent = here.location;
    if last.is_no_word() {
        let place = Place {
            parent,
            last,
            object: Some(parent),
            slash: false,
        };
        return Ok(Named {
            place,
            steps: here.steps,
        });
    }
    let step = name_led(walker.alloc, walker.world, walker.who, parent, last)?;
    let steps = with_word(here.steps, step.met)?;
    match step.object {
        Ok(object) => {
            let place = Place {
                parent,
                last,
                object,
                slash,
            };
            Ok(Named { place, steps })
        }
        Err(deny) => refused(deny, steps),
    }
}

// The place, its object replaced by the root of the topmost mount over it; the last word meets the mounts over it.
fn entered<'a, L: LookOver>(
    alloc: Global,
    world: &L,
    named: Named<'a>,
) -> Result<Named<'a>, AllocError>
    ensures { IfOk result (λ all. place_of all ≡ entered nat_eq (L.looks world.now) (place_of named.entry)) }
{
    let place = named.place;
    let met = met_over(alloc, world, place.last, place.object)?;
    let steps = with_met(named.steps, met)?;
    let object = match place.object {
        Some(object) => Some(world.topmost(object)),
        None => None,
    };
    Ok(Named {
        place: Place { object, ..place },
        steps,
    })
}

// The symlink that a place names, if it names one, and its text.
fn symlink_there<'a, L: Look>(world: &'a L, named: &Named<'_>) -> Option<(Location, &'a [u8])>
    ensures text { option_map (λ link. link.1.now) result
        ≡ symlink_there nat_eq (L.looks world.now) (place_of named.now) }
    ensures object { IfSome result (λ link. named.now.place.object ≡ Some link.0) }
{
    let object = named.place.object?;
    let text = symlink_text(world, object)?;
    Some((object, text))
}

// Whether a slash ends this text, or a text before it.
fn asks_for_directory(slash: bool, text: &[u8]) -> bool
    ensures { result ≡ (slash || ends_in_slash text.now) }
{
    slash || link::ends_in_slash(text)
}

// The place of a file that is opened or made, on the path or the text of a final symlink, with the symlinks that may
// stand in one another's texts.
pub(crate) fn file_walked<'a, L: LookOver>(
    walker: &Walker<'a, L>,
    start: Here,
    text: &'a [u8],
    slash: bool,
    depth: usize,
) -> Result<Named<'a>, Halt>
    ensures { EndsAtPlace (file_walked nat_eq depth (L.looks walker.now.world.now)
        (task_of walker.now.who.now) (here_of start) text.now slash) result }
{
    if depth == 0 {
        return refused(Rule::W7.denial(), start.steps);
    }
    let prefix = prefix_walked(walker, start, text)?;
    let directory = prefix.here.location;
    let left = prefix.here.left;
    let slash = asks_for_directory(slash, text);
    let named = placed(walker, prefix.here, prefix.last, slash)?;
    let Some((link, inner)) = symlink_there(walker.world, &named) else {
        return Ok(entered(walker.alloc, walker.world, named)?);
    };
    let symlink = Here {
        location: link,
        left,
        steps: named.steps,
    };
    let begun = link_begun(walker, directory, symlink, inner)?;
    file_walked(walker, begun, inner, slash, depth - 1)
}
