//! Lines that ask whether tasks are sealed off, explained.
use crate::causes::told_since;
use crate::head::Asked;
use std::alloc::AllocError;
use vt_causes::Cause;
use vt_holders::earlier_lines;
use vt_line::line::Line;
use vt_lines::reading::{free, reading};
use vt_ns::World;
use vt_request::Directive;
use vt_sections::causes::Told;
use vt_show::picture::Picture;
use vt_unsealed::why_unsealed;

// A cause as it is told, with the line since which it holds.
fn told_of(asked: Asked<'_>, world: &World, cause: Cause<'_>) -> Result<Told, AllocError> {
    let mut picture = Picture::new(asked.alloc);
    picture.fill(world);
    let earlier = earlier_lines(asked.version, asked.alloc, asked.line.before, Some(cause));
    let told = if picture.failed || earlier.failed {
        Err(AllocError)
    } else {
        told_since(asked, world, &picture, &cause, &earlier)
    };
    drop(earlier);
    picture.end();
    told
}

// The same of a line as a run reads it; nothing where it asks nothing of tasks, or these are sealed off.
fn told_of_line(
    asked: Asked<'_>,
    world: &World,
    read: &Option<Line<'_>>,
) -> Result<Option<Told>, AllocError> {
    let Some(Line::Ask(Directive::Sealed { tasks })) = read else {
        return Ok(None);
    };
    match why_unsealed(world, tasks)? {
        Some(cause) => Ok(Some(told_of(asked, world, cause)?)),
        None => Ok(None),
    }
}

/// Why the tasks of a line are not sealed off, or which of them there is not; nothing where they are sealed off, or the
/// line does not ask that.
pub fn told_of_sealed(asked: Asked<'_>, world: &World) -> Result<Option<Told>, AllocError> {
    let mut texts = None;
    match reading(asked.version, asked.alloc, asked.line.text, &mut texts) {
        Ok(read) => {
            let told = told_of_line(asked, world, &read);
            free(read);
            told
        }
        Err(error) => Err(error),
    }
}
