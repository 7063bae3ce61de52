//! Words walked one after the other, every symlink followed.
ghost use Rattle.std.specs.Prelude.{◌≡◌, nat_eq, reverse, IfOk};
ghost use Rattle.vt_spec.specs.Lists.{rest_of};
ghost use Rattle.vt_spec.specs.Machine.Walking.{final_word, follow_rules, followed, last_walked, prefix_walked, slash_rules, symlink_start, symlink_walked, walk_unless, word_walked, words_walked};
ghost use Rattle.vt_spec.specs.PathText.{words};
ghost use Rattle.vt_location.specs.Locations.{location_of};
ghost use Rattle.vt_looks.specs.Places.{last_of};
ghost use Rattle.vt_tasks.specs.TaskValue.{task_of};
ghost use Rattle.vt_spec.specs.Machine.Looks.{mount_at};
ghost use Rattle.vt_steps.specs.StepsValue.{Ends, EndsBy, here_of};
ghost use Rattle.vt_steps.specs.declared.words.Prefix.{Prefix};

use crate::here::{Halt, Here, MOST_LINKS, Walker, refused, start_of, with_met, with_word};
use crate::meeting::{filesystems_of, is_directory_at, symlink_text, word_led};
use crate::over::LookOver;
use vt_location::Location;
use vt_looks::{LastWord, Look};
use vt_spec::errors::Rule;
use vt_text::link;
use vt_text::path::Words;

// The most texts of symlinks that stand in one another.
pub(crate) const MOST_TEXTS: usize = MOST_LINKS + 1;

// One word walked; a symlink is not followed.
fn word_walked<L: LookOver>(
    walker: &Walker<'_, L>,
    here: Here,
    word: LastWord<'_>,
) -> Result<Here, Halt>
    ensures { Ends (word_walked nat_eq (L.looks walker.now.world.now) (task_of walker.now.who.now)
        (here_of here) (last_of word.entry)) result }
{
    let step = word_led(walker.alloc, walker.world, walker.who, here.location, word)?;
    let steps = with_word(here.steps, step.met)?;
    match step.reached {
        Ok(location) => Ok(Here {
            location,
            left: here.left,
            steps,
        }),
        Err(deny) => refused(deny, steps),
    }
}

// Whether no symlink is followed on the mount of a location: `MS_NOSYMFOLLOW` of mount(2).
fn is_nosymfollow<L: Look>(world: &L, link: Location) -> bool
    ensures { result ≡ (mount_at (L.looks world.now) (location_of link)).flags.nosymfollow }
{
    match world.mount(link.mount) {
        Some(mount) => mount.flags.is_nosymfollow(),
        None => false,
    }
}

// Where the walk of a symlink's text begins, if it may be walked: W9 before W7 before W2. An absolute one meets the
// filesystem of the task's root.
pub(crate) fn link_begun<L: LookOver>(
    walker: &Walker<'_, L>,
    directory: Location,
    symlink: Here,
    text: &[u8],
) -> Result<Here, Halt>
    ensures { Ends (walk_unless (here_of symlink).steps
        (follow_rules nat_eq (L.looks walker.now.world.now) (here_of symlink) text.now)
        (symlink_start nat_eq (L.looks walker.now.world.now) (task_of walker.now.who.now)
        (location_of directory) (here_of symlink) text.now)) result }
{
    if is_nosymfollow(walker.world, symlink.location) {
        return refused(Rule::W9.denial(), symlink.steps);
    }
    if symlink.left == 0 {
        return refused(Rule::W7.denial(), symlink.steps);
    }
    if link::has_long_word(text) {
        return refused(Rule::W2.denial(), symlink.steps);
    }
    let left = symlink.left - 1;
    let location = start_of(walker.who, directory, text);
    let mut steps = symlink.steps;
    if link::is_absolute(text) {
        let met = filesystems_of(walker.alloc, walker.world, &[walker.who.root])?;
        steps = with_met(steps, met)?;
    }
    Ok(Here {
        location,
        left,
        steps,
    })
}

// A trailing slash is accepted only if a directory is here, else W3.
fn asked_by_slash<L: Look>(world: &L, text: &[u8], here: Here) -> Result<Here, Halt>
    ensures { Ends (walk_unless (here_of here).steps
        (slash_rules nat_eq (L.looks world.now) text.now (here_of here).location) (here_of here)) result }
{
    if link::ends_in_slash(text) && !is_directory_at(world, here.location) {
        return refused(Rule::W3.denial(), here.steps);
    }
    Ok(here)
}

// Where words lead, every symlink followed, with symlinks in one another's texts no deeper than this.
pub(crate) fn words_walked<L: LookOver>(
    walker: &Walker<'_, L>,
    start: Here,
    mut words: Words<'_>,
    depth: usize,
) -> Result<Here, Halt>
    ensures { Ends (words_walked nat_eq (L.looks walker.now.world.now) (task_of walker.now.who.now)
        (symlink_walked nat_eq depth (L.looks walker.now.world.now) (task_of walker.now.who.now))
        (here_of start) (reverse words.entry)) result }
{
    let mut here = start;
    while let Some(word) = words.next() {
        let directory = here.location;
        let next = word_walked(walker, here, LastWord::of(word))?;
        here = match symlink_text(walker.world, next.location) {
            Some(text) => {
                if depth == 0 {
                    return refused(Rule::W7.denial(), next.steps);
                }
                let begun = link_begun(walker, directory, next, text)?;
                let ended = words_walked(walker, begun, link::words(text), depth - 1)?;
                asked_by_slash(walker.world, text, ended)?
            }
            None => next,
        };
    }
    Ok(here)
}

// The words of a text before its last, and that one.
fn front_and_last(text: &[u8]) -> (Words<'_>, LastWord<'_>)
    ensures front { reverse result.0 ≡ rest_of (reverse (words text.now)) }
    ensures last { last_of result.1 ≡ final_word (reverse (words text.now)) }
{
    match link::split_last(text) {
        Some((front, word)) => (front, LastWord::of(word)),
        None => (link::words(&[]), LastWord::NoWord),
    }
}

// All words of a text but the last, and that one.
#[derive(Debug, Drop)]
pub(crate) struct Prefix<'a> {
    pub(crate) here: Here,
    pub(crate) last: LastWord<'a>,
}

// All words of a text walked but the last, which is told.
pub(crate) fn prefix_walked<'a, L: LookOver>(
    walker: &Walker<'_, L>,
    start: Here,
    text: &'a [u8],
) -> Result<Prefix<'a>, Halt>
    ensures walk { EndsBy (λ (prefix : Prefix). here_of prefix.here)
        (prefix_walked nat_eq (L.looks walker.now.world.now) (task_of walker.now.who.now)
        (followed nat_eq (L.looks walker.now.world.now) (task_of walker.now.who.now))
        (here_of start) (reverse (words text.now))) result }
    ensures last { IfOk result (λ prefix. last_of prefix.last ≡ final_word (reverse (words text.now))) }
{
    let (front, last) = front_and_last(text);
    let here = words_walked(walker, start, front, MOST_TEXTS)?;
    Ok(Prefix { here, last })
}

// The last word of a path walked; a final symlink is not followed.
pub(crate) fn last_walked<L: LookOver>(
    walker: &Walker<'_, L>,
    here: Here,
    last: LastWord<'_>,
) -> Result<Here, Halt>
    ensures { Ends (last_walked nat_eq (L.looks walker.now.world.now) (task_of walker.now.who.now)
        (here_of here) (last_of last.entry)) result }
{
    match last {
        LastWord::NoWord => Ok(here),
        _ => word_walked(walker, here, last),
    }
}
