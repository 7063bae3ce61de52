//! One word: where it leads, and which filesystems it meets.
ghost use Rattle.std.specs.Prelude.{◌≡◌, ◌++◌, ◌∷◌, [], ℕ, IfOk, Ok, nat_eq, map, option_map, option_copied, OnOk};
ghost use Rattle.vt_spec.specs.Errors.{unless};
ghost use Rattle.vt_spec.specs.FileTree.{symlink_text};
ghost use Rattle.vt_spec.specs.Lists.{last_or};
ghost use Rattle.vt_spec.specs.Machine.Looks.{is_directory_at};
ghost use Rattle.vt_spec.specs.Machine.Walking.LastWord.{DotDot, Named};
ghost use Rattle.vt_spec.specs.Machine.Walking.{Place, entered_mounts, entry_location, filesystems_of, hop, hops, is_top, met_at, met_by, object_named, parent_location, search_rules, stepped};
ghost use Rattle.vt_location.specs.Locations.{location_of};
ghost use Rattle.vt_looks.specs.Places.{last_of};
ghost use Rattle.vt_spec.specs.Machine.World as meant;
ghost use Rattle.vt_tasks.specs.TaskValue.{task_of};
ghost use Rattle.vt_walk.specs.WalkValue.{location_result, named_result};
ghost use Rattle.vt_steps.specs.StepsValue.{met_of};

use crate::over::LookOver;
use std::alloc::{AllocError, Global};
use vt_cred::{Rights, allows};
use vt_location::{FilesystemId, Location};
use vt_looks::{LastWord, Look};
use vt_node::Kind;
use vt_spec::errors::{Deny, Rule};
use vt_tasks::Task;

// The filesystems that a word meets, and where it leads.
#[derive(Debug, Drop)]
pub(crate) struct Step {
    pub(crate) met: Vec<FilesystemId>,
    pub(crate) reached: Result<Location, Deny>,
}

// The filesystems that the last word of a parent walk meets, and what it names.
#[derive(Debug, Drop)]
pub(crate) struct NameStep {
    pub(crate) met: Vec<FilesystemId>,
    pub(crate) object: Result<Option<Location>, Deny>,
}

// Whether a directory is at a location.
pub(crate) fn is_directory_at<L: Look>(world: &L, here: Location) -> bool
    ensures { result ≡ is_directory_at (L.looks world.now) (location_of here) }
{
    match world.node(here) {
        Some(node) => node.is_directory(),
        None => false,
    }
}

// The text of the symlink at a location, if one is there.
pub(crate) fn symlink_text<L: Look>(world: &L, here: Location) -> Option<&[u8]>
    ensures { option_copied result ≡ symlink_text ((L.looks world.now).node (location_of here)) }
{
    let node = world.node(here)?;
    if node.kind() == Kind::Symlink {
        Some(node.bytes())
    } else {
        None
    }
}

// This must be a directory that the task may search, W3 and W4, and in an overlay its mounter too, W5.
fn searched<L: Look>(world: &L, who: &Task, here: Location) -> Result<(), Deny>
    ensures { result ≡ unless (search_rules nat_eq (L.looks world.now) (task_of who.now) (location_of here)) (Ok tt) }
{
    let Some(directory) = world.node(here) else {
        return Err(Rule::W3.denial());
    };
    if !directory.is_directory() {
        return Err(Rule::W3.denial());
    }
    if !allows(
        &who.cred,
        &directory.attr(),
        directory.kind(),
        Rights::SEARCH,
    ) {
        return Err(Rule::W4.denial());
    }
    if !world.mounter_may(here, Rights::SEARCH) {
        return Err(Rule::W5.denial());
    }
    Ok(())
}

// The entry that a name has in a directory.
fn entry_location<L: Look>(world: &L, here: Location, name: &[u8]) -> Option<Location>
    ensures { option_map location_of result
        ≡ entry_location nat_eq (L.looks world.now) (location_of here) name.now }
{
    let directory = world.node(here)?;
    let entry = world.entry(here, directory, name)?;
    Some(Location {
        mount: here.mount,
        node: entry.node,
    })
}

// The filesystems of the mounts through which locations are seen.
pub(crate) fn filesystems_of<L: Look>(
    alloc: Global,
    world: &L,
    locations: &[Location],
) -> Result<Vec<FilesystemId>, AllocError>
    ensures { IfOk result (λ met. met_of met
        ≡ filesystems_of nat_eq (L.looks world.now) (map location_of locations.now)) }
{
    let mut met = Vec::new(alloc);
    for location in locations {
        met.push(world.ground(location.mount).filesystem)?;
    }
    Ok(met)
}

// Where `..` goes on from the root of a mount: its mount point. It stays at the task's root.
fn hop<L: Look>(world: &L, who: &Task, here: Location) -> Option<Location>
    ensures { option_map location_of result ≡ hop nat_eq (L.looks world.now) (task_of who.now) (location_of here) }
{
    if here.is_same(who.root) {
        return None;
    }
    let mount = world.mount(here.mount)?;
    if here.node.is_same(mount.root) {
        mount.mount_point
    } else {
        None
    }
}

// Goes from the root of a mount to its mount point, and on while that is a root too; what is passed is pushed.
fn hopped<L: Look>(
    world: &L,
    who: &Task,
    start: Location,
    passed: &mut Vec<Location>,
) -> Result<Location, AllocError>
    ensures passed { OnOk result (map location_of passed.new.items ≡ map location_of passed.old.items
        ++ hops nat_eq (L.looks world.now) (task_of who.now) (location_of start)) }
    ensures last { IfOk result (λ here. location_of here ≡ last_or (location_of start)
        (hops nat_eq (L.looks world.now) (task_of who.now) (location_of start))) }
{
    let mut here = start;
    for _hop in 0..world.mount_count() {
        passed.push(here)?;
        let Some(point) = hop(world, who, here) else {
            return Ok(here);
        };
        here = point;
    }
    passed.push(here)?;
    Ok(here)
}

// Whether `..` stays: at the task's root, and at the root of a mount.
fn is_top<L: Look>(world: &L, who: &Task, here: Location) -> bool
    ensures { result ≡ is_top nat_eq (L.looks world.now) (task_of who.now) (location_of here) }
{
    if here.is_same(who.root) {
        return true;
    }
    match world.mount(here.mount) {
        Some(mount) => here.node.is_same(mount.root),
        None => false,
    }
}

// The parent of a directory, on the same mount.
fn parent_location<L: Look>(world: &L, here: Location) -> Location
    ensures { location_of result ≡ parent_location nat_eq (L.looks world.now) (location_of here) }
{
    Location {
        mount: here.mount,
        node: world.parent(here),
    }
}

// A step that stays where it is.
fn stayed<L: Look>(alloc: Global, world: &L, here: Location) -> Result<Step, AllocError>
    ensures met { IfOk result (λ step. met_of step.met
        ≡ filesystems_of nat_eq (L.looks world.now) (location_of here ∷ [])) }
    ensures reached { IfOk result (λ step. location_result step.reached ≡ Ok (location_of here)) }
{
    Ok(Step {
        met: filesystems_of(alloc, world, &[here])?,
        reached: Ok(here),
    })
}

// `..`: it stays at a root, else leads to the parent and through every mount over it. W8: the directory is lost.
fn stepped_up<L: LookOver>(
    alloc: Global,
    world: &L,
    who: &Task,
    start: Location,
) -> Result<Step, AllocError>
    ensures met { IfOk result (λ step. met_of step.met
        ≡ met_by nat_eq (L.looks world.now) (task_of who.now) (location_of start) DotDot) }
    ensures reached { IfOk result (λ step. location_result step.reached
        ≡ stepped nat_eq (L.looks world.now) (task_of who.now) (location_of start) DotDot) }
{
    let mut passed = Vec::new(alloc);
    let here = hopped(world, who, start, &mut passed)?;
    if is_top(world, who, here) {
        return Ok(Step {
            met: filesystems_of(alloc, world, &passed)?,
            reached: Ok(here),
        });
    }
    let parent = parent_location(world, here);
    world.mounts_over(parent, &mut passed)?;
    let met = filesystems_of(alloc, world, &passed)?;
    let reached = if world.is_lost(here) {
        Err(Rule::W8.denial())
    } else {
        Ok(world.topmost(parent))
    };
    Ok(Step { met, reached })
}

// A name: it leads through the mounts over its entry. W6: it is missing.
fn stepped_down<L: LookOver>(
    alloc: Global,
    world: &L,
    here: Location,
    name: &[u8],
) -> Result<Step, AllocError>
    ensures met { (task : meant.Task ℕ) → IfOk result (λ step. met_of step.met
        ≡ met_by nat_eq (L.looks world.now) task (location_of here) (Named name.now)) }
    ensures reached { (task : meant.Task ℕ) → IfOk result (λ step. location_result step.reached
        ≡ stepped nat_eq (L.looks world.now) task (location_of here) (Named name.now)) }
{
    let mut passed = Vec::new(alloc);
    passed.push(here)?;
    let reached = match entry_location(world, here, name) {
        Some(entry) => {
            world.mounts_over(entry, &mut passed)?;
            Ok(world.topmost(entry))
        }
        None => Err(Rule::W6.denial()),
    };
    let met = filesystems_of(alloc, world, &passed)?;
    Ok(Step { met, reached })
}

// Where a word leads by itself, whether the directory may be searched or not.
fn stepped<L: LookOver>(
    alloc: Global,
    world: &L,
    who: &Task,
    here: Location,
    word: LastWord<'_>,
) -> Result<Step, AllocError>
    ensures met { IfOk result (λ step. met_of step.met
        ≡ met_by nat_eq (L.looks world.now) (task_of who.now) (location_of here) (last_of word.entry)) }
    ensures reached { IfOk result (λ step. location_result step.reached
        ≡ stepped nat_eq (L.looks world.now) (task_of who.now) (location_of here) (last_of word.entry)) }
{
    match word {
        LastWord::NoWord | LastWord::Dot => stayed(alloc, world, here),
        LastWord::DotDot => stepped_up(alloc, world, who, here),
        LastWord::Named(name) => stepped_down(alloc, world, here, name),
    }
}

/// Where a word leads from a directory that must be one to be searched.
pub(crate) fn word_led<L: LookOver>(
    alloc: Global,
    world: &L,
    who: &Task,
    here: Location,
    word: LastWord<'_>,
) -> Result<Step, AllocError>
    ensures met { IfOk result (λ step. met_of step.met
        ≡ met_by nat_eq (L.looks world.now) (task_of who.now) (location_of here) (last_of word.entry)) }
    ensures reached { IfOk result (λ step. location_result step.reached
        ≡ unless (search_rules nat_eq (L.looks world.now) (task_of who.now) (location_of here))
        (stepped nat_eq (L.looks world.now) (task_of who.now) (location_of here) (last_of word.entry))) }
{
    let step = stepped(alloc, world, who, here, word)?;
    Ok(Step {
        met: step.met,
        reached: searched(world, who, here).and(step.reached),
    })
}

// What a last word names by itself: of a name its directory's filesystem is met alone.
fn object_named<L: LookOver>(
    alloc: Global,
    world: &L,
    who: &Task,
    here: Location,
    word: LastWord<'_>,
) -> Result<NameStep, AllocError>
    ensures met { IfOk result (λ step. met_of step.met
        ≡ met_at nat_eq (L.looks world.now) (task_of who.now) (location_of here) (last_of word.entry)) }
    ensures object { IfOk result (λ step. named_result step.object
        ≡ object_named nat_eq (L.looks world.now) (task_of who.now) (location_of here) (last_of word.entry)) }
{
    if let LastWord::Named(name) = word {
        return Ok(NameStep {
            met: filesystems_of(alloc, world, &[here])?,
            object: Ok(entry_location(world, here, name)),
        });
    }
    let step = stepped(alloc, world, who, here, word)?;
    let object = match step.reached {
        Ok(location) => Ok(Some(location)),
        Err(deny) => Err(deny),
    };
    Ok(NameStep {
        met: step.met,
        object,
    })
}

/// What a last word names in a directory that must be one to be searched.
pub(crate) fn name_led<L: LookOver>(
    alloc: Global,
    world: &L,
    who: &Task,
    here: Location,
    word: LastWord<'_>,
) -> Result<NameStep, AllocError>
    ensures met { IfOk result (λ step. met_of step.met
        ≡ met_at nat_eq (L.looks world.now) (task_of who.now) (location_of here) (last_of word.entry)) }
    ensures object { IfOk result (λ step. named_result step.object
        ≡ unless (search_rules nat_eq (L.looks world.now) (task_of who.now) (location_of here))
        (object_named nat_eq (L.looks world.now) (task_of who.now) (location_of here) (last_of word.entry))) }
{
    let step = object_named(alloc, world, who, here, word)?;
    Ok(NameStep {
        met: step.met,
        object: searched(world, who, here).and(step.object),
    })
}

/// The filesystems of the mounts over an object that is named, if there is one.
pub(crate) fn met_over<L: LookOver>(
    alloc: Global,
    world: &L,
    word: LastWord<'_>,
    object: Option<Location>,
) -> Result<Vec<FilesystemId>, AllocError>
    ensures { (place : Place ℕ) → place.last ≡ last_of word.entry → place.object ≡ option_map location_of object
        → IfOk result (λ met. met_of met
        ≡ filesystems_of nat_eq (L.looks world.now) (entered_mounts nat_eq (L.looks world.now) place)) }
{
    let mut passed = Vec::new(alloc);
    if let LastWord::Named(_) = word {
        if let Some(object) = object {
            world.mounts_over(object, &mut passed)?;
        }
    }
    filesystems_of(alloc, world, &passed)
}
