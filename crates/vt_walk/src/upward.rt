//! Where `..` leads: path_resolution(7), and mount_namespaces(7) for the roots of mounts.
ghost use Rattle.std.specs.Prelude.{◌≡◌, nat_eq, option_copied, option_map, false, true, IfOk, IfSome};
ghost use Rattle.vt_spec.specs.Lists.{last_or};
ghost use Rattle.vt_spec.specs.Machine.Mounts.{same_location};
ghost use Rattle.vt_spec.specs.Machine.Looks.{mount_at, topmost};
ghost use Rattle.vt_spec.specs.Machine.Walking.{hop, hops, is_lost, is_top, parent_location, stepped};
ghost use Rattle.vt_spec.specs.Machine.Walking.LastWord.{DotDot};
ghost use Rattle.vt_location.specs.Locations.{location_of, number_of};
ghost use Rattle.vt_looks.specs.Looking.{IsGround, StaysFound};
ghost use Rattle.vt_tasks.specs.TaskValue.{task_of};
ghost use Rattle.vt_walk.specs.WalkValue.{IsFound, IsLent, step_result};

use vt_location::{Location, NodeRef};
use vt_looks::{Ground, Look};
use vt_node::Node;
use vt_spec::errors::{Deny, Rule};
use vt_tasks::Task;

// Where a word led, and whether that is known to be found if it is a directory: then `..` of it is not lost. With it come
// the real object there, if an entry led to it, and what the walk keeps of the mount, if that needs no further look.
#[derive(Clone, Copy, Debug)]
pub(crate) struct Step<'a> {
    pub(crate) location: Location,
    pub(crate) is_found: bool,
    pub(crate) lent: Option<&'a Node>,
    pub(crate) ground: Option<Ground>,
}

// Where `..` goes on from the root of a mount: its mount point. It stays at the task's root.
fn hop<L: Look>(world: &L, who: &Task, here: Location) -> Option<Location>
    ensures { option_map location_of result ≡ hop nat_eq (L.looks world.now) (task_of who.now) (location_of here) }
{
    if here.is_same(who.root) {
        return None;
    }
    let mount = world.mount(here.mount)?;
    if here.node.is_same(mount.root) {
        mount.mount_point
    } else {
        None
    }
}

// Goes from the root of a mount to its mount point, and on while that is a root too.
fn hopped<L: Look>(world: &L, who: &Task, start: Location) -> Location
    ensures { location_of result ≡ last_or (location_of start)
        (hops nat_eq (L.looks world.now) (task_of who.now) (location_of start)) }
{
    let mut here = start;
    for _hop in 0..world.mount_count() {
        let Some(point) = hop(world, who, here) else {
            return here;
        };
        here = point;
    }
    here
}

// Whether `..` stays: at the task's root, and at the root of a mount.
fn is_top<L: Look>(world: &L, who: &Task, here: Location) -> bool
    ensures { result ≡ is_top nat_eq (L.looks world.now) (task_of who.now) (location_of here) }
{
    if here.is_same(who.root) {
        return true;
    }
    match world.mount(here.mount) {
        Some(mount) => here.node.is_same(mount.root),
        None => false,
    }
}

// The parent of a directory, on the same mount.
fn parent_location<L: Look>(world: &L, here: Location) -> Location
    ensures location { location_of result ≡ parent_location nat_eq (L.looks world.now) (location_of here) }
    ensures found { nat_eq (number_of here.node) (mount_at (L.looks world.now) (location_of here)).root ≡ false
        → StaysFound (L.looks world.now) (location_of here) (location_of result) }
{
    Location {
        mount: here.mount,
        node: world.parent(here),
    }
}

// Whether `..` of a directory leads nowhere. It is not asked where a step began that is known to be found.
fn is_lost<L: Look>(world: &L, here: Location, start: Location, is_found: bool) -> bool
    requires { is_found ≡ true → is_lost nat_eq (L.looks world.now) (location_of start) ≡ false }
    ensures { result ≡ is_lost nat_eq (L.looks world.now) (location_of here) }
{
    if is_found && here.is_same(start) {
        return false;
    }
    world.is_lost(here)
}

// Through the mounts over a place. A directory stays found, and the object lent, if there are none.
#[inline(always)]
pub(crate) fn entered<'a, L: Look>(
    world: &L,
    place: Location,
    is_found: bool,
    lent: Option<&'a Node>,
) -> Step<'a>
    requires found { IsFound (L.looks world.now) place is_found }
    requires lent { IsLent (L.real world.now) place (option_copied lent) }
    ensures location { location_of result.location ≡ topmost (L.looks world.now) (location_of place) }
    ensures found { IsFound (L.looks world.now) result.location result.is_found }
    ensures lent { IsLent (L.real world.now) result.location (option_copied result.lent) }
    ensures ground { IfSome result.ground (IsGround (L.looks world.now) result.location.mount) }
{
    match world.entered(place) {
        Some(entered) => Step {
            location: entered.root,
            is_found: false,
            lent: None,
            ground: Some(entered.ground),
        },
        None => Step {
            location: place,
            is_found,
            lent,
            ground: None,
        },
    }
}

// Where `..` leads from a location: to the topmost mount over the parent. W8: the directory is lost.
//
// The parent of a directory that is not lost is not lost either, so that a walk asks once on each mount that it comes to.
pub(crate) fn step_up<'a, L: Look>(
    world: &L,
    who: &Task,
    start: Location,
    is_found: bool,
) -> Result<Step<'a>, Deny>
    requires { is_found ≡ true → is_lost nat_eq (L.looks world.now) (location_of start) ≡ false }
    ensures value { step_result result
        ≡ stepped nat_eq (L.looks world.now) (task_of who.now) (location_of start) DotDot }
    ensures found { IfOk result (λ step. IsFound (L.looks world.now) step.location step.is_found) }
    ensures lent { IfOk result (λ step. IsLent (L.real world.now) step.location (option_copied step.lent)) }
    ensures ground { IfOk result (λ step. IfSome step.ground (IsGround (L.looks world.now) step.location.mount)) }
{
    let here = hopped(world, who, start);
    if is_top(world, who, here) {
        return Ok(Step {
            location: here,
            is_found: false,
            lent: None,
            ground: None,
        });
    }
    if is_lost(world, here, start, is_found) {
        return Err(Rule::W8.denial());
    }
    Ok(entered(world, parent_location(world, here), true, None))
}
