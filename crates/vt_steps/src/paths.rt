//! The words of a call's paths, in the order in which it walks them.
ghost use Rattle.std.specs.Prelude.{◌≡◌, ◌∷◌, ◌++◌, ◌&&◌, [], IfOk, map, nat_eq, not};
ghost use Rattle.std.specs.Result.{result_ok};
ghost use Rattle.vt_spec.specs.Lists.{is_empty_list};
ghost use Rattle.vt_spec.specs.Machine.Looks.{is_directory_at};
ghost use Rattle.vt_spec.specs.Language.Calls.{MountFlags};
ghost use Rattle.vt_spec.specs.Language.Calls.Call.{MountOverlay};
ghost use Rattle.vt_spec.specs.Machine.Turns.{layer_routes, place_or_root, routes};
ghost use Rattle.vt_spec.specs.Machine.Walking.{is_directory_there, old_leaf_walk};
ghost use Rattle.vt_request.specs.Requests.{call_of, descriptor_call_of, look_call_of, make_call_of, mount_call_of, remove_call_of, task_call_of, write_call_of};
ghost use Rattle.vt_tasks.specs.TaskValue.{task_of};
ghost use Rattle.vt_steps.specs.RouteValue.{refuses, route_for, route_of, words_for, words_in};

use crate::aims::Aim;
use crate::here::{Steps, Walker};
use crate::meeting::is_directory_at;
use crate::over::LookOver;
use crate::walked::{file_steps, object_steps, place_steps, symlink_steps};
use std::alloc::{AllocError, Global};
use vt_options::LayerOptions;
use vt_request::{
    Call, Creation, DescriptorCall, LookCall, MakeCall, MountCall, RemoveCall, TaskCall, WriteCall,
};
use vt_tasks::Task;
use vt_text::path::PathText;
use vt_walk::{
    destination_walk, directory_walk, file_walk, new_leaf_walk, new_walk, object_walk,
    old_leaf_walk, old_walk, rename_new_walk, source_walk, symlink_walk,
};

/// The words of one path, as far as they are walked.
#[derive(Debug, Drop)]
pub struct Route {
    pub steps: Steps,
    /// Whether the last of them is refused.
    pub fails: bool,
}

// The words of a path.
fn steps_for<L: LookOver>(
    walker: &Walker<'_, L>,
    path: &PathText<'_>,
    aim: Aim,
) -> Result<Steps, AllocError>
    ensures { IfOk result (λ steps. words_in steps ≡ words_for (L.looks walker.now.world.now)
        (task_of walker.now.who.now) aim path.now) }
{
    match aim {
        Aim::Object | Aim::Directory | Aim::Source | Aim::Destination => {
            object_steps(walker, path)
        }
        Aim::Symlink => symlink_steps(walker, path),
        Aim::File => file_steps(walker, path),
        Aim::New | Aim::NewLeaf | Aim::Old | Aim::OldLeaf | Aim::Renamed { .. } => {
            place_steps(walker, path)
        }
    }
}

// Whether the walk of a path is refused.
fn is_refused<L: LookOver>(world: &L, who: &Task, path: &PathText<'_>, aim: Aim) -> bool
    ensures { result ≡ refuses (L.looks world.now) (task_of who.now) aim path.now }
{
    match aim {
        Aim::Object => object_walk(world, who, path).is_err(),
        Aim::Symlink => symlink_walk(world, who, path).is_err(),
        Aim::Directory => directory_walk(world, who, path).is_err(),
        Aim::Source => source_walk(world, who, path).is_err(),
        Aim::Destination => destination_walk(world, who, path).is_err(),
        Aim::File => file_walk(world, who, path).is_err(),
        Aim::New => new_walk(world, who, path).is_err(),
        Aim::NewLeaf => new_leaf_walk(world, who, path).is_err(),
        Aim::Old => old_walk(world, who, path).is_err(),
        Aim::OldLeaf => old_leaf_walk(world, who, path).is_err(),
        Aim::Renamed { directory } => rename_new_walk(world, who, path, directory).is_err(),
    }
}

// Whether the last of the words of a path is refused. A walk that is refused before its first word has none.
fn last_fails<L: LookOver>(
    world: &L,
    who: &Task,
    path: &PathText<'_>,
    aim: Aim,
    steps: &Steps,
) -> bool
    ensures { result ≡ (not (is_empty_list (words_in steps.now))
        && refuses (L.looks world.now) (task_of who.now) aim path.now) }
{
    !steps.is_empty() && is_refused(world, who, path, aim)
}

// The words of a path; one that is refused by W1 or W2 has none.
fn route_to<L: LookOver>(walker: &Walker<'_, L>, path: &[u8], aim: Aim) -> Result<Route, AllocError>
    ensures { IfOk result (λ route. route_of route
        ≡ route_for (L.looks walker.now.world.now) (task_of walker.now.who.now) aim path.now) }
{
    let Ok(text) = PathText::parse(path) else {
        return Ok(Route {
            steps: Vec::new(walker.alloc),
            fails: false,
        });
    };
    let steps = steps_for(walker, &text, aim)?;
    let fails = last_fails(walker.world, walker.who, &text, aim, &steps);
    Ok(Route { steps, fails })
}

// The words of a call with one path.
fn one<L: LookOver>(walker: &Walker<'_, L>, path: &[u8], aim: Aim) -> Result<Vec<Route>, AllocError>
    ensures { IfOk result (λ all. map route_of all.items
        ≡ route_for (L.looks walker.now.world.now) (task_of walker.now.who.now) aim path.now ∷ []) }
{
    let mut all = Vec::new(walker.alloc);
    all.push(route_to(walker, path, aim)?)?;
    Ok(all)
}

// The words of these paths, and then of one more.
fn then<L: LookOver>(
    walker: &Walker<'_, L>,
    mut all: Vec<Route>,
    path: &[u8],
    aim: Aim,
) -> Result<Vec<Route>, AllocError>
    ensures { IfOk result (λ more. map route_of more.items ≡ map route_of all.items
        ++ route_for (L.looks walker.now.world.now) (task_of walker.now.who.now) aim path.now ∷ []) }
{
    all.push(route_to(walker, path, aim)?)?;
    Ok(all)
}

// Whether the old name of a rename is a directory's; behind a path that may not be walked, whether `/` is one.
fn is_directory_renamed<L: LookOver>(world: &L, who: &Task, old: &[u8]) -> bool
    ensures { result ≡ is_directory_there nat_eq (L.looks world.now)
        (place_or_root nat_eq (L.looks world.now) (task_of who.now)
        (old_leaf_walk nat_eq (L.looks world.now) (task_of who.now) old.now)) }
{
    let Ok(path) = PathText::parse(old) else {
        return is_directory_at(world, who.root);
    };
    match old_leaf_walk(world, who, &path) {
        Ok(place) => is_directory_at(world, place.object),
        Err(_) => is_directory_at(world, who.root),
    }
}

// A call that only looks.
#[tactic(auto, unfolding(vt_spec::specs::Machine::Judging::judging))]
fn look_routes<L: LookOver>(
    walker: &Walker<'_, L>,
    call: &LookCall<'_>,
) -> Result<Vec<Route>, AllocError>
    ensures { IfOk result (λ all. map route_of all.items
        ≡ routes nat_eq (L.looks walker.now.world.now) (task_of walker.now.who.now) (look_call_of call.now)) }
{
    match call {
        LookCall::Ls { path } => one(walker, path, Aim::Directory),
        LookCall::Stat { path } | LookCall::Read { path } | LookCall::Exec { path } => {
            one(walker, path, Aim::Object)
        }
        LookCall::Lstat { path } | LookCall::Readlink { path } => {
            one(walker, path, Aim::Symlink)
        }
        LookCall::Pread { .. } | LookCall::ListMounts => Ok(Vec::new(walker.alloc)),
    }
}

// A call that makes a name.
#[tactic(auto, unfolding(vt_spec::specs::Machine::Judging::judging))]
fn make_routes<L: LookOver>(
    walker: &Walker<'_, L>,
    call: &MakeCall<'_>,
) -> Result<Vec<Route>, AllocError>
    ensures { IfOk result (λ all. map route_of all.items
        ≡ routes nat_eq (L.looks walker.now.world.now) (task_of walker.now.who.now) (make_call_of call.now)) }
{
    match call {
        MakeCall::Mkdir { path, .. } => one(walker, path, Aim::New),
        MakeCall::Symlink { path, .. } | MakeCall::Whiteout { path } => {
            one(walker, path, Aim::NewLeaf)
        }
        MakeCall::Link { old, new } => {
            let first = one(walker, old, Aim::Symlink)?;
            then(walker, first, new, Aim::NewLeaf)
        }
    }
}

// A call that takes a name away.
#[tactic(auto, unfolding(vt_spec::specs::Machine::Judging::judging))]
fn remove_routes<L: LookOver>(
    walker: &Walker<'_, L>,
    call: &RemoveCall<'_>,
) -> Result<Vec<Route>, AllocError>
    ensures { IfOk result (λ all. map route_of all.items
        ≡ routes nat_eq (L.looks walker.now.world.now) (task_of walker.now.who.now) (remove_call_of call.now)) }
{
    match call {
        RemoveCall::Unlink { path } => one(walker, path, Aim::OldLeaf),
        RemoveCall::Rmdir { path } => one(walker, path, Aim::Old),
        RemoveCall::Rename { old, new } => {
            let first = one(walker, old, Aim::OldLeaf)?;
            let directory = is_directory_renamed(walker.world, walker.who, old);
            then(walker, first, new, Aim::Renamed { directory })
        }
    }
}

// A call that sets something.
#[tactic(auto, unfolding(vt_spec::specs::Machine::Judging::judging))]
fn write_routes<L: LookOver>(
    walker: &Walker<'_, L>,
    call: &WriteCall<'_>,
) -> Result<Vec<Route>, AllocError>
    ensures { IfOk result (λ all. map route_of all.items
        ≡ routes nat_eq (L.looks walker.now.world.now) (task_of walker.now.who.now) (write_call_of call.now)) }
{
    match call {
        WriteCall::Write { path, .. } => one(walker, path, Aim::File),
        WriteCall::Chmod { path, .. } | WriteCall::Chown { path, .. } => {
            one(walker, path, Aim::Object)
        }
        WriteCall::Opaque { path, .. } => one(walker, path, Aim::Directory),
        WriteCall::Pwrite { .. } => Ok(Vec::new(walker.alloc)),
    }
}

// A call that opens or closes a file.
#[tactic(auto, unfolding(vt_spec::specs::Machine::Judging::judging))]
fn descriptor_routes<L: LookOver>(
    walker: &Walker<'_, L>,
    call: &DescriptorCall<'_>,
) -> Result<Vec<Route>, AllocError>
    ensures { IfOk result (λ all. map route_of all.items
        ≡ routes nat_eq (L.looks walker.now.world.now)
        (task_of walker.now.who.now) (descriptor_call_of call.now)) }
{
    match call {
        DescriptorCall::Open { path, creation, .. } => match creation {
            Creation::Never => one(walker, path, Aim::Object),
            Creation::OrCreate(_) => one(walker, path, Aim::File),
            Creation::Exclusive(_) => one(walker, path, Aim::New),
        },
        DescriptorCall::Close { .. } => Ok(Vec::new(walker.alloc)),
    }
}

// A call that changes the caller, or makes a task.
#[tactic(auto, unfolding(vt_spec::specs::Machine::Judging::judging))]
fn task_routes<L: LookOver>(
    walker: &Walker<'_, L>,
    call: &TaskCall<'_>,
) -> Result<Vec<Route>, AllocError>
    ensures { IfOk result (λ all. map route_of all.items
        ≡ routes nat_eq (L.looks walker.now.world.now) (task_of walker.now.who.now) (task_call_of call.now)) }
{
    match call {
        TaskCall::Chdir { path } | TaskCall::Chroot { path } => {
            one(walker, path, Aim::Directory)
        }
        TaskCall::Umask { .. }
        | TaskCall::Drop { .. }
        | TaskCall::Fork { .. }
        | TaskCall::Exit
        | TaskCall::Unshare
        | TaskCall::Setns { .. } => Ok(Vec::new(walker.alloc)),
    }
}

// The words of these paths, and then of those to the layers of an overlay.
fn then_layers<L: LookOver>(
    walker: &Walker<'_, L>,
    first: Vec<Route>,
    options: &LayerOptions<'_>,
) -> Result<Vec<Route>, AllocError>
    ensures { IfOk result (λ all. map route_of all.items ≡ map route_of first.items
        ++ layer_routes nat_eq (L.looks walker.now.world.now) (task_of walker.now.who.now) options.now) }
{
    let mut all = first;
    let mut lowers = options.lowers();
    while let Some(lower) = lowers.next() {
        all = then(walker, all, lower, Aim::Source)?;
    }
    if let Some(upper) = options.upper() {
        all = then(walker, all, upper, Aim::Source)?;
    }
    if let Some(work) = options.work() {
        all = then(walker, all, work, Aim::Source)?;
    }
    Ok(all)
}

// The words of a mount of an overlay. Options that are none have no layers.
#[tactic(auto, unfolding(vt_spec::specs::Machine::Judging::judging))]
fn overlay_routes<L: LookOver>(
    walker: &Walker<'_, L>,
    path: &[u8],
    options: &Result<LayerOptions<'_>, &[u8]>,
) -> Result<Vec<Route>, AllocError>
    ensures { (flags : MountFlags) → IfOk result (λ all. map route_of all.items
        ≡ routes nat_eq (L.looks walker.now.world.now) (task_of walker.now.who.now)
        (MountOverlay path.now (result_ok options.now) flags)) }
{
    let first = one(walker, path, Aim::Destination)?;
    match options {
        Ok(options) => then_layers(walker, first, options),
        Err(_) => Ok(first),
    }
}

// A call that changes mounts.
#[tactic(auto, unfolding(vt_spec::specs::Machine::Judging::judging))]
fn mount_routes<L: LookOver>(
    walker: &Walker<'_, L>,
    call: &MountCall<'_>,
) -> Result<Vec<Route>, AllocError>
    ensures { IfOk result (λ all. map route_of all.items
        ≡ routes nat_eq (L.looks walker.now.world.now) (task_of walker.now.who.now) (mount_call_of call.now)) }
{
    match call {
        MountCall::Plain { path, .. } => one(walker, path, Aim::Destination),
        MountCall::Overlay { path, options, .. } => { overlay_routes(walker, path, options) }
        MountCall::Bind { source, path, .. } | MountCall::Move { source, path } => {
            let first = one(walker, source, Aim::Source)?;
            then(walker, first, path, Aim::Destination)
        }
        MountCall::Umount { path }
        | MountCall::Lazy { path }
        | MountCall::Remount { path, .. }
        | MountCall::SetType { path, .. } => one(walker, path, Aim::Directory),
        MountCall::Pivot { new, put } => {
            let first = one(walker, new, Aim::Source)?;
            then(walker, first, put, Aim::Destination)
        }
    }
}

/// The words of a call's paths, in the order in which it walks them. A path after one that is refused is walked too.
pub fn routes<L: LookOver>(
    alloc: Global,
    world: &L,
    who: &Task,
    call: &Call<'_>,
) -> Result<Vec<Route>, AllocError>
    ensures { IfOk result (λ all. map route_of all.items
        ≡ routes nat_eq (L.looks world.now) (task_of who.now) (call_of call.now)) }
{
    let walker = Walker { alloc, world, who };
    match call {
        Call::Look(call) => look_routes(&walker, call),
        Call::Make(call) => make_routes(&walker, call),
        Call::Remove(call) => remove_routes(&walker, call),
        Call::Write(call) => write_routes(&walker, call),
        Call::Descriptor(call) => descriptor_routes(&walker, call),
        Call::Task(call) => task_routes(&walker, call),
        Call::Mount(call) => mount_routes(&walker, call),
    }
}
