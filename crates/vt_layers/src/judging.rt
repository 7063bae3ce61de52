//! What a mount of an overlay is granted, or the first rule that refuses it: mount(2).
ghost use Rattle.std.specs.Prelude.{◌≡◌, Err, IfErr, IfOk, Ok, Some, map, nat_eq, option_map, ℕ};
ghost use Rattle.std.specs.Result.{result_ok};
ghost use Rattle.vt_spec.specs.Language.Calls.Call.{MountOverlay};
ghost use Rattle.vt_spec.specs.Machine.Judge.{judge};
ghost use Rattle.vt_spec.specs.Machine.Permits.Permit.{ToMountOverlay as MeansToMerge};
ghost use Rattle.vt_spec.specs.Machine.Rules.Mounting.{destination_walk, layer_at, overlay_at};
ghost use Rattle.vt_spec.specs.Machine.Walking.{walk_end};
ghost use Rattle.vt_spec.specs.Machine.World.{Task as Meant};
ghost use Rattle.vt_cred.specs.MountFlags.{flags_of};
ghost use Rattle.vt_location.specs.Locations.{location_of};
ghost use Rattle.vt_permits.specs.GrantValue.{layer_of, overlay_permit};
ghost use Rattle.vt_permits.specs.Memory.{JudgesByReceivers};
ghost use Rattle.vt_tasks.specs.TaskValue.{task_of};
ghost use Rattle.vt_walk.specs.WalkValue.{location_end, location_result};
ghost use Rattle.vt_layers.specs.LayersValue.{layers_of};
ghost use Rattle.vt_layers.specs.MountValue.{layers_named};

use crate::looks::LookAtLayers;
use crate::rules::{filesystem_at, may_be_layers};
use crate::walks::{LayerLocations, Lower, layers_walked};
use std::alloc::{AllocError, Global};
use vt_cred::{Caps, MountFlags};
use vt_location::Location;
use vt_looks::Look;
use vt_options::LayerOptions;
use vt_permits::{Grant, NewLayer, ToMountOverlay};
use vt_rules::{is_elsewhere, lacks};
use vt_spec::errors::{Deny, Rule};
use vt_tasks::Task;
use vt_text::path::PathText;

// The destination of the mount.
fn destination_at<L: Look>(world: &L, who: &Task, path: &[u8]) -> Result<Location, Deny>
    ensures { location_result result
        ≡ location_end (walk_end (destination_walk nat_eq (L.looks world.now) (task_of who.now) path.now)) }
{
    vt_walk::destination_walk(world, who, &PathText::parse(path)?)
}

// The layers that options name, if an overlay may have them.
fn layers_allowed<L: LookAtLayers>(
    world: &L,
    who: &Task,
    options: &LayerOptions<'_>,
) -> Result<LayerLocations, Deny>
    ensures ok { IfOk result (λ layers. Ok (layers_of layers)
        ≡ layers_named (L.looks world.now) (task_of who.now) (Some options.now)) }
    ensures err { IfErr result (λ deny. Err deny
        ≡ layers_named (L.looks world.now) (task_of who.now) (Some options.now)) }
{
    let layers = layers_walked(world, who, options)?;
    may_be_layers(world, who, &layers)?;
    Ok(layers)
}

/// The layers that the options of a mount name, if an overlay may have them. It does not allocate.
///
/// O2 (EINVAL): a text that is no list of options. The other errors are those of the walks to the layers, and then of
/// `may_be_layers`.
pub fn layers_named<L: LookAtLayers>(
    world: &L,
    who: &Task,
    options: &Result<LayerOptions<'_>, &[u8]>,
) -> Result<LayerLocations, Deny>
    ensures ok { IfOk result (λ layers. Ok (layers_of layers)
        ≡ layers_named (L.looks world.now) (task_of who.now) (result_ok options.now)) }
    ensures err { IfErr result (λ deny. Err deny
        ≡ layers_named (L.looks world.now) (task_of who.now) (result_ok options.now)) }
{
    match options {
        Ok(options) => layers_allowed(world, who, options),
        Err(_) => Err(Rule::O2.denial()),
    }
}

// A layer as it is granted.
fn layer_granted<L: Look>(world: &L, at: Location) -> NewLayer
    ensures { layer_of result ≡ layer_at (L.looks world.now) (location_of at) }
{
    NewLayer {
        filesystem: filesystem_at(world, at),
        directory: at.node,
    }
}

// Lower layers as they are granted.
fn lowers_granted<L: Look>(
    alloc: Global,
    world: &L,
    lowers: &[Lower],
) -> Result<Vec<NewLayer>, AllocError>
    ensures { IfOk result (λ granted. map layer_of granted.items
        ≡ map (λ lower. layer_at (L.looks world.now) (location_of lower.at)) lowers.now) }
{
    let mut granted = Vec::with_capacity(alloc, lowers.len())?;
    for lower in lowers {
        granted.push(layer_granted(world, lower.at))?;
    }
    Ok(granted)
}

// The upper or the work directory as it is granted, if it is given.
fn directory_granted<L: Look>(world: &L, at: Option<Location>) -> Option<NewLayer>
    ensures { option_map layer_of result
        ≡ option_map (layer_at (L.looks world.now)) (option_map location_of at) }
{
    match at {
        Some(at) => Some(layer_granted(world, at)),
        None => None,
    }
}

// The mount of an overlay of these layers as it is granted.
fn overlay_granted<L: Look>(
    alloc: Global,
    world: &L,
    destination: Location,
    layers: &LayerLocations,
    flags: MountFlags,
) -> Result<ToMountOverlay, AllocError>
    ensures { (task : Meant ℕ) → IfOk result (λ new. overlay_permit task new
        ≡ MeansToMerge (location_of destination) (overlay_at (L.looks world.now) task (layers_of layers.now))
        (flags_of flags)) }
{
    let lowers = lowers_granted(alloc, world, layers.lowers.as_slice())?;
    let upper = directory_granted(world, layers.upper);
    let work = directory_granted(world, layers.work);
    Ok(ToMountOverlay {
        destination,
        lowers,
        upper,
        work,
        flags,
    })
}

/// What mount(2) of an overlay is given: its options, or a text that is no list of options, and its flags.
#[derive(Clone, Copy)]
pub struct OverlayWords<'a> {
    pub options: &'a Result<LayerOptions<'a>, &'a [u8]>,
    pub flags: MountFlags,
}

/// Judges a mount of an overlay: what it is granted, or the first rule that refuses it, in the policy's order.
///
/// K1 (EPERM), and after the rules of the walk to the destination those of `layers_named`, then M2 (EINVAL), M9
/// (ENOSPC). S5 (ENOMEM): an allocation failed as the receivers of the mount were gathered, or of the list of layers.
pub fn mount_overlay<L: LookAtLayers>(
    alloc: Global,
    world: &L,
    who: &Task,
    path: &[u8],
    overlay: OverlayWords<'_>,
) -> Result<Grant, Deny>
    ensures { JudgesByReceivers (MountOverlay path.now (result_ok overlay.entry.options.now)
        (flags_of overlay.entry.flags)) (task_of who.now) (judge nat_eq (L.looks world.now) (L.overfills world.now)
        (task_of who.now) (MountOverlay path.now (result_ok overlay.entry.options.now)
        (flags_of overlay.entry.flags))) result }
{
    if lacks(who, Caps::CAP_SYS_ADMIN) {
        return Err(Rule::K1.denial());
    }
    let destination = destination_at(world, who, path)?;
    let layers = layers_named(world, who, overlay.options)?;
    if is_elsewhere(world, who, destination) {
        return Err(Rule::M2.denial());
    }
    if world.overfills_with_overlay(destination)? {
        return Err(Rule::M9.denial());
    }
    let new = overlay_granted(alloc, world, destination, &layers, overlay.flags)?;
    Ok(Grant::Overlay(new))
}
