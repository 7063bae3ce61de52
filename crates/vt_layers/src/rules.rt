//! The rules of layers: the kernel's overlayfs document, "upper and lower", "multiple lower layers", "sharing and
//! copying layers".
ghost use Rattle.std.specs.List.{list_any};
ghost use Rattle.std.specs.Prelude.{◌≡◌, [], Ok, Some, false, map, nat_eq, option_map, option_to_list};
ghost use Rattle.vt_spec.specs.Errors.{unless};
ghost use Rattle.vt_spec.specs.Lists.{any_pair};
ghost use Rattle.vt_spec.specs.Machine.Looks.{mount_at};
ghost use Rattle.vt_spec.specs.Machine.Rules.Conditions.{is_overlay_at};
ghost use Rattle.vt_spec.specs.Machine.Rules.Mounting.{layer_at, layer_rules, one_under_another, overlay_at};
ghost use Rattle.vt_location.specs.Locations.{location_of};
ghost use Rattle.vt_location.specs.Numbers.{filesystem_number};
ghost use Rattle.vt_tasks.specs.TaskValue.{task_of};
ghost use Rattle.vt_layers.specs.LayerConditions.{are_miscounted, checked_rules, is_upper_unfit, overlap_lowers, some_overlaid};
ghost use Rattle.vt_layers.specs.LayersValue.{layers_of, lowers_of};

use crate::looks::LookAtLayers;
use crate::walks::{LayerLocations, Lower};
use vt_location::{FilesystemId, Location};
use vt_looks::Look;
use vt_rules::is_read_only;
use vt_spec::errors::{Deny, Rule};
use vt_tasks::Task;

/// The most lower layers of an overlay.
pub const MOST_LOWERS: usize = 128;

// The filesystem that a location is in.
pub(crate) fn filesystem_at<L: Look>(world: &L, at: Location) -> FilesystemId
    ensures { filesystem_number result ≡ (mount_at (L.looks world.now) (location_of at)).filesystem }
{
    world.ground(at.mount).filesystem
}

// Whether two locations are in one filesystem.
fn is_same_filesystem<L: Look>(world: &L, one: Location, other: Location) -> bool
    ensures { result ≡ nat_eq (layer_at (L.looks world.now) (location_of one)).filesystem
        (layer_at (L.looks world.now) (location_of other)).filesystem }
{
    filesystem_at(world, one) == filesystem_at(world, other)
}

// Whether one of two lower layers is at or under the other.
fn one_under_another<L: Look>(world: &L, one: Location, other: Location) -> bool
    ensures { result ≡ one_under_another nat_eq (L.looks world.now) (layer_at (L.looks world.now) (location_of one))
        (layer_at (L.looks world.now) (location_of other)) }
{
    is_same_filesystem(world, one, other)
        && (world.is_under(one, other.node) || world.is_under(other, one.node))
}

// Whether a lower layer is at or under one of others, or one of them at or under it.
fn has_another_under<L: Look>(world: &L, one: Location, others: &[Lower]) -> bool
    ensures { result ≡ list_any (one_under_another nat_eq (L.looks world.now)
        (layer_at (L.looks world.now) (location_of one)))
        (map (layer_at (L.looks world.now)) (lowers_of others.now)) }
{
    others
        .iter()
        .any(|other| one_under_another(world, one, other.at))
}

// Whether of two lower layers one is at or under the other.
fn some_under_another<L: Look>(world: &L, lowers: &[Lower]) -> bool
    ensures { result ≡ any_pair (one_under_another nat_eq (L.looks world.now))
        (map (layer_at (L.looks world.now)) (lowers_of lowers.now)) }
{
    for (place, lower) in lowers.iter().enumerate() {
        if has_another_under(world, lower.at, &lowers[place + 1..]) {
            return true;
        }
    }
    false
}

// Whether the layers are too few or too many: no lower one, a single one without an upper directory, an upper directory
// without a work directory, more than 128 lower ones.
fn are_miscounted(layers: &LayerLocations) -> bool
    ensures { result ≡ are_miscounted (layers_of layers.now) }
{
    layers.lowers.is_empty()
        || layers.lowers.len() == 1 && layers.upper.is_none()
        || layers.upper.is_some() && layers.work.is_none()
        || layers.lowers.len() > MOST_LOWERS
}

// Whether a lower layer is in an overlay.
fn have_overlay<L: Look>(world: &L, lowers: &[Lower]) -> bool
    ensures { result ≡ list_any (is_overlay_at (L.looks world.now)) (lowers_of lowers.now) }
{
    lowers.iter().any(|lower| world.is_overlay(lower.at))
}

// Whether the upper or the work directory is in an overlay, if it is given.
fn is_on_overlay<L: Look>(world: &L, at: Option<Location>) -> bool
    ensures { result ≡ list_any (is_overlay_at (L.looks world.now)) (option_to_list (option_map location_of at)) }
{
    match at {
        Some(at) => world.is_overlay(at),
        None => false,
    }
}

// Whether a layer is in an overlay.
fn some_overlaid<L: Look>(world: &L, layers: &LayerLocations) -> bool
    ensures { result ≡ some_overlaid (L.looks world.now) (layers_of layers.now) }
{
    have_overlay(world, layers.lowers.as_slice())
        || is_on_overlay(world, layers.upper)
        || is_on_overlay(world, layers.work)
}

// Whether an upper directory has no work directory, or the two do not fit: they are in two filesystems, overlap, or may
// not be changed.
fn is_unfit_with<L: LookAtLayers>(world: &L, upper: Location, work: Option<Location>) -> bool
    requires upper { is_overlay_at (L.looks world.now) (location_of upper) ≡ false }
    requires work { list_any (is_overlay_at (L.looks world.now)) (option_to_list (option_map location_of work))
        ≡ false }
    ensures { result ≡ is_upper_unfit (L.looks world.now)
        (record { lowers = []; upper = Some (location_of upper); work = option_map location_of work }) }
{
    match work {
        Some(work) => {
            !is_same_filesystem(world, upper, work)
                || world.overlaps_one_of(&[Lower { at: work }], upper)
                || is_read_only(world, upper)
                || is_read_only(world, work)
        }
        None => true,
    }
}

// Whether there is an upper directory that is unfit with the work directory, or a work directory alone that may not be
// changed.
fn is_upper_unfit<L: LookAtLayers>(world: &L, layers: &LayerLocations) -> bool
    requires { some_overlaid (L.looks world.now) (layers_of layers.now) ≡ false }
    ensures { result ≡ is_upper_unfit (L.looks world.now) (layers_of layers.now) }
{
    match layers.upper {
        Some(upper) => is_unfit_with(world, upper, layers.work),
        None => match layers.work {
            Some(work) => is_read_only(world, work),
            None => false,
        },
    }
}

// Whether the upper or the work directory overlaps a lower layer, if it is given.
fn overlaps_lower<L: LookAtLayers>(world: &L, layers: &LayerLocations, at: Option<Location>) -> bool
    requires lowers { list_any (is_overlay_at (L.looks world.now)) (lowers_of layers.now.lowers.items) ≡ false }
    requires at { list_any (is_overlay_at (L.looks world.now)) (option_to_list (option_map location_of at)) ≡ false }
    ensures { result ≡ list_any ((L.looks world.now).overlaps_one_of
        (map (layer_at (L.looks world.now)) (lowers_of layers.now.lowers.items)))
        (option_to_list (option_map (layer_at (L.looks world.now)) (option_map location_of at))) }
{
    match at {
        Some(at) => world.overlaps_one_of(layers.lowers.as_slice(), at),
        None => false,
    }
}

// Whether the upper or the work directory overlaps a lower layer.
fn overlap_lowers<L: LookAtLayers>(world: &L, layers: &LayerLocations) -> bool
    requires { some_overlaid (L.looks world.now) (layers_of layers.now) ≡ false }
    ensures { result ≡ overlap_lowers (L.looks world.now) (layers_of layers.now) }
{
    let upper = overlaps_lower(world, layers, layers.upper);
    upper || overlaps_lower(world, layers, layers.work)
}

// The rules of layers, those together that are checked together.
fn checked<L: LookAtLayers>(world: &L, who: &Task, layers: &LayerLocations) -> Result<(), Deny>
    ensures { result
        ≡ unless (checked_rules (L.looks world.now) (task_of who.now) (layers_of layers.now)) (Ok tt) }
{
    if are_miscounted(layers) {
        return Err(Rule::O2.denial());
    }
    if some_overlaid(world, layers) {
        return Err(Rule::O2.denial());
    }
    if is_upper_unfit(world, layers) {
        return Err(Rule::O2.denial());
    }
    if world.is_in_use(who, layers) {
        return Err(Rule::O3.denial());
    }
    if some_under_another(world, layers.lowers.as_slice()) {
        return Err(Rule::O5.denial());
    }
    if overlap_lowers(world, layers) {
        return Err(Rule::O5.denial());
    }
    Ok(())
}

/// The rules of layers, of an overlay that the task is to mount. They do not allocate.
///
/// O2 (EINVAL): no lower layer, a single one without an upper directory, an upper directory without a work directory,
/// more than 128 lower layers, a layer in an overlay; or an upper and a work directory that are in two filesystems,
/// overlap, or may not be changed. O3 (EBUSY): a layer overlaps one of a live overlay. O5 (ELOOP): a lower layer is at
/// or under another, or the upper or work directory overlaps one.
pub fn may_be_layers<L: LookAtLayers>(
    world: &L,
    who: &Task,
    layers: &LayerLocations,
) -> Result<(), Deny>
    ensures { result ≡ unless (layer_rules nat_eq (L.looks world.now) (layers_of layers.now)
        (overlay_at (L.looks world.now) (task_of who.now) (layers_of layers.now))) (Ok tt) }
{
    checked(world, who, layers)
}
