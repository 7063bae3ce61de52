//! Mount calls behind K1 (EPERM): mount(2) in its forms, umount(2), pivot_root(2).
ghost use Rattle.std.specs.Prelude.{◌≡◌, nat_eq, Bool};
ghost use Rattle.std.specs.Result.{result_ok};
ghost use Rattle.vt_spec.specs.Language.Calls.{MountFlags as FlagsMeant, TypeWord as WordMeant};
ghost use Rattle.vt_spec.specs.Language.Calls.Call.{Bind, Lazy, MountOverlay, MountPlain, MoveMount, PivotRoot, Remount, SetType, Umount};
ghost use Rattle.vt_spec.specs.Machine.Judging.{judging};
ghost use Rattle.vt_cred.specs.MountFlags.{flags_of};
ghost use Rattle.vt_location.specs.Locations.{location_of};
ghost use Rattle.vt_tasks.specs.TaskValue.{task_of};
ghost use Rattle.vt_later.specs.Past.{behind_needs, refusal_past, RefusesAs};

use crate::passing::first;
use crate::pivoting::pivot_rows;
use crate::walks::{Aim, led_to};
use vt_cred::MountFlags;
use vt_layers::{LookAtLayers, layers_named};
use vt_looks::{Look, LookAtMounts};
use vt_options::LayerOptions;
use vt_permits::{Attachment, ToBind};
use vt_rules::{
    has_shared_parent, is_attached_somewhere, is_elsewhere, is_no_root, is_shared, is_unbindable,
};
use vt_spec::errors::{Deny, Rule};
use vt_tasks::Task;

/// The paths of a mount call that has two: pivot_root(2) takes the new root as the source.
#[derive(Clone, Copy)]
pub struct Paths<'a> {
    pub source: &'a [u8],
    pub path: &'a [u8],
}

/// M2, M9.
#[tactic(auto, unfolding(vt_spec::specs::Machine::Judging::judging))]
pub fn mount_plain<L: LookAtMounts>(
    world: &L,
    who: &Task,
    passed: &[Rule],
    path: &[u8],
    flags: MountFlags,
) -> Result<(), Deny>
    ensures { RefusesAs (refusal_past (L.looks world.now) (task_of who.now) passed.now (L.overfills world.now)
        (behind_needs (judging nat_eq (L.looks world.now) (task_of who.now) (MountPlain path.now (flags_of flags)))))
        result }
{
    let destination = led_to(world, who, Aim::Destination, path)?;
    let overfull = world.overfills(Attachment::Plain { destination, flags })?;
    let rows = [
        (is_elsewhere(world, who, destination), Rule::M2),
        (overfull, Rule::M9),
    ];
    first(passed, &rows)
}

/// O2, the rules of the walks to the layers, O2, O3, O5, M2, M9.
#[tactic(auto, unfolding(vt_spec::specs::Machine::Judging::judging))]
pub fn mount_overlay<L: LookAtLayers>(
    world: &L,
    who: &Task,
    passed: &[Rule],
    path: &[u8],
    options: &Result<LayerOptions<'_>, &[u8]>,
) -> Result<(), Deny>
    ensures { (flags : FlagsMeant)
        → RefusesAs (refusal_past (L.looks world.now) (task_of who.now) passed.now (L.overfills world.now)
        (behind_needs (judging nat_eq (L.looks world.now) (task_of who.now)
        (MountOverlay path.now (result_ok options.now) flags)))) result }
{
    let destination = led_to(world, who, Aim::Destination, path)?;
    drop(layers_named(world, who, options)?);
    let overfull = world.overfills_with_overlay(destination)?;
    let rows = [
        (is_elsewhere(world, who, destination), Rule::M2),
        (overfull, Rule::M9),
    ];
    first(passed, &rows)
}

/// M2, M3, M9.
#[tactic(auto, unfolding(vt_spec::specs::Machine::Judging::judging))]
pub fn bind<L: LookAtMounts>(
    world: &L,
    who: &Task,
    passed: &[Rule],
    paths: Paths<'_>,
    recursive: bool,
) -> Result<(), Deny>
    ensures { RefusesAs (refusal_past (L.looks world.now) (task_of who.now) passed.now (L.overfills world.now)
        (behind_needs (judging nat_eq (L.looks world.now) (task_of who.now)
        (Bind paths.entry.source.now paths.entry.path.now recursive)))) result }
{
    let source = led_to(world, who, Aim::Source, paths.source)?;
    let destination = led_to(world, who, Aim::Destination, paths.path)?;
    let overfull = world.overfills(Attachment::Bind(ToBind {
        source,
        destination,
        recursive,
    }))?;
    let elsewhere = is_elsewhere(world, who, source) | is_elsewhere(world, who, destination);
    let rows = [
        (elsewhere, Rule::M2),
        (is_unbindable(world, source.mount), Rule::M3),
        (overfull, Rule::M9),
    ];
    first(passed, &rows)
}

/// M2, M4, M5, M6, M7, M9, M10.
#[tactic(auto, unfolding(vt_spec::specs::Machine::Judging::judging))]
pub fn move_mount<L: LookAtMounts>(
    world: &L,
    who: &Task,
    passed: &[Rule],
    paths: Paths<'_>,
) -> Result<(), Deny>
    ensures { RefusesAs (refusal_past (L.looks world.now) (task_of who.now) passed.now (L.overfills world.now)
        (behind_needs (judging nat_eq (L.looks world.now) (task_of who.now)
        (MoveMount paths.entry.source.now paths.entry.path.now)))) result }
{
    let source = led_to(world, who, Aim::Source, paths.source)?;
    let destination = led_to(world, who, Aim::Destination, paths.path)?;
    let mount = source.mount;
    let overfull = world.overfills(Attachment::Move { mount, destination })?;
    let elsewhere = is_elsewhere(world, who, source) | is_elsewhere(world, who, destination);
    let rows = [
        (elsewhere, Rule::M2),
        (has_shared_parent(world, source), Rule::M4),
        (
            is_shared(world, destination.mount) & world.has_unbindable(mount),
            Rule::M5,
        ),
        (world.is_at_or_below(mount, destination.mount), Rule::M6),
        (is_no_root(world, source), Rule::M7),
        (overfull, Rule::M9),
        (!is_attached_somewhere(world, mount), Rule::M10),
    ];
    first(passed, &rows)
}

/// M2, M7, M8, M10.
#[tactic(auto, unfolding(vt_spec::specs::Machine::Judging::judging))]
pub fn umount<L: LookAtMounts>(
    world: &L,
    who: &Task,
    passed: &[Rule],
    path: &[u8],
) -> Result<(), Deny>
    ensures { RefusesAs (refusal_past (L.looks world.now) (task_of who.now) passed.now (L.overfills world.now)
        (behind_needs (judging nat_eq (L.looks world.now) (task_of who.now) (Umount path.now)))) result }
{
    let here = led_to(world, who, Aim::Directory, path)?;
    let busy = world.is_busy(here.mount)?;
    let rows = [
        (is_elsewhere(world, who, here), Rule::M2),
        (is_no_root(world, here), Rule::M7),
        (busy, Rule::M8),
        (!is_attached_somewhere(world, here.mount), Rule::M10),
    ];
    first(passed, &rows)
}

/// M2, M7, M10.
#[tactic(auto, unfolding(vt_spec::specs::Machine::Judging::judging))]
pub fn lazy<L: LookAtMounts>(
    world: &L,
    who: &Task,
    passed: &[Rule],
    path: &[u8],
) -> Result<(), Deny>
    ensures { RefusesAs (refusal_past (L.looks world.now) (task_of who.now) passed.now (L.overfills world.now)
        (behind_needs (judging nat_eq (L.looks world.now) (task_of who.now) (Lazy path.now)))) result }
{
    let here = led_to(world, who, Aim::Directory, path)?;
    let rows = [
        (is_elsewhere(world, who, here), Rule::M2),
        (is_no_root(world, here), Rule::M7),
        (!is_attached_somewhere(world, here.mount), Rule::M10),
    ];
    first(passed, &rows)
}

/// M2, M7, M8.
#[tactic(auto, unfolding(vt_spec::specs::Machine::Judging::judging))]
pub fn remount<L: LookAtMounts>(
    world: &L,
    who: &Task,
    passed: &[Rule],
    path: &[u8],
    flags: MountFlags,
) -> Result<(), Deny>
    ensures { RefusesAs (refusal_past (L.looks world.now) (task_of who.now) passed.now (L.overfills world.now)
        (behind_needs (judging nat_eq (L.looks world.now) (task_of who.now) (Remount path.now (flags_of flags)))))
        result }
{
    let here = led_to(world, who, Aim::Directory, path)?;
    let written = flags.is_read_only() & world.is_written_through(here.mount);
    let rows = [
        (is_elsewhere(world, who, here), Rule::M2),
        (is_no_root(world, here), Rule::M7),
        (written, Rule::M8),
    ];
    first(passed, &rows)
}

/// M2, M7.
#[tactic(auto, unfolding(vt_spec::specs::Machine::Judging::judging))]
pub fn set_type<L: LookAtMounts>(
    world: &L,
    who: &Task,
    passed: &[Rule],
    path: &[u8],
) -> Result<(), Deny>
    ensures { (word : WordMeant) → (recursive : Bool)
        → RefusesAs (refusal_past (L.looks world.now) (task_of who.now) passed.now (L.overfills world.now)
        (behind_needs (judging nat_eq (L.looks world.now) (task_of who.now) (SetType path.now word recursive)))) result }
{
    let here = led_to(world, who, Aim::Directory, path)?;
    let rows = [
        (is_elsewhere(world, who, here), Rule::M2),
        (is_no_root(world, here), Rule::M7),
    ];
    first(passed, &rows)
}

/// M2, M7, M11, M12.
#[tactic(auto, unfolding(vt_spec::specs::Machine::Judging::judging))]
pub fn pivot_root<L: LookAtMounts>(
    world: &L,
    who: &Task,
    passed: &[Rule],
    paths: Paths<'_>,
) -> Result<(), Deny>
    ensures { RefusesAs (refusal_past (L.looks world.now) (task_of who.now) passed.now (L.overfills world.now)
        (behind_needs (judging nat_eq (L.looks world.now) (task_of who.now)
        (PivotRoot paths.entry.source.now paths.entry.path.now)))) result }
{
    let new = led_to(world, who, Aim::Source, paths.source)?;
    let put = led_to(world, who, Aim::Destination, paths.path)?;
    first(passed, &pivot_rows(world, who, new, put))
}
