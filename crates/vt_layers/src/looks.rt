//! What the rules of layers look at in a world.
ghost use Rattle.std.specs.List.{list_any};
ghost use Rattle.std.specs.Prelude.{◌≡◌, IfErr, IfOk, false, map, ℕ};
ghost use Rattle.vt_spec.specs.declared.errors.Rule.TheVariants.{S5};
ghost use Rattle.vt_spec.specs.Errors.{denial};
ghost use Rattle.vt_spec.specs.Language.Calls.{MountFlags};
ghost use Rattle.vt_spec.specs.Machine.Permits.Permit.{ToMountOverlay};
ghost use Rattle.vt_spec.specs.Machine.Rules.Conditions.{is_overlay_at};
ghost use Rattle.vt_spec.specs.Machine.Rules.Mounting.{layer_at, overlay_at};
ghost use Rattle.vt_spec.specs.Machine.World.{Overlay};
ghost use Rattle.vt_location.specs.Locations.{location_of};
ghost use Rattle.vt_tasks.specs.TaskValue.{task_of};
ghost use Rattle.vt_layers.specs.LayerConditions.{some_overlaid};
ghost use Rattle.vt_layers.specs.LayersValue.{layers_of, lowers_of};

use crate::walks::{LayerLocations, Lower};
use vt_location::Location;
use vt_looks::LookAtMounts;
use vt_spec::errors::Deny;
use vt_tasks::Task;

/// What the rules of a mount of an overlay look at besides. None of its layers is in an overlay: that is checked first.
pub trait LookAtLayers: LookAtMounts {
    /// Whether the directory at a location overlaps one of these layers: some inode lies or counts under both. ELOOP
    /// and EINVAL of mount(2).
    fn overlaps_one_of(&self, others: &[Lower], at: Location) -> bool
        requires at { is_overlay_at (Self.looks self.now) (location_of at) ≡ false }
        requires others { list_any (is_overlay_at (Self.looks self.now)) (lowers_of others.now) ≡ false }
        ensures { result ≡ (Self.looks self.now).overlaps_one_of
            (map (layer_at (Self.looks self.now)) (lowers_of others.now))
            (layer_at (Self.looks self.now) (location_of at)) };

    /// Whether the upper or the work directory overlaps a layer of a live overlay, or a lower layer the upper or work
    /// directory of one, if the task mounts an overlay of these: EBUSY of mount(2).
    fn is_in_use(&self, who: &Task, layers: &LayerLocations) -> bool
        requires { some_overlaid (Self.looks self.now) (layers_of layers.now) ≡ false }
        ensures { result ≡ (Self.looks self.now).is_in_use
            (overlay_at (Self.looks self.now) (task_of who.now) (layers_of layers.now)) };

    /// Whether a namespace has more than 4,096 mounts once an overlay is mounted here, of whatever layers and with
    /// whatever flags: ENOSPC of mount(2).
    ///
    /// S5 (ENOMEM): the allocation of a list of receivers failed.
    fn overfills_with_overlay(&self, destination: Location) -> Result<bool, Deny>
        ensures ok { (overlay : Overlay ℕ) (flags : MountFlags) → IfOk result (λ too_many. too_many
            ≡ Self.overfills self.now (ToMountOverlay (location_of destination) overlay flags)) }
        ensures memory { IfErr result (λ deny. deny ≡ denial S5) };
}
