//! The trait `LookOver`, and the world that has it.
ghost use Rattle.std.specs.Prelude.{◌≡◌, ◌++◌, map, nat_eq, option_map, OnOk};
ghost use Rattle.vt_location.specs.Locations.{location_of};
ghost use Rattle.vt_mount.specs.MountsValue.{mounts_in};
ghost use Rattle.vt_spec.specs.Machine.Mounts.{child_at, mounts_over, root_of};

use std::alloc::AllocError;
use vt_location::Location;
use vt_looks::Look;
use vt_mount::Mounts;
use vt_ns::World;

/// What the words of a path look at besides: the mounts that stand on one another.
pub trait LookOver: Look {
    /// Pushes a location, then the root of the mount that stands there, of the mount on that root, and so on.
    fn mounts_over(&self, at: Location, passed: &mut Vec<Location>) -> Result<(), AllocError>
        ensures ok { OnOk result (map location_of passed.new.items
            ≡ map location_of passed.old.items ++ (Self.looks self.now).mounts_over (location_of at)) };
}

impl LookOver for World {
    fn mounts_over(&self, at: Location, passed: &mut Vec<Location>) -> Result<(), AllocError> {
        push_over(self.all_mounts(), at, passed)
    }
}

// Pushes a location, then the roots of the mounts over it, from the lowest to the topmost.
fn push_over(mounts: &Mounts, at: Location, passed: &mut Vec<Location>) -> Result<(), AllocError>
    ensures ok { OnOk result (map location_of passed.new.items ≡ map location_of passed.old.items
        ++ mounts_over nat_eq (mounts_in mounts.now) (location_of at)) }
{
    let mut here = at;
    for _above in 0..mounts.len() {
        passed.push(here)?;
        let Some(root) = root_over(mounts, here) else {
            return Ok(());
        };
        here = root;
    }
    passed.push(here)?;
    Ok(())
}

// The root of the mount that stands at a location.
fn root_over(mounts: &Mounts, place: Location) -> Option<Location>
    ensures { option_map location_of result
        ≡ option_map root_of (child_at nat_eq (mounts_in mounts.now) (location_of place)) }
{
    let child = mounts.child_at(place)?;
    let mount = mounts.get(child)?;
    Some(mount.root_location())
}
