//! A mount takes the place of another, and that one gets a new place: pivot_root(2).
ghost use Rattle.std.specs.Prelude.{◌≡◌, map, OnErr, OnOk};
ghost use Rattle.vt_location.specs.Locations.{location_of};
ghost use Rattle.vt_location.specs.MountValue.{mount_of};
ghost use Rattle.vt_location.specs.Numbers.{mount_number};
ghost use Rattle.vt_mount.specs.Moving.{lifted_entry, moved_to, pivoted_entry};
ghost use Rattle.vt_mount.specs.MountsValue.{changed};

use crate::mounts::Mounts;
use crate::moving::NewPoint;
use std::alloc::AllocError;
use vt_location::{Location, Mount, MountId};

impl Mounts {
    /// The second mount gets the mount point of the first, or none if that has none; the first one gets the mount
    /// point `put`: pivot_root(2). Both keep all else, their children too, and no other mount changes.
    pub fn pivot(&mut self, root: &Mount, new: &Mount, put: Location) -> Result<(), AllocError>
        ensures ok { OnOk result (self.new
            ≡ map (pivoted_entry (mount_of root.now) (mount_of new.now) (location_of put)) self.old) }
        ensures err { OnErr result (self.new ≡ self.old) }
    {
        let below = NewPoint {
            mount: root.number,
            place: put,
        };
        let Some(place) = root.mount_point else {
            self.move_to(below.mount, below.place)?;
            self.lift(new.number);
            return Ok(());
        };
        let above = NewPoint {
            mount: new.number,
            place,
        };
        self.move_both(above, below)
    }

    // Two mounts get other mount points, the second one first.
    fn move_both(&mut self, one: NewPoint, other: NewPoint) -> Result<(), AllocError>
        ensures ok { OnOk result (self.new ≡ moved_to one (moved_to other self.old)) }
        ensures err { OnErr result (self.new ≡ self.old) }
    {
        let points = [one, other];
        self.attach_all_then(&[], &points, &mut (), |_| Ok(()))?;
        Ok(())
    }

    // Takes a mount from its mount point. It does not allocate.
    fn lift(&mut self, id: MountId)
        ensures { self.new ≡ changed (mount_number id) lifted_entry self.old }
    {
        let Some(kept) = self.by_number.get_mut(&id) else {
            return;
        };
        self.indexes.lift(kept.mount_point, id);
        kept.mount_point = None;
    }
}
