//! The event that attaches copies of mounts: mount(2) with `MS_BIND`, also with `MS_REC`.
ghost use Rattle.std.specs.Prelude.{◌≡◌, ◌+◌, OnErr, OnOk, nat_eq};
ghost use Rattle.vt_location.specs.Locations.{location_of};
ghost use Rattle.vt_spec.specs.Machine.Attach.{bind_tree};
ghost use Rattle.vt_permits.specs.GrantValue.{attachment_permit};
ghost use Rattle.vt_permits.specs.declared.grant.Attachment.TheVariants.{Bind};
ghost use Rattle.vt_mounting.specs.Detach.Events.{Becomes, Permits};
ghost use Rattle.vt_world.specs.WorldValue.{world_of};
ghost use Rattle.vt_ns.specs.Counting.{counted_for};

use crate::grafting::numbers_taken;
use crate::world::World;
use std::alloc::AllocError;
use vt_mounting::attach::grafted::attach_graft;
use vt_permits::ToBind;
use vt_propagate::{Counts, Graft, parts};
use vt_request::TaskName;

impl World {
    /// Attaches a copy of the mount of a source, from that directory on: mount(2) with `MS_BIND`. If it is recursive,
    /// copies of the mounts at or under the source are attached on it, each with its descendants, but for unbindable
    /// mounts. Each receiver of the destination's mount gets a copy of the whole tree.
    ///
    /// It fails too where no number is left, or an inode or a filesystem would have more than 2^64 - 1 uses.
    pub fn bind(&mut self, name: &TaskName, bind: ToBind) -> Result<(), AllocError>
        requires { Permits self.old name.now (attachment_permit (Bind bind)) }
        ensures ok { OnOk result (Becomes self.old name.now (attachment_permit (Bind bind)) self.new) }
        ensures counts { OnOk result (self.new.next
            ≡ self.old.next + counted_for self.old (location_of bind.destination)
            (bind_tree nat_eq (world_of self.old) (location_of bind.source) bind.recursive)) }
        ensures births { self.new.births ≡ self.old.births }
        ensures err { OnErr result (self.new ≡ self.old) }
    {
        let alloc = self.mounts.alloc();
        let place = bind.destination;
        let tree = self.mounts_bound(bind.source, bind.recursive)?;
        let parts = parts(&self.mounts, &self.groups, &*self, place)?;
        let Some(taken) = numbers_taken(parts.len(), tree.len(), u64::MAX - self.next) else {
            return Err(AllocError);
        };
        let graft = Graft {
            parts: &parts,
            tree: &tree,
            place,
            moves: false,
        };
        let counts = Counts {
            first: self.next,
            step: 1,
        };
        attach_graft(
            alloc,
            &mut self.mounts,
            &mut self.groups,
            &mut self.store,
            &graft,
            counts,
        )?;
        self.next += taken;
        Ok(())
    }
}
