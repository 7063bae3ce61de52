//! Events that change files and names: chmod(2), setxattr(2), write(2), pwrite(2), mkdir(2), link(2), unlink(2).
ghost use Rattle.std.specs.Prelude.{◌≡◌, OnErr, OnOk};
ghost use Rattle.vt_permits.specs.GrantValue.{make_permit, remove_permit, write_permit};
ghost use Rattle.vt_permits.specs.declared.grant.MakeGrant.TheVariants.{Link, Node};
ghost use Rattle.vt_permits.specs.declared.grant.RemoveGrant.TheVariants.{Unlink};
ghost use Rattle.vt_permits.specs.declared.grant.WriteGrant.TheVariants.{Part};
ghost use Rattle.vt_location.specs.Locations.{location_of, number_of};
ghost use Rattle.vt_spec.specs.Language.Changes.Change.{SetAttr, SetBytes, SetMark};
ghost use Rattle.vt_spec.specs.Machine.Permits.Permit.{ToChange};
ghost use Rattle.vt_mounting.specs.Detach.Events.{Becomes, Permits};
ghost use Rattle.vt_ns.specs.Grants.{Grants};
ghost use Rattle.vt_ns.specs.Vacancy.{NextInodeIsVacant};
ghost use Rattle.vt_ns.specs.Counting.{CountsNothing};

use crate::world::World;
use std::alloc::AllocError;
use vt_location::Location;
use vt_node::Attr;
use vt_permits::{ToLink, ToMake, ToUnlink, ToWritePart};
use vt_request::TaskName;

impl World {
    /// Sets the owner, group and mode of an inode: chmod(2), chown(2). It does not allocate.
    #[inline(always)]
    pub fn set_attr(&mut self, name: &TaskName, object: Location, attr: Attr)
        requires { Permits self.old name.now (ToChange (location_of object) (SetAttr (number_of object.node) attr)) }
        ensures ok { Becomes self.old name.now
            (ToChange (location_of object) (SetAttr (number_of object.node) attr)) self.new }
        ensures counts { CountsNothing self.old self.new }
    {
        self.store.plain_mut().set_attr(object.node, attr);
    }

    /// Marks a directory opaque, or takes its mark away: setxattr(2) of `trusted.overlay.opaque`. It does not allocate.
    #[inline(always)]
    pub fn set_opaque(&mut self, name: &TaskName, directory: Location, opaque: bool)
        requires { Permits self.old name.now
            (ToChange (location_of directory) (SetMark (number_of directory.node) opaque)) }
        ensures ok { Becomes self.old name.now
            (ToChange (location_of directory) (SetMark (number_of directory.node) opaque)) self.new }
        ensures counts { CountsNothing self.old self.new }
    {
        self.store.plain_mut().set_opaque(directory.node, opaque);
    }

    /// Sets the whole content of a file: write(2) after open(2) with O_TRUNC. It does not allocate.
    #[inline(always)]
    pub fn write(&mut self, name: &TaskName, file: Location, bytes: Vec<u8>)
        requires { Permits self.old name.now
            (ToChange (location_of file) (SetBytes (number_of file.node) bytes.items)) }
        ensures ok { Becomes self.old name.now
            (ToChange (location_of file) (SetBytes (number_of file.node) bytes.items)) self.new }
        ensures counts { CountsNothing self.old self.new }
    {
        self.store.plain_mut().write(file.node, bytes);
    }

    /// Makes a further hard link to an inode: link(2).
    ///
    /// It fails too where the inode has 2^64 - 1 uses.
    pub fn link(&mut self, name: &TaskName, new: ToLink) -> Result<(), AllocError>
        requires { Permits self.old name.now (make_permit (Link new)) }
        ensures ok { OnOk result (Becomes self.old name.now (make_permit (Link new)) self.new) }
        ensures counts { OnOk result (CountsNothing self.old self.new) }
        ensures err { OnErr result (self.new ≡ self.old) }
    {
        self.store
            .plain_mut()
            .link(new.directory.node, new.name, new.object)
    }

    /// Takes a name from an inode that is no directory: unlink(2). The inode is freed with its last use. It does
    /// not allocate.
    #[inline(always)]
    pub fn unlink(&mut self, name: &TaskName, gone: ToUnlink)
        requires { Permits self.old name.now (remove_permit (Unlink gone)) }
        ensures ok { Becomes self.old name.now (remove_permit (Unlink gone)) self.new }
        ensures counts { CountsNothing self.old self.new }
    {
        self.store
            .plain_mut()
            .unlink(gone.directory.node, gone.name.as_slice(), gone.object);
    }

    /// Writes bytes into a file from an offset on, and zeros into a gap before them: pwrite(2). No bytes change
    /// nothing.
    #[inline(always)]
    pub fn write_part(&mut self, name: &TaskName, part: ToWritePart) -> Result<(), AllocError>
        requires { Permits self.old name.now (write_permit (Part part)) }
        ensures ok { OnOk result (Becomes self.old name.now (write_permit (Part part)) self.new) }
        ensures counts { OnOk result (CountsNothing self.old self.new) }
        ensures err { OnErr result (self.new ≡ self.old) }
    {
        let bytes = part.bytes.as_slice();
        let plain = self.store.plain_mut();
        if bytes.is_empty() {
            return Ok(());
        }
        plain.write_at(part.file.node, part.offset, bytes)
    }

    /// Makes an inode under a name of a directory: mkdir(2), symlink(2), mknod(2).
    #[inline(always)]
    pub fn make(&mut self, name: &TaskName, new: ToMake) -> Result<(), AllocError>
        requires { Grants self.old name.now (make_permit (Node new)) }
        ensures vacant { OnOk result (NextInodeIsVacant self.old (location_of new.directory)) }
        ensures ok { OnOk result (Becomes self.old name.now (make_permit (Node new)) self.new) }
        ensures counts { OnOk result (CountsNothing self.old self.new) }
        ensures err { OnErr result (self.new ≡ self.old) }
    {
        self.store.plain_mut().create(self.mounts.alloc(), new.directory.node, new.name, new.node)?;
        Ok(())
    }
}
