//! Events of tasks: umask(2), capset(2), chdir(2), chroot(2), open(2), close(2).
ghost use Rattle.std.specs.Prelude.{◌≡◌, IfOk, IsOk, OnErr, OnOk, Some, option_map};
ghost use Rattle.vt_request.specs.Requests.{access_of};
ghost use Rattle.vt_spec.specs.Machine.Descriptors.{free_number};
ghost use Rattle.vt_spec.specs.Machine.World.{task_called};
ghost use Rattle.vt_world.specs.WorldValue.{world_of};
ghost use Rattle.vt_location.specs.Locations.{location_of};
ghost use Rattle.vt_cred.specs.Caps.{capability_bits};
ghost use Rattle.vt_spec.specs.Machine.Tasks.{with_dropped};
ghost use Rattle.vt_spec.specs.Machine.Permits.Permit.{ToClose, ToOpen, ToSetCredentials, ToSetDirectory, ToSetRoot, ToSetUmask};
ghost use Rattle.vt_mounting.specs.Detach.Events.{Becomes, Permits, credentials_called};
ghost use Rattle.vt_mounting.specs.Detach.Forking.{HasRoom};
ghost use Rattle.vt_ns.specs.Counting.{CountsNothing};

use crate::forking::{has_room, hold_once_more};
use crate::world::World;
use std::alloc::AllocError;
use vt_cred::{Caps, Mode};
use vt_location::Location;
use vt_mounting::detach::uses::{hold, leave};
use vt_request::{Access, TaskName};
use vt_tasks::OpenFile;

impl World {
    /// Sets the umask of a task: umask(2). It does not allocate.
    pub fn set_umask(&mut self, name: &TaskName, umask: Mode)
        requires { Permits self.old name.now (ToSetUmask umask) }
        ensures ok { Becomes self.old name.now (ToSetUmask umask) self.new }
        ensures counts { CountsNothing self.old self.new }
    {
        self.tasks.set_umask(name, umask);
    }

    /// Drops capabilities of a task for good: capset(2). It does not allocate.
    pub fn drop_caps(&mut self, name: &TaskName, dropped: Caps)
        requires { Permits self.old name.now
            (ToSetCredentials (with_dropped (credentials_called self.old name.now) (capability_bits dropped))) }
        ensures ok { Becomes self.old name.now
            (ToSetCredentials (with_dropped (credentials_called self.old name.now)
            (capability_bits dropped))) self.new }
        ensures counts { CountsNothing self.old self.new }
    {
        self.tasks.drop_caps(name, dropped);
    }

    /// Sets the working directory of a task: chdir(2).
    ///
    /// It does not allocate: an error says that the mount or the inode has 2^64 - 1 uses.
    pub fn set_directory(&mut self, name: &TaskName, directory: Location) -> Result<(), AllocError>
        requires { Permits self.old name.now (ToSetDirectory (location_of directory)) }
        ensures ok { OnOk result (Becomes self.old name.now (ToSetDirectory (location_of directory)) self.new) }
        ensures room { HasRoom 1 directory self.old.mounts self.old.filesystems → IsOk result }
        ensures counts { OnOk result (CountsNothing self.old self.new) }
        ensures err { OnErr result (self.new ≡ self.old) }
    {
        hold(&mut self.mounts, &mut self.store, directory, false)?;
        if let Some(left) = self.tasks.set_directory(name, directory) {
            leave(&mut self.mounts, &mut self.store, left, false);
        }
        Ok(())
    }

    /// Sets the root of a task: chroot(2).
    ///
    /// It does not allocate: an error says that the mount or the inode has 2^64 - 1 uses.
    pub fn set_root(&mut self, name: &TaskName, root: Location) -> Result<(), AllocError>
        requires { Permits self.old name.now (ToSetRoot (location_of root)) }
        ensures ok { OnOk result (Becomes self.old name.now (ToSetRoot (location_of root)) self.new) }
        ensures room { HasRoom 1 root self.old.mounts self.old.filesystems → IsOk result }
        ensures counts { OnOk result (CountsNothing self.old self.new) }
        ensures err { OnErr result (self.new ≡ self.old) }
    {
        hold(&mut self.mounts, &mut self.store, root, false)?;
        if let Some(left) = self.tasks.set_root(name, root) {
            leave(&mut self.mounts, &mut self.store, left, false);
        }
        Ok(())
    }

    /// Closes a file of a task: close(2). It does not allocate.
    pub fn close(&mut self, name: &TaskName, descriptor: u8)
        requires { Permits self.old name.now (ToClose descriptor) }
        ensures ok { Becomes self.old name.now (ToClose descriptor) self.new }
        ensures counts { CountsNothing self.old self.new }
    {
        if let Some(closed) = self.tasks.close(name, descriptor) {
            leave(
                &mut self.mounts,
                &mut self.store,
                closed.location,
                closed.access.writes(),
            );
        }
    }

    /// Opens a file of a task under the least number that is free, and tells that number: open(2).
    ///
    /// It fails too where the mount or the inode has 2^64 - 1 uses.
    pub fn open(
        &mut self,
        name: &TaskName,
        file: Location,
        access: Access,
    ) -> Result<u8, AllocError>
        requires { Permits self.old name.now (ToOpen (location_of file) (access_of access)) }
        ensures number { IfOk result (λ number.
            Some number ≡ option_map free_number (task_called (world_of self.old) name.now)) }
        ensures ok { OnOk result (Becomes self.old name.now (ToOpen (location_of file) (access_of access)) self.new) }
        ensures counts { OnOk result (CountsNothing self.old self.new) }
        ensures err { OnErr result (self.new ≡ self.old) }
    {
        if !has_room(1, &self.mounts, &self.store, file) {
            return Err(AllocError);
        }
        let opened = OpenFile {
            location: file,
            access,
        };
        let number = self.tasks.open(name, opened)?;
        hold_once_more(&mut self.mounts, &mut self.store, file, access.writes());
        Ok(number)
    }
}
