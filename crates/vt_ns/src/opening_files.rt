//! The event that makes a file and opens it: open(2) with O_CREAT.
ghost use Rattle.std.specs.Prelude.{◌<◌, ◌≡◌, IfOk, None, OnErr, OnOk, Some, option_map, true};
ghost use Rattle.vt_fs.specs.FilesystemsValue.{files_at};
ghost use Rattle.vt_location.specs.Locations.{location_of, number_of};
ghost use Rattle.vt_location.specs.Numbers.{counted, mount_number};
ghost use Rattle.vt_mount.specs.MountsValue.{uses_of, writers_of};
ghost use Rattle.vt_permits.specs.GrantValue.{descriptor_permit};
ghost use Rattle.vt_permits.specs.declared.grant.DescriptorGrant.TheVariants.{OpenNew};
ghost use Rattle.vt_spec.specs.Laws.Trees.{IsNewIn};
ghost use Rattle.vt_spec.specs.Machine.Descriptors.{free_number};
ghost use Rattle.vt_spec.specs.Machine.World.{task_called};
ghost use Rattle.vt_spec.specs.TreeInvariant.{IsDirectory, entry_at as number_at};
ghost use Rattle.vt_tasks.specs.TasksValue.{MayOpenMore, called, changed_called, with_open};
ghost use Rattle.vt_mounting.specs.Detach.Events.{Becomes};
ghost use Rattle.vt_world.specs.WorldValue.{world_of};
ghost use Rattle.vt_ns.specs.Grants.{Grants};
ghost use Rattle.vt_ns.specs.Opening.{MakesNext};
ghost use Rattle.vt_ns.specs.Vacancy.{NextInodeIsVacant};
ghost use Rattle.vt_ns.specs.Counting.{CountsNothing};

use crate::world::World;
use std::alloc::{AllocError, Global};
use vt_fs::Filesystems;
use vt_location::{Location, MountId, NodeRef};
use vt_mount::Mounts;
use vt_node::NewNode;
use vt_permits::ToOpenNew;
use vt_request::TaskName;
use vt_tasks::{OpenFile, Tasks};

impl World {
    /// Makes a file under a name of a directory and opens it, without rights on it, under the least number that is
    /// free, which is returned: open(2) with O_CREAT.
    ///
    /// It fails too where the mount has 2^64 - 1 uses.
    pub fn open_new(&mut self, name: &TaskName, new: ToOpenNew) -> Result<u8, AllocError>
        requires { Grants self.old name.now (descriptor_permit (OpenNew new)) }
        ensures vacant { OnOk result (NextInodeIsVacant self.old (location_of new.directory)) }
        ensures number { IfOk result (λ number.
            Some number ≡ option_map free_number (task_called (world_of self.old) name.now)) }
        ensures ok { OnOk result (Becomes self.old name.now (descriptor_permit (OpenNew new)) self.new) }
        ensures counts { OnOk result (CountsNothing self.old self.new) }
        ensures err { OnErr result (self.new ≡ self.old) }
    {
        let Location { mount, node } = new.directory;
        let file = self.store.plain().next_number(node.filesystem).unwrap();
        if !mount_has_room(&self.mounts, mount) {
            return Err(AllocError);
        }
        let access = new.access;
        let opened = OpenFile {
            location: Location { mount, node: file },
            access,
        };
        let tasks = &mut self.tasks;
        let filesystems = self.store.plain_mut();
        let number = open_next(
            self.mounts.alloc(),
            tasks,
            filesystems,
            name,
            opened,
            node,
            new.name,
            new.node,
        )?;
        // They cannot fail: the mount has room for a use more, and a new inode has one use.
        let _ = self.mounts.hold(mount, access.writes());
        let _ = self.store.plain_mut().pin(file);
        Ok(number)
    }
}

// Whether one more use of a mount may be counted, also of one that writes.
fn mount_has_room(mounts: &Mounts, id: MountId) -> bool
    ensures { result ≡ true → (uses_of mounts.now (mount_number id) < u64.MAX)
        × (writers_of mounts.now (mount_number id) < u64.MAX) }
{
    mounts.uses(id) < u64::MAX && mounts.writers(id) < u64::MAX
}

// Makes the next inode of a filesystem under a free name of a directory, and opens a file of a task: all or nothing. All
// memory is taken before the first change.
fn open_next(
    alloc: Global,
    tasks: &mut Tasks,
    filesystems: &mut Filesystems,
    task: &TaskName,
    opened: OpenFile,
    directory: NodeRef,
    name: Vec<u8>,
    node: NewNode,
) -> Result<u8, AllocError>
    requires may { MayOpenMore (called task.now tasks.old.tasks) }
    requires directory { IsDirectory (files_at filesystems.old directory.filesystem.count).tree (number_of directory) }
    requires free { number_at (files_at filesystems.old directory.filesystem.count).tree
        (number_of directory) name.items ≡ None }
    requires node { IsNewIn directory.slot node }
    ensures number { IfOk result (λ number. Some number ≡ option_map free_number (called task.now tasks.old.tasks)) }
    ensures ok { OnOk result (tasks.new
        ≡ record tasks.old { tasks = changed_called task.now (with_open opened) tasks.old.tasks }) }
    ensures made { OnOk result (MakesNext directory name.items node filesystems.old filesystems.new) }
    ensures err_tasks { OnErr result (tasks.new ≡ tasks.old) }
    ensures err_filesystems { OnErr result (filesystems.new ≡ filesystems.old) }
{
    tasks.open_after(task, opened, filesystems, |filesystems| {
        create_next(alloc, filesystems, directory, name, node)
    })
}

// Makes the next inode of a filesystem, under a free name of a directory.
fn create_next(
    alloc: Global,
    filesystems: &mut Filesystems,
    directory: NodeRef,
    name: Vec<u8>,
    node: NewNode,
) -> Result<(), AllocError>
    requires directory { IsDirectory (files_at filesystems.old directory.filesystem.count).tree (number_of directory) }
    requires free { number_at (files_at filesystems.old directory.filesystem.count).tree
        (number_of directory) name.items ≡ None }
    requires node { IsNewIn directory.slot node }
    ensures ok { OnOk result (MakesNext directory name.items node filesystems.old filesystems.new) }
    ensures err { OnErr result (filesystems.new ≡ filesystems.old) }
{
    filesystems.create(alloc, directory, name, node)?;
    Ok(())
}
