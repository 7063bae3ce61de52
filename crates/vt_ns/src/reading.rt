//! Events that only look at files: readdir(3), stat(2), read(2), pread(2); and what is seen of a task.
ghost use Rattle.std.specs.Prelude.{◌≡◌, ◌≤◌, IfOk, drop, length, map, nat_eq, option_copied, option_map, take, None, Some, ℕ};
ghost use Rattle.vt_location.specs.Locations.{location_of};
ghost use Rattle.vt_request.specs.Answers.{stat_line_of};
ghost use Rattle.vt_spec.specs.Machine.Apply.{stat_line};
ghost use Rattle.vt_spec.specs.Machine.Permits.Permit.{ToList, ToRead, ToStat};
ghost use Rattle.vt_spec.specs.Machine.World.{node_at, task_called};
ghost use Rattle.vt_spec.specs.Tree.{bytes_in, names_in};
ghost use Rattle.vt_permits.specs.GrantValue.{look_permit};
ghost use Rattle.vt_permits.specs.declared.grant.LookGrant.TheVariants.{ReadPart};
ghost use Rattle.vt_tasks.specs.TaskValue.{task_of};
ghost use Rattle.vt_mounting.specs.Detach.Events.{Permits};
ghost use Rattle.vt_ns.specs.Lent.{real_of_value};
ghost use Rattle.vt_ns.specs.Told.{told_by};
ghost use Rattle.vt_world.specs.Held.{IsHeld};
ghost use Rattle.vt_world.specs.WorldValue.{world_of};

use crate::world::World;
use std::alloc::AllocError;
use vt_location::Location;
use vt_looks::Look;
use vt_node::{Attr, Kind, Mode, Node, copied_bytes};
use vt_permits::ToReadPart;
use vt_request::{StatLine, TaskName};
use vt_tasks::Task;

impl World {
    /// The task of this name.
    #[inline(always)]
    pub fn task(&self, name: &TaskName) -> Option<&Task>
        ensures found { option_map task_of (option_copied result) ≡ task_called (world_of self.now) name.now }
        ensures held { IsHeld self.now }
        ensures born { length self.now.tasks ≤ self.now.births }
    {
        self.tasks.get(name)
    }

    /// Kind, owner, mode, size and mark of an object: stat(2), lstat(2). It does not allocate.
    #[inline(always)]
    pub fn stat(&self, name: &TaskName, object: Location) -> StatLine
        requires { Permits self.now name.now (ToStat (location_of object)) }
        ensures { stat_line_of result ≡ stat_line (node_at nat_eq (world_of self.now) (location_of object)) }
    {
        match self.node(object) {
            Some(node) => told(node, self.overlay_on(object.mount).is_some()),
            None => told_of_nothing(),
        }
    }

    /// The bytes of a file, or the text of a symlink: read(2), readlink(2).
    #[inline(always)]
    pub fn read(&self, name: &TaskName, file: Location) -> Result<Vec<u8>, AllocError>
        requires { Permits self.now name.now (ToRead (location_of file)) }
        ensures ok { IfOk result (λ bytes. bytes.items
            ≡ bytes_in (node_at nat_eq (world_of self.now) (location_of file))) }
    {
        match self.readable(name, file) {
            Some(node) => { copied_bytes(self.alloc, node.bytes()) }
            None => Ok(Vec::new(self.alloc)),
        }
    }

    // The real object of a file that may be read: it is there, so in an overlay it is known where.
    #[inline(always)]
    fn readable(&self, _name: &TaskName, file: Location) -> Option<&Node>
        requires { Permits self.now _name.now (ToRead (location_of file)) }
        ensures { option_copied result ≡ real_of_value self.now (location_of file) }
    {
        self.store.object_there(file.node)
    }

    /// The names of a directory, in the order of their bytes: readdir(3).
    pub fn list(&self, name: &TaskName, directory: Location) -> Result<Vec<Vec<u8>>, AllocError>
        requires { Permits self.now name.now (ToList (location_of directory)) }
        ensures ok { IfOk result (λ names. map (λ name. name.items) names.items
            ≡ names_in (node_at nat_eq (world_of self.now) (location_of directory))) }
    {
        self.store.names(self.alloc, directory.node)
    }

    /// At most `size` bytes of an open file from an offset on: pread(2). Past the end there are none.
    #[inline(always)]
    pub fn read_part(&self, name: &TaskName, part: ToReadPart) -> Result<Vec<u8>, AllocError>
        requires { Permits self.now name.now (look_permit (ReadPart part)) }
        ensures ok { IfOk result (λ bytes. bytes.items ≡ take part.size
            (drop part.offset (bytes_in (node_at nat_eq (world_of self.now) (location_of part.file))))) }
    {
        match self.node(part.file) {
            Some(node) => copied_bytes(self.alloc, node.bytes_part(part.offset, part.size)),
            None => Ok(Vec::new(self.alloc)),
        }
    }
}

// What stat(2) tells of an inode, by its real object. A merged directory has no mark.
fn told(node: &Node, is_merged: bool) -> StatLine
    ensures { stat_line_of result ≡ told_by is_merged (Some node.now) }
{
    StatLine {
        kind: node.kind(),
        attr: node.attr(),
        size: node.bytes().len(),
        opaque: !is_merged && node.is_opaque(),
    }
}

// What the definitions tell of an inode that does not exist.
fn told_of_nothing() -> StatLine
    ensures { stat_line_of result ≡ stat_line {N = ℕ} None }
{
    StatLine {
        kind: Kind::White,
        attr: Attr {
            uid: 0,
            gid: 0,
            mode: Mode::new(0).unwrap(),
        },
        size: 0,
        opaque: false,
    }
}
