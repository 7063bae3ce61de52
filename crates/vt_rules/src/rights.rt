//! Who may do what to an object: path_resolution(7), unlink(2), mount(2).
ghost use Rattle.std.specs.Prelude.{◌≡◌, nat_eq, IfOk, IfErr};
ghost use Rattle.vt_spec.specs.declared.errors.Rule.TheVariants.{S5};
ghost use Rattle.vt_spec.specs.Errors.{denial};
ghost use Rattle.vt_spec.specs.Machine.Looks.{is_directory_at, may, mount_at};
ghost use Rattle.vt_spec.specs.Machine.Mounts.{is_shared, is_unbindable, same_location};
ghost use Rattle.vt_spec.specs.Machine.Rows.{exact_attr, new_attr};
ghost use Rattle.vt_spec.specs.Machine.Rules.Attributes.{attr_at};
ghost use Rattle.vt_spec.specs.Machine.Rules.Conditions.{is_elsewhere, is_kept, is_no_root, is_read_only, kind_at, lacks};
ghost use Rattle.vt_spec.specs.Machine.Rules.Removing.{same_filesystem};
ghost use Rattle.vt_spec.specs.Machine.Walking.{name_of};
ghost use Rattle.vt_cred.specs.Caps.{capability_bits};
ghost use Rattle.vt_cred.specs.Rights.{right_bits};
ghost use Rattle.vt_location.specs.Locations.{location_of, number_of};
ghost use Rattle.vt_location.specs.Numbers.{filesystem_number, mount_number};
ghost use Rattle.vt_tasks.specs.TaskValue.{task_of};
ghost use Rattle.vt_looks.specs.Places.{last_of};

use std::alloc::Global;
use vt_cred::{Caps, Mode, Rights, allows, masked, may_delete_sticky};
use vt_location::{FilesystemId, Location, MountId, NodeRef, Propagation};
use vt_looks::{LastWord, Look};
use vt_node::{Attr, Kind};
use vt_spec::errors::{Deny, Rule};
use vt_tasks::Task;

/// Whether the caller has these rights at a location, asked as one request. Nobody has any where there is no
/// inode.
#[inline(always)]
pub fn may<L: Look>(world: &L, who: &Task, at: Location, wanted: Rights) -> bool
    ensures { result
        ≡ may (L.looks world.now) (task_of who.now) (location_of at) (right_bits wanted) }
{
    match world.node(at) {
        Some(node) => allows(&who.cred, &node.attr(), node.kind(), wanted),
        None => false,
    }
}

/// Whether a directory is there.
#[inline(always)]
pub fn is_directory<L: Look>(world: &L, at: Location) -> bool
    ensures { result ≡ is_directory_at (L.looks world.now) (location_of at) }
{
    match world.node(at) {
        Some(node) => node.is_directory(),
        None => false,
    }
}

/// Whether an object of a kind is there.
#[inline(always)]
pub fn is_kind<L: Look>(world: &L, at: Location, kind: Kind) -> bool
    ensures { result ≡ kind_at (L.looks world.now) (location_of at) kind }
{
    match world.node(at) {
        Some(node) => node.kind() == kind,
        None => false,
    }
}

/// The owner, group and mode of an object; where no inode is all are 0.
#[inline(always)]
pub fn attr_at<L: Look>(world: &L, at: Location) -> Attr
    ensures { result ≡ attr_at (L.looks world.now) (location_of at) }
{
    match world.node(at) {
        Some(node) => node.attr(),
        None => Attr {
            uid: 0,
            gid: 0,
            mode: Mode::new(0).unwrap(),
        },
    }
}

/// Whether the sticky bit of a directory forbids the caller to remove an object.
pub fn is_kept<L: Look>(world: &L, who: &Task, directory: Location, object: Location) -> bool
    ensures { result
        ≡ is_kept (L.looks world.now) (task_of who.now) (location_of directory) (location_of object) }
{
    !may_delete_sticky(
        &who.cred,
        &attr_at(world, directory),
        &attr_at(world, object),
    )
}

/// Whether nothing may be changed through the mount of a location: `MS_RDONLY`.
#[inline(always)]
pub fn is_read_only<L: Look>(world: &L, at: Location) -> bool
    ensures { result ≡ is_read_only (L.looks world.now) (location_of at) }
{
    match world.mount(at.mount) {
        Some(mount) => mount.flags.is_read_only(),
        None => false,
    }
}

/// Whether no file may be executed through the mount of a location: `MS_NOEXEC`.
#[inline(always)]
pub fn is_noexec<L: Look>(world: &L, at: Location) -> bool
    ensures { result ≡ (mount_at (L.looks world.now) (location_of at)).flags.noexec }
{
    match world.mount(at.mount) {
        Some(mount) => mount.flags.is_noexec(),
        None => false,
    }
}

/// Whether the mount of a location is not in the caller's namespace.
#[inline(always)]
pub fn is_elsewhere<L: Look>(world: &L, who: &Task, at: Location) -> bool
    ensures { result ≡ is_elsewhere nat_eq (L.looks world.now) (task_of who.now) (location_of at) }
{
    match world.mount(at.mount) {
        Some(mount) => mount.namespace != Some(who.namespace),
        None => true,
    }
}

// The filesystem that a location is in.
#[inline(always)]
fn filesystem_at<L: Look>(world: &L, at: Location) -> FilesystemId
    ensures { filesystem_number result ≡ (mount_at (L.looks world.now) (location_of at)).filesystem }
{
    match world.mount(at.mount) {
        Some(mount) => mount.root.filesystem,
        // The definitions name none by the number of the mount that is missing.
        None => FilesystemId::new(at.mount.count),
    }
}

/// Whether two locations are in one filesystem.
pub fn is_same_filesystem<L: Look>(world: &L, one: Location, other: Location) -> bool
    ensures { result
        ≡ same_filesystem nat_eq (L.looks world.now) (location_of one) (location_of other) }
{
    filesystem_at(world, one) == filesystem_at(world, other)
}

/// Whether a location is not the root of its mount.
#[inline(always)]
pub fn is_no_root<L: Look>(world: &L, at: Location) -> bool
    ensures { result ≡ is_no_root nat_eq (L.looks world.now) (location_of at) }
{
    match world.mount(at.mount) {
        Some(mount) => !mount.root.is_same(at.node),
        None => true,
    }
}

/// Whether a mount is a member of a peer group.
pub fn is_shared<L: Look>(world: &L, id: MountId) -> bool
    ensures { result ≡ is_shared ((L.looks world.now).mount (mount_number id)).propagation }
{
    match world.mount(id) {
        Some(mount) => matches!(mount.propagation, Propagation::Shared(_)),
        None => false,
    }
}

/// Whether a mount is unbindable.
pub fn is_unbindable<L: Look>(world: &L, id: MountId) -> bool
    ensures { result ≡ is_unbindable ((L.looks world.now).mount (mount_number id)).propagation }
{
    match world.mount(id) {
        Some(mount) => matches!(mount.propagation, Propagation::Unbindable),
        None => false,
    }
}

/// Whether the caller lacks a capability.
pub fn lacks(who: &Task, wanted: Caps) -> bool
    ensures { result ≡ lacks (task_of who.now) (capability_bits wanted) }
{
    !who.cred.has(wanted)
}

/// The owner, group and mode of an object that the task makes with the mode asked for: umask(2).
pub fn new_attr(task: &Task, asked: Mode) -> Attr
    ensures { result ≡ new_attr (task_of task.now) asked }
{
    Attr {
        uid: task.cred.uid(),
        gid: task.cred.gid(),
        mode: masked(task.umask, asked),
    }
}

/// The owner, group and mode of a symlink that the task makes: symlink(7).
pub fn symlink_attr(task: &Task) -> Attr
    ensures { result ≡ exact_attr (task_of task.now) 511 }
{
    Attr {
        uid: task.cred.uid(),
        gid: task.cred.gid(),
        mode: Mode::new(0o777).unwrap(),
    }
}

/// The owner, group and mode of a whiteout that the task makes: the kernel's overlayfs makes it with no permission bit.
pub fn whiteout_attr(task: &Task) -> Attr
    ensures { result ≡ exact_attr (task_of task.now) 0 }
{
    Attr {
        uid: task.cred.uid(),
        gid: task.cred.gid(),
        mode: Mode::new(0).unwrap(),
    }
}

/// The name of a last word, in memory of its own. S5 (ENOMEM): an allocation failed.
pub fn name_at(alloc: Global, last: LastWord) -> Result<Vec<u8>, Deny>
    ensures ok { IfOk result (λ name. name.items ≡ name_of (last_of last.entry)) }
    ensures memory { IfErr result (λ deny. deny ≡ denial S5) }
{
    Vec::from_slice(alloc, last.name()).map_err(|_error| Rule::S5.denial())
}
