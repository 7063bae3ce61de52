//! The opening world: one namespace with one mount of one filesystem, and one task.
ghost use Rattle.std.specs.Prelude.{◌≡◌, ◌∷◌, [], nat_eq, IfOk, OnOk};
ghost use Rattle.vt_spec.specs.Machine.World.{opening};
ghost use Rattle.vt_fs.specs.FilesystemsValue.{shown};
ghost use Rattle.vt_location.specs.MountValue.{mount_of};
ghost use Rattle.vt_mounting.specs.Attach.Opening.{first_shown, opening_numbers};
ghost use Rattle.vt_world.specs.WorldValue.{entries_of, world_of};

use crate::mounting::root_attr;
use crate::world::World;
use indexmap::IndexMap;
use std::alloc::{AllocError, Global};
use vt_cred::MountFlags;
use vt_fs::Filesystems;
use vt_group::Groups;
use vt_location::{
    Birth, FilesystemId, Location, Mount, MountId, NamespaceId, NodeRef, Propagation,
};
use vt_mount::Mounts;
use vt_store::Store;
use vt_tasks::Tasks;
use vt_world::namespaces::Namespace;

impl World {
    /// The opening world: a namespace with a root mount of an empty filesystem, and the first task, which may do all.
    pub fn new(alloc: Global) -> Result<World, AllocError>
        ensures opening { IfOk result (λ world. world_of world ≡ opening nat_eq opening_numbers) }
        ensures counts { IfOk result (λ world. world.next ≡ 3) }
        ensures births { IfOk result (λ world. world.births ≡ 1) }
    {
        let number = MountId::new(0);
        let namespace = NamespaceId::new(1);
        let filesystem = FilesystemId::new(2);
        let root = NodeRef {
            filesystem,
            slot: 0,
            birth: Birth::Here,
        };
        let mount = Mount {
            number,
            namespace: Some(namespace),
            mount_point: None,
            root,
            flags: MountFlags::plain(),
            propagation: Propagation::Private,
        };
        let place = Location {
            mount: number,
            node: root,
        };
        let tasks = Tasks::new(alloc, namespace, place)?;
        // What was made is dropped by calls: the proof of a function that drops such values itself takes minutes.
        let Ok(namespaces) = first_namespaces(alloc, namespace) else {
            drop(tasks);
            return Err(AllocError);
        };
        let Ok(filesystems) = first_filesystems(alloc, filesystem) else {
            drop(tasks);
            drop(namespaces);
            return Err(AllocError);
        };
        let Ok(mounts) = first_mounts(alloc, mount) else {
            drop(tasks);
            drop(namespaces);
            drop(filesystems);
            return Err(AllocError);
        };
        Ok(World {
            mounts,
            store: Store::new(alloc, filesystems),
            namespaces,
            tasks,
            groups: Groups::new(alloc),
            next: 3,
            alloc,
        })
    }
}

// A mount alone, with the root and the working directory of one task on it.
fn first_mounts(alloc: Global, mount: Mount) -> Result<Mounts, AllocError>
    ensures ok { IfOk result (λ mounts. mounts ≡ record { mount = mount_of mount; uses = 2; writers = 0 } ∷ []) }
{
    let mut mounts = Mounts::new(alloc);
    if attach_first(&mut mounts, mount).is_err() {
        drop(mounts);
        return Err(AllocError);
    }
    Ok(mounts)
}

fn attach_first(mounts: &mut Mounts, mount: Mount) -> Result<(), AllocError>
    requires { mounts.old ≡ [] }
    ensures { OnOk result (mounts.new ≡ record { mount = mount_of mount; uses = 2; writers = 0 } ∷ []) }
{
    mounts.attach(&mount)?;
    mounts.hold(mount.number, false)?;
    mounts.hold(mount.number, false)
}

// A filesystem alone, whose root directory is the root of one mount, and the root and the working directory of one
// task.
fn first_filesystems(alloc: Global, filesystem: FilesystemId) -> Result<Filesystems, AllocError>
    ensures ok { IfOk result (λ filesystems. shown filesystems ≡ first_shown filesystem.count) }
{
    let mut filesystems = Filesystems::new(alloc);
    if add_first(&mut filesystems, filesystem).is_err() {
        drop(filesystems);
        return Err(AllocError);
    }
    Ok(filesystems)
}

fn add_first(filesystems: &mut Filesystems, filesystem: FilesystemId) -> Result<(), AllocError>
    requires { filesystems.old ≡ [] }
    ensures { OnOk result (shown filesystems.new ≡ first_shown filesystem.count) }
{
    filesystems.add(filesystem, root_attr())?;
    filesystems.hold_mount(filesystem)?;
    let root = NodeRef {
        filesystem,
        slot: 0,
        birth: Birth::Here,
    };
    filesystems.pin(root)?;
    filesystems.pin(root)?;
    filesystems.pin(root)
}

// A namespace alone, with one task.
fn first_namespaces(
    alloc: Global,
    namespace: NamespaceId,
) -> Result<IndexMap<NamespaceId, Namespace>, AllocError>
    ensures ok { IfOk result (λ namespaces. entries_of namespaces.entries
        ≡ record { count = namespace.count; tasks = 1 } ∷ []) }
{
    let mut namespaces = IndexMap::new(alloc);
    namespaces.insert(namespace, Namespace { tasks: 1 })?;
    Ok(namespaces)
}
