//! Where mounts and objects are, as paths from the root mount of their namespace.
use crate::names::{push_filesystem, push_mount, push_name};
use crate::tree_walk::push_path_to;
use indexmap::IndexSet;
use std::alloc::AllocError;
use vt_check::draft::Draft;
use vt_location::{FilesystemId, Location, Mount, MountId, NamespaceId};
use vt_ns::World;
use vt_request::{MountPlace, Spot};

// What is told of an object that has no name.
const NO_NAME: &str = "(no name)";

/// The number of a namespace, by its creation among those that did not end, from 1.
pub fn namespace_number(world: &World, id: NamespaceId) -> usize {
    let mut number: usize = 1;
    for other in world.namespaces() {
        if *other == id {
            break;
        }
        number = number.saturating_add(1);
    }
    number
}

/// The place of a mount, if it is attached.
pub fn place_of(world: &World, id: MountId) -> Option<MountPlace> {
    let namespace = world.all_mounts().get(id)?.namespace?;
    let listed = world.all_mounts().attached_in(namespace);
    match listed.binary_search_by_key(&id.count, |other| other.count) {
        Ok(index) => Some(MountPlace {
            namespace: namespace_number(world, namespace),
            place: index.saturating_add(1),
        }),
        Err(_) => None,
    }
}

// Appends the path from a mount's root to a directory that it shows, nothing for the root, and says whether there is
// one.
fn push_spot(text: &mut Draft, spot: Result<Spot, AllocError>) -> bool {
    match spot {
        Ok(Spot::Gone) => false,
        Ok(Spot::Reached(names)) => {
            for name in &names {
                text.push_char('/');
                push_name(text, name);
            }
            true
        }
        Err(_) => {
            text.fail();
            false
        }
    }
}

/// Where in its filesystem the tree begins that a mount shows: no names for its root, nothing where it is reached no
/// longer.
pub fn root_of(world: &World, mount: &Mount) -> Result<Option<String>, AllocError> {
    let mut path = Draft::new(world.alloc());
    let is_reached = push_spot(&mut path, world.root_spot_of(mount));
    let path = path.end()?;
    Ok(if is_reached { Some(path) } else { None })
}

// Appends the path to a mount's root, nothing for that of the root mount, and says whether it is still reached.
fn push_steps_to(world: &World, mount: &Mount, path: &mut Draft) -> bool {
    // Where it stands on its parent, then the same of each above it, up to the root mount of the namespace.
    let mut points = Vec::new(world.alloc());
    let mut next = mount.mount_point;
    for _ in 0..world.all_mounts().len() {
        let Some(point) = next else {
            break;
        };
        if points.push(point).is_err() {
            path.fail();
        }
        next = match world.all_mounts().get(point.mount) {
            Some(parent) => parent.mount_point,
            None => None,
        };
    }
    let mut is_reached = true;
    for point in points.iter().rev() {
        is_reached = is_reached && push_spot(path, world.spot_of(*point));
    }
    is_reached
}

/// The path to the root of a mount, or nothing where it is reached no longer.
pub fn target_of(world: &World, mount: &Mount) -> Result<Option<String>, AllocError> {
    let mut path = Draft::new(world.alloc());
    let is_reached = push_steps_to(world, mount, &mut path);
    path.push_if_empty("/");
    let path = path.end()?;
    Ok(if is_reached { Some(path) } else { None })
}

/// Appends the path at which a root, a working directory or an open file is seen, and returns the mount through which;
/// nothing where it is reached no longer: its mount was detached, or it has lost its name.
pub fn push_path(world: &World, at: Location, path: &mut Draft) -> Option<MountPlace> {
    let place = place_of(world, at.mount)?;
    let mount = world.all_mounts().get(at.mount)?;
    if !push_steps_to(world, &mount, path) {
        return None;
    }
    let is_directory = match world.store().object(at.node) {
        Some(node) => node.is_directory(),
        None => false,
    };
    let is_reached = if is_directory {
        push_spot(path, world.spot_of(at))
    } else {
        push_path_to(world, mount.root, at.node, path)
    };
    path.push_if_empty("/");
    if is_reached { Some(place) } else { None }
}

// Adds the filesystems of a namespace's mounts, and says whether an allocation failed.
fn add_filesystems(
    world: &World,
    namespace: NamespaceId,
    filesystems: &mut IndexSet<FilesystemId>,
) -> bool {
    let mut failed = false;
    for id in world.all_mounts().attached_in(namespace) {
        if let Some(mount) = world.all_mounts().get(*id) {
            failed |= filesystems.insert(mount.root.filesystem).is_err();
        }
    }
    failed
}

// The number of a filesystem that an attached mount shows: where it first stands among all mounts, from 1.
fn filesystem_number(world: &World, id: FilesystemId) -> Result<Option<usize>, AllocError> {
    let mut filesystems = IndexSet::new(world.alloc());
    let mut failed = false;
    for namespace in world.namespaces() {
        failed |= add_filesystems(world, *namespace, &mut filesystems);
    }
    if failed {
        return Err(AllocError);
    }
    match filesystems.get_index_of(&id) {
        Some(index) => Ok(Some(index.saturating_add(1))),
        None => Ok(None),
    }
}

/// What is known of an object that no path leads to.
#[derive(Drop)]
pub struct Gone {
    /// The path that leads to it in its filesystem, if it has a name.
    pub path: Option<String>,
    pub is_overlay: bool,
    /// The number of its filesystem, if an attached mount shows that.
    pub filesystem: Option<usize>,
    /// The mount through which it is seen, if that is attached.
    pub mount: Option<MountPlace>,
}

/// What is known of an object that no path leads to.
pub fn gone_at(world: &World, at: Location) -> Result<Gone, AllocError> {
    let id = at.node.filesystem;
    let mut path = Draft::new(world.alloc());
    let is_named = match world.store().root(id) {
        Some(root) => push_path_to(world, root, at.node, &mut path),
        None => false,
    };
    path.push_if_empty("/");
    let path = path.end()?;
    Ok(Gone {
        path: if is_named { Some(path) } else { None },
        is_overlay: world.store().is_overlay(id),
        filesystem: filesystem_number(world, id)?,
        mount: place_of(world, at.mount),
    })
}

// Appends an object that no path leads to: its path in its filesystem, that, and the mount.
fn push_gone(text: &mut Draft, gone: &Gone) {
    text.push(match &gone.path {
        Some(path) => path.as_str(),
        None => NO_NAME,
    });
    text.push(" on ");
    push_filesystem(text, gone.is_overlay, gone.filesystem);
    match gone.mount {
        Some(mount) => {
            text.push(", through ");
            push_mount(text, mount);
        }
        None => text.push(", on a detached mount"),
    }
}

/// Appends where an object is. Of one that no path leads to it tells the path in its filesystem, if it has a name
/// there, and whether the mount through which it is seen is detached.
pub fn push_place(world: &World, at: Location, text: &mut Draft) {
    let mut path = Draft::new(world.alloc());
    if let Some(mount) = push_path(world, at, &mut path) {
        text.push_draft(&path);
        text.push(" on ");
        push_mount(text, mount);
        return;
    }
    // That an allocation failed is told here too.
    text.push_part(&path, 0, 0);
    match gone_at(world, at) {
        Ok(gone) => push_gone(text, &gone),
        Err(_) => text.fail(),
    }
}
