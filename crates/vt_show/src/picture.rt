//! The mounts of a world as they are shown, with one number for each mount, peer group and filesystem.
use crate::names::GONE;
use crate::places::{place_of, root_of, target_of};
use indexmap::IndexSet;
use std::alloc::{AllocError, Global};
use vt_location::{FilesystemId, Mount, MountId, Propagation};
use vt_ns::World;
use vt_request::{MountPlace, PeerLine, TypeLine};

/// An attached mount.
#[derive(Drop)]
pub struct MountShown {
    pub mount: Mount,
    pub place: MountPlace,
    /// The mount that it stands on.
    pub parent: Option<MountPlace>,
    /// The path to its root in its namespace, or nothing where it is reached no longer.
    pub target: Option<String>,
    /// Its filesystem, by where that first stands among all mounts, from 1.
    pub filesystem: usize,
    pub is_overlay: bool,
    /// Where in its filesystem the tree begins that it shows, or nothing where that is reached no longer.
    pub root: Option<String>,
    /// Its type, with groups by their numbers in the list of peer groups.
    pub kind: TypeLine,
}

impl MountShown {
    /// Its path as it is told.
    pub fn path(&self) -> &str {
        match &self.target {
            Some(path) => path.as_str(),
            None => GONE,
        }
    }
}

/// The mounts of a world. It outlives the world.
#[derive(Drop)]
pub struct Picture {
    /// The mounts of one namespace after those of another, each time in the order of their attachment.
    pub mounts: Vec<MountShown>,
    pub groups: Vec<PeerLine>,
    /// The filesystems of attached mounts, in the order of their numbers.
    pub filesystems: IndexSet<FilesystemId>,
    /// Whether an allocation failed, so that some are missing.
    pub failed: bool,
    // Where the mounts of each namespace begin.
    starts: Vec<usize>,
}

impl Picture {
    /// A picture without mounts.
    pub fn new(alloc: Global) -> Self {
        Picture {
            mounts: Vec::new(alloc),
            groups: Vec::new(alloc),
            filesystems: IndexSet::new(alloc),
            failed: false,
            starts: Vec::new(alloc),
        }
    }

    /// Adds the mounts of all namespaces of a world, in the order in which those were made, and the peer groups.
    pub fn fill(&mut self, world: &World) {
        let mut namespace: usize = 0;
        for id in world.namespaces() {
            namespace = namespace.saturating_add(1);
            self.failed |= self.starts.push(self.mounts.len()).is_err();
            let mut place: usize = 0;
            for mount in world.all_mounts().attached_in(*id) {
                place = place.saturating_add(1);
                self.add_mount(world, *mount, MountPlace { namespace, place });
            }
        }
        match world.peers() {
            Ok(groups) => self.groups = groups,
            Err(_) => self.failed = true,
        }
        self.add_types();
    }

    /// Nothing is left of it.
    pub fn end(self) {}

    // Adds the mount at a place, without its peer group.
    fn add_mount(&mut self, world: &World, id: MountId, place: MountPlace) {
        let Some(mount) = world.all_mounts().get(id) else {
            return;
        };
        let id = mount.root.filesystem;
        self.failed |= self.filesystems.insert(id).is_err();
        let index = self.filesystems.get_index_of(&id).unwrap_or_default();
        let shown = MountShown {
            mount,
            place,
            parent: match mount.mount_point {
                Some(point) => place_of(world, point.mount),
                None => None,
            },
            target: self.path_of(target_of(world, &mount)),
            filesystem: index.saturating_add(1),
            is_overlay: world.store().is_overlay(id),
            root: self.path_of(root_of(world, &mount)),
            kind: match mount.propagation {
                Propagation::Unbindable => TypeLine::Unbindable,
                _ => TypeLine::Private,
            },
        };
        self.failed |= self.mounts.push(shown).is_err();
    }

    // A path, or nothing where an allocation failed, which is noted.
    fn path_of(&mut self, path: Result<Option<String>, AllocError>) -> Option<String> {
        match path {
            Ok(path) => path,
            Err(_) => {
                self.failed = true;
                None
            }
        }
    }

    // Adds to each mount its peer group.
    fn add_types(&mut self) {
        for line in &self.groups {
            let kind = TypeLine::Shared {
                group: line.group,
                master: line.master,
            };
            set_types(&mut self.mounts, &self.starts, &line.members, kind);
            let kind = TypeLine::Slave { master: line.group };
            set_types(&mut self.mounts, &self.starts, &line.slaves, kind);
        }
    }

    /// Keeps the mounts of a namespace alone, and the peer groups that have one of them.
    pub fn keep(&mut self, namespace: usize) {
        self.mounts
            .retain(|shown| shown.place.namespace == namespace);
        self.groups.retain(|line| {
            has_one_in(&line.members, namespace) || has_one_in(&line.slaves, namespace)
        });
    }

    /// The first mount that shows a filesystem.
    pub fn mount_of(&self, id: FilesystemId) -> Option<&MountShown> {
        for shown in &self.mounts {
            if shown.mount.root.filesystem == id {
                return Some(shown);
            }
        }
        None
    }

    /// The number of a filesystem that a mount shows.
    pub fn number_of(&self, id: FilesystemId) -> Option<usize> {
        Some(self.mount_of(id)?.filesystem)
    }
}

/// The mounts of the first namespace of these, and the others.
pub fn split_first(mounts: &[MountShown]) -> (&[MountShown], &[MountShown]) {
    let mut namespace = 0;
    let mut count: usize = 0;
    for shown in mounts {
        if count > 0 && shown.place.namespace != namespace {
            break;
        }
        namespace = shown.place.namespace;
        count = count.saturating_add(1);
    }
    let first = mounts.get(..count).unwrap_or_default();
    (first, mounts.get(count..).unwrap_or_default())
}

// Sets the type of the mounts at these places.
fn set_types(mounts: &mut [MountShown], starts: &[usize], places: &[MountPlace], kind: TypeLine) {
    for at in places {
        if let Some(start) = starts.get(at.namespace.saturating_sub(1)) {
            let index = start.saturating_add(at.place.saturating_sub(1));
            if let Some(shown) = mounts.get_mut(index) {
                shown.kind = kind;
            }
        }
    }
}

// Whether one of these mounts is in a namespace.
fn has_one_in(places: &[MountPlace], namespace: usize) -> bool {
    for place in places {
        if place.namespace == namespace {
            return true;
        }
    }
    false
}
