//! Why tasks are not sealed off from all others: the first condition that fails, and by whom.
use std::alloc::AllocError;
use vt_causes::events::{are_peers, is_grouped, receives};
use vt_causes::{About, Cause, Held, Use, no_task, uses_in};
use vt_location::{FilesystemId, Location, Mount, NamespaceId, NodeRef};
use vt_looks::Look;
use vt_ns::World;
use vt_request::TaskName;
use vt_tasks::Task;

static RECEIVES: &str =
    "mount {mount} receives from mount {other_mount}, which is shared in group {group}{since}";

// Words on a root, a working directory and an open file on a mount of theirs.
static ON_THEIRS: [&str; 3] = [
    "the root of {task} is on a mount of theirs{since}: {at}",
    "the working directory of {task} is on a mount of theirs{since}: {at}",
    "descriptor {descriptor} of {task} is on a mount of theirs{since}: {at}",
];

// Words on a mount of others, and on their root, working directory and open file.
struct Footholds {
    mount: &'static str,
    held: [&'static str; 3],
}

// In a filesystem that they use.
static INSIDE: Footholds = Footholds {
    mount: "mount {other_mount} shows {filesystem}{since}, which they use at {at}",
    held: [
        "the root of {task} is in {filesystem}{since}, which they use at {at}: {other}",
        "the working directory of {task} is in {filesystem}{since}, which they use at {at}: {other}",
        "descriptor {descriptor} of {task} is in {filesystem}{since}, which they use at {at}: {other}",
    ],
};

// In an overlay with a layer in such a filesystem.
static ABOVE: Footholds = Footholds {
    mount: "mount {other_mount} shows {overlay}{since}, over {filesystem}, which they use at {at}",
    held: [
        "the root of {task} is in {overlay}{since}, over {filesystem}, which they use at {at}: {other}",
        "the working directory of {task} is in {overlay}{since}, over {filesystem}, which they use at {at}: {other}",
        "descriptor {descriptor} of {task} is in {overlay}{since}, over {filesystem}, which they use at {at}: {other}",
    ],
};

// On an object without a name in a filesystem that is locked else.
static NAMELESS: Footholds = Footholds {
    mount: "{filesystem} is a layer of theirs, but the root of mount {other_mount} has no name in it",
    held: [
        "{filesystem} is a layer of theirs, but the root of {task} has no name in it",
        "{filesystem} is a layer of theirs, but the working directory of {task} has no name in it",
        "{filesystem} is a layer of theirs, but the file of descriptor {descriptor} of {task} has no name in it",
    ],
};

// Words on what a task has, among those on its root, its working directory and its open files.
fn words_of(held: Held, words: &[&'static str]) -> &'static str {
    let index = match held {
        Held::Root => 0,
        Held::Directory => 1,
        Held::File(..) => 2,
    };
    words.get(index).copied().unwrap_or_default()
}

// Words on what a task has.
fn told_of_use<'a>(one: &Use<'a>, words: &[&'static str]) -> Cause<'a> {
    let cause = Cause::new(
        About::Held(one.held),
        words_of(one.held, words),
        &one.task.name,
    );
    let number = match one.held {
        Held::File(number, _) => u64::from(number),
        Held::Root | Held::Directory => 0,
    };
    Cause {
        count: number,
        ..cause.beside(one.at)
    }
}

// The tasks of some names, the members, and what all tasks have. The other tasks are outsiders.
#[derive(Clone, Copy)]
struct Members<'a, 'u> {
    world: &'a World,
    names: &'a [TaskName],
    first: &'a TaskName,
    uses: &'u [Use<'a>],
}

impl<'a> Members<'a, '_> {
    // Whether a task is one of them.
    fn has(&self, task: &Task) -> bool {
        self.names.contains(&task.name)
    }

    // Whether a namespace is one of theirs.
    fn is_theirs(&self, namespace: Option<NamespaceId>) -> bool {
        let Some(namespace) = namespace else {
            return false;
        };
        for task in self.world.tasks().kept() {
            if task.namespace == namespace && self.has(task) {
                return true;
            }
        }
        false
    }

    // Whether a mount is in another namespace.
    fn is_elsewhere(&self, mount: &Mount) -> bool {
        mount.namespace.is_some() && !self.is_theirs(mount.namespace)
    }

    // Words on a mount.
    fn told_of_mount(&self, about: About, words: &'static str, mount: &Mount) -> Cause<'a> {
        Cause::new(about, words, self.first).beside(mount.root_location())
    }

    // An outsider in a namespace of theirs.
    fn of_namespaces(&self) -> Option<Cause<'a>> {
        for task in self.world.tasks().kept() {
            if !self.has(task) && self.is_theirs(Some(task.namespace)) {
                let words = "{task} is in namespace {namespace}{since}, and is not named";
                let mounts = self.world.all_mounts().attached_in(task.namespace);
                let mount = self.world.mount(*mounts.first()?)?;
                let cause = Cause::new(About::Namespace, words, &task.name);
                return Some(cause.found_at(mount.root_location()));
            }
        }
        None
    }

    // That one of two mounts receives the events of the other.
    fn of_two(&self, own: &Mount, other: &Mount) -> Option<Cause<'a>> {
        let (receiver, sender) = if receives(self.world, own, other) {
            (own, other)
        } else if receives(self.world, other, own) {
            (other, own)
        } else {
            return None;
        };
        let words = if are_peers(own, other) {
            "mounts {mount} and {other_mount} are peers in group {group}{since}"
        } else {
            RECEIVES
        };
        let cause = self.told_of_mount(About::Events, words, sender);
        Some(cause.found_at(receiver.root_location()))
    }

    // A mount of another namespace that shares events with this one.
    fn of_events_of(&self, own: &Mount) -> Option<Cause<'a>> {
        for id in self.world.all_mounts().ids() {
            let other = self.world.mount(*id)?;
            if self.is_elsewhere(&other) {
                if let Some(cause) = self.of_two(own, &other) {
                    return Some(cause);
                }
            }
        }
        None
    }

    // A mount of theirs that shares events with one of another namespace.
    fn of_events(&self) -> Option<Cause<'a>> {
        for id in self.world.all_mounts().ids() {
            let own = self.world.mount(*id)?;
            if is_grouped(&own) && self.is_theirs(own.namespace) {
                if let Some(cause) = self.of_events_of(&own) {
                    return Some(cause);
                }
            }
        }
        None
    }

    // What an outsider has on a mount of theirs.
    fn of_places(&self) -> Option<Cause<'a>> {
        for one in self.uses {
            if !self.has(one.task) && self.is_theirs(self.world.mount(one.at.mount)?.namespace) {
                return Some(told_of_use(one, &ON_THEIRS).found_at(one.at));
            }
        }
        None
    }

    // A mount of another namespace that shows a filesystem, or what an outsider has there.
    fn of_foothold_in(&self, id: FilesystemId, words: &'static Footholds) -> Option<Cause<'a>> {
        for mount in self.world.all_mounts().ids() {
            let mount = self.world.mount(*mount)?;
            if mount.root.filesystem == id && self.is_elsewhere(&mount) {
                return Some(self.told_of_mount(About::Mount, words.mount, &mount));
            }
        }
        for one in self.uses {
            if one.at.node.filesystem == id && !self.has(one.task) {
                return Some(told_of_use(one, &words.held));
            }
        }
        None
    }

    // Whether an overlay has a layer in a filesystem: at this directory, if one is given.
    fn has_layer(&self, overlay: FilesystemId, id: FilesystemId, at: Option<NodeRef>) -> bool {
        let Some(overlay) = self.world.store().overlay(overlay) else {
            return false;
        };
        for layer in overlay.layers() {
            let directory = layer.directory.node_ref();
            if directory.filesystem == id && (at.is_none() || at == Some(directory)) {
                return true;
            }
        }
        false
    }

    // What others have in a filesystem, or in an overlay with a layer in it.
    fn of_foothold(&self, id: FilesystemId) -> Option<Cause<'a>> {
        if let Some(cause) = self.of_foothold_in(id, &INSIDE) {
            return Some(cause);
        }
        for overlay in self.world.store().overlays() {
            if self.has_layer(*overlay, id, None) {
                if let Some(cause) = self.of_foothold_in(*overlay, &ABOVE) {
                    return Some(cause);
                }
            }
        }
        None
    }

    // Whether the root of a filesystem is a layer of an overlay that they use alone.
    fn is_locked(&self, id: FilesystemId) -> bool {
        let root = self.world.store().plain().root(id);
        for overlay in self.world.store().overlays() {
            let is_layer = root.is_some() && self.has_layer(*overlay, id, root);
            if is_layer && self.of_foothold_in(*overlay, &INSIDE).is_none() {
                return true;
            }
        }
        false
    }

    // Whether an object of a plain filesystem has no name.
    fn is_nameless(&self, at: Location) -> Option<bool> {
        let plain = self.world.store().plain();
        let inode = at.node.plain()?;
        let is_root = plain.root(inode.filesystem) == Some(at.node);
        let directories = plain.get(inode.filesystem)?.directories_of(inode.node());
        Some(!is_root && directories.is_empty())
    }

    // Who has an object without a name in a filesystem.
    fn of_nameless(&self, id: FilesystemId) -> Option<Cause<'a>> {
        for one in self.uses {
            if one.at.node.filesystem == id && self.is_nameless(one.at)? {
                return Some(told_of_use(one, &NAMELESS.held));
            }
        }
        for mount in self.world.all_mounts().ids() {
            let mount = self.world.mount(*mount)?;
            if mount.root.filesystem == id && self.is_nameless(mount.root_location())? {
                return Some(self.told_of_mount(About::Mount, NAMELESS.mount, &mount));
            }
        }
        None
    }

    // That others can change the filesystem of a place that they use.
    fn of_filesystem_at(&self, at: Location) -> Option<Cause<'a>> {
        let id = at.node.filesystem;
        let cause = self.of_foothold(id)?;
        if !self.is_locked(id) {
            return Some(cause.found_at(at));
        }
        if self.world.store().all_named(id) {
            return None;
        }
        Some(self.of_nameless(id).unwrap_or(cause).found_at(at))
    }

    // A filesystem that they use and others can change.
    fn of_filesystems(&self) -> Option<Cause<'a>> {
        for id in self.world.all_mounts().ids() {
            let own = self.world.mount(*id)?;
            if self.is_theirs(own.namespace) {
                if let Some(cause) = self.of_filesystem_at(own.root_location()) {
                    return Some(cause);
                }
            }
        }
        for one in self.uses {
            if self.has(one.task) {
                if let Some(cause) = self.of_filesystem_at(one.at) {
                    return Some(cause);
                }
            }
        }
        None
    }

    // The first condition that fails.
    fn cause(&self) -> Option<Cause<'a>> {
        if let Some(cause) = self.of_namespaces() {
            return Some(cause);
        }
        if let Some(cause) = self.of_events() {
            return Some(cause);
        }
        match self.of_places() {
            Some(cause) => Some(cause),
            None => self.of_filesystems(),
        }
    }
}

/// Why the tasks of these names are not sealed off from all others; nothing where they are. S2: the name that is no
/// task's.
pub fn why_unsealed<'a>(
    world: &'a World,
    names: &'a [TaskName],
) -> Result<Option<Cause<'a>>, AllocError> {
    for name in names {
        if world.task(name).is_none() {
            return Ok(Some(no_task(name)));
        }
    }
    let Some(first) = names.first() else {
        return Ok(None);
    };
    let uses = uses_in(world)?;
    let members = Members {
        world,
        names,
        first,
        uses: &uses,
    };
    Ok(members.cause())
}
