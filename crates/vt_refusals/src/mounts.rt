//! Causes of the rules on mounts.
use crate::refusal::Refusal;
use vt_causes::Cause;
use vt_causes::events::is_shared;
use vt_cred::Rights;
use vt_location::{Location, MountId};
use vt_looks::{Look, LookAtMounts};
use vt_request::CallKind;

/// The most mounts of a namespace.
const MOST_MOUNTS: usize = 4096;

static STANDS_ON_SHARED: &str =
    "mount {mount} stands on mount {other_mount}, which is shared in group {group}{since}";

impl<'a> Refusal<'a> {
    // Where a mount stands, if that is a shared mount.
    fn shared_parent(&self, mount: MountId) -> Option<Location> {
        let point = self.world.mount(mount)?.mount_point?;
        if is_shared(&self.world.mount(point.mount)?) {
            Some(point)
        } else {
            None
        }
    }

    // A mount that stands on a shared one.
    fn stands_on_shared(&self, at: Location) -> Option<Cause<'a>> {
        let parent = self.shared_parent(at.mount)?;
        Some(self.told_of(STANDS_ON_SHARED, at).beside(parent))
    }

    // A mount to which a path leads, in another namespace or in none.
    fn led_elsewhere(&self, at: Location, path: &'a [u8]) -> Option<Cause<'a>> {
        let words = match self.world.mount(at.mount)?.namespace {
            Some(_) => "`{word}` leads to mount {mount}, which is in namespace {namespace}",
            None => "`{word}` leads to a mount that is detached{since}",
        };
        Some(Cause {
            word: path,
            ..self.told_of(words, at)
        })
    }

    /// M2: which mount is in another namespace, or in none.
    pub(crate) fn of_elsewhere(&self) -> Option<Cause<'a>> {
        let at = self.place()?;
        let [_, first, second] = self.texts();
        if self.walks.first_end() == Some(at) {
            return self.led_elsewhere(at, first?);
        }
        if self.walks.second_end() == Some(at) {
            return self.led_elsewhere(at, second?);
        }
        Some(self.told_of(
            "the root of {task} is on a mount that is detached{since}",
            at,
        ))
    }

    /// M4: the shared mount on which the mount stands that is to move.
    pub(crate) fn of_shared_parent(&self) -> Option<Cause<'a>> {
        self.stands_on_shared(self.walks.first_end()?)
    }

    /// M5: the unbindable mount, and the shared one.
    pub(crate) fn of_unbindable_tree(&self) -> Option<Cause<'a>> {
        let words =
            "mount {mount} is unbindable, and mount {other_mount} is shared in group {group}{since}";
        let place = self.walks.second_end()?;
        let top = self.walks.first_end()?.mount;
        let tree = self.world.all_mounts().tree(top).ok()?;
        for id in &tree {
            if self.world.all_mounts().is_unbindable(*id) {
                let mount = self.world.mount(*id)?;
                return Some(self.told_of(words, mount.root_location()).beside(place));
            }
        }
        None
    }

    /// M6: the mount of the destination.
    pub(crate) fn of_own_tree(&self) -> Option<Cause<'a>> {
        let words = "{other} is in the tree of mount {mount}, which is to move";
        let source = self.walks.first_end()?;
        Some(self.told_of(words, source).beside(self.walks.second_end()?))
    }

    /// M7: the root of the mount.
    pub(crate) fn of_no_root(&self) -> Option<Cause<'a>> {
        let at = self.place()?;
        let root = self.world.mount(at.mount)?.root_location();
        let words = "{at} is not the root of mount {mount}, which is {other}";
        Some(self.told_of(words, at).beside(root))
    }

    /// M8: the mount that is in use.
    pub(crate) fn of_busy_mount(&self) -> Option<Cause<'a>> {
        if self.call.kind() == CallKind::Remount {
            let words = "a file is open for writing through mount {mount}{since}";
            return self.of_place(words);
        }
        Some(Cause {
            wanted: Rights::READ,
            ..self.of_place("mount {mount} is in use{since}")?
        })
    }

    /// M9: how many mounts the fullest namespace has.
    pub(crate) fn of_full_namespace(&self) -> Option<Cause<'a>> {
        let mut count = 0;
        let mut first = None;
        for namespace in self.world.namespaces() {
            let attached = self.world.all_mounts().attached_in(*namespace);
            if attached.len() > count {
                count = attached.len();
                first = attached.first().copied();
            }
        }
        let mount = self.world.mount(first?)?;
        let words = "namespace {namespace} has {count} mounts, and {limit} are the most";
        let cause = self.told_of(words, mount.root_location());
        Some(cause.counted(count, MOST_MOUNTS))
    }

    /// M11: which of the two places is on the root mount.
    pub(crate) fn of_root_mount(&self) -> Option<Cause<'a>> {
        let words = "{at} is on mount {mount}, the root mount of {task}";
        let new = self.walks.first_end()?;
        if new.mount == self.who.root.mount {
            return Some(self.told_of(words, new));
        }
        Some(self.told_of(words, self.walks.second_end()?))
    }

    // M12: a mount that is shared.
    fn of_shared_pivot(&self, new: Location, put: Location) -> Option<Cause<'a>> {
        if let Some(cause) = self.stands_on_shared(new) {
            return Some(cause);
        }
        if let Some(cause) = self.stands_on_shared(self.who.root) {
            return Some(cause);
        }
        if is_shared(&self.world.mount(put.mount)?) {
            let words =
                "{other} is on mount {other_mount}, which is shared in group {group}{since}";
            return Some(self.told_of(words, put).beside(put));
        }
        None
    }

    /// M12: which mount is shared, or which place is not under the other.
    pub(crate) fn of_pivot(&self) -> Option<Cause<'a>> {
        let (new, put) = (self.walks.first_end()?, self.walks.second_end()?);
        let root = self.who.root.mount;
        if !self.world.is_at_or_below(root, new.mount) {
            let words = "{at} is not on a mount below the root mount of {task}";
            return Some(self.told_of(words, new));
        }
        match self.of_shared_pivot(new, put) {
            Some(cause) => Some(cause),
            None => Some(self.told_of("{other} is not under {at}", new).beside(put)),
        }
    }
}
