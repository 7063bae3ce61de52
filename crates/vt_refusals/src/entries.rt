//! Causes of the rules on names and objects.
use crate::refusal::Refusal;
use vt_causes::Cause;
use vt_cred::{Caps, may_delete_sticky};
use vt_location::{Location, MountId};
use vt_looks::Look;
use vt_node::LARGEST_FILE;
use vt_request::{Call, CallKind, WriteCall};
use vt_rules::attr_at;

impl<'a> Refusal<'a> {
    /// E1, E2, E4, E5, P1 of a path whose last word names no entry: it is `.`, `..` or nothing but slashes.
    pub(crate) fn of_last_word(&self) -> Cause<'a> {
        self.told("the last word of a path is no name: it is `.`, `..` or `/`")
    }

    /// A rule that looks at one place.
    pub(crate) fn of_place(&self, words: &'static str) -> Option<Cause<'a>> {
        Some(self.told_of(words, self.place()?))
    }

    /// The same of a rule that refuses last words too.
    pub(crate) fn of_place_or_word(&self, words: &'static str) -> Option<Cause<'a>> {
        match self.place() {
            Some(at) => Some(self.told_of(words, at)),
            None => Some(self.of_last_word()),
        }
    }

    /// E5: `readlink` of no symlink, a directory moved below itself, or a last `.`.
    pub(crate) fn of_wrong_kind(&self) -> Option<Cause<'a>> {
        match self.call.kind() {
            CallKind::Readlink => self.of_place("{at} is {type}, and a symlink is needed"),
            CallKind::Rename => {
                let cause = self.told_of("{other} is at or under {at}", self.walks.first_end()?);
                Some(cause.beside(self.walks.second_directory()?))
            }
            _ => Some(self.of_last_word()),
        }
    }

    /// E6: how long the file would be.
    pub(crate) fn of_length(&self) -> Option<Cause<'a>> {
        let length = match self.call {
            Call::Write(WriteCall::Write { bytes, .. }) => bytes.len(),
            Call::Write(WriteCall::Pwrite { bytes, offset, .. }) => {
                bytes.len().saturating_add(*offset as usize)
            }
            _ => return None,
        };
        let words = "the file would have {count} bytes, and {limit} are the most";
        Some(self.told(words).counted(length, LARGEST_FILE))
    }

    // A mount on an object: of the caller's namespace, or else of any.
    fn mount_on(&self, at: Location, anywhere: bool) -> Option<MountId> {
        let mounts = self.world.all_mounts();
        let ids = mounts.mounts_on(at.node).ok()?;
        for id in &ids {
            if let Some(mount) = mounts.get(*id) {
                let is_there = match mount.namespace {
                    Some(namespace) => anywhere || namespace == self.who.namespace,
                    None => false,
                };
                if is_there {
                    return Some(*id);
                }
            }
        }
        None
    }

    // An object that a mount stands on, which keeps its name, with the root of that mount.
    fn mounted(&self, at: Option<Location>, anywhere: bool) -> Option<Cause<'a>> {
        let at = at?;
        let mount = self.world.mount(self.mount_on(at, anywhere)?)?;
        let cause = self.told_of("mount {other_mount} stands on {at}{since}", at);
        Some(cause.beside(mount.root_location()))
    }

    /// P1: the mount that stands on a name, or the last word.
    pub(crate) fn of_mount_point(&self) -> Option<Cause<'a>> {
        let is_rename = self.call.kind() == CallKind::Rename;
        let first = self.mounted(self.walks.first_end(), is_rename);
        let second = self.mounted(self.walks.second_end(), false);
        Some(first.or(second).unwrap_or(self.of_last_word()))
    }

    /// P2: both places.
    pub(crate) fn of_two_mounts(&self) -> Option<Cause<'a>> {
        let from = match self.call.kind() {
            CallKind::Link => self.walks.first_end()?,
            _ => self.walks.first_directory()?,
        };
        let words = "{at} and {other} are on two mounts";
        Some(
            self.told_of(words, from)
                .beside(self.walks.second_directory()?),
        )
    }

    /// C2: whose the object is.
    pub(crate) fn of_owner(&self) -> Option<Cause<'a>> {
        let words = "{at} belongs to uid {owner}, and {task} has uid {uid} without {capability}";
        let capability = match self.call.kind() {
            CallKind::Chown => Caps::CAP_CHOWN,
            _ => Caps::CAP_FOWNER,
        };
        Some(Cause {
            capability,
            ..self.told_of(words, self.walks.first_end()?)
        })
    }

    // Whether the sticky bit of a directory keeps an object from the caller.
    fn is_kept(&self, directory: Option<Location>, object: Option<Location>) -> bool {
        let (Some(directory), Some(object)) = (directory, object) else {
            return false;
        };
        let (over, of) = (attr_at(self.world, directory), attr_at(self.world, object));
        !may_delete_sticky(&self.who.cred, &over, &of)
    }

    /// C3: the sticky directory, and whose the object is.
    pub(crate) fn of_sticky(&self) -> Option<Cause<'a>> {
        let walks = &self.walks;
        let (directory, object) = if self.is_kept(walks.first_directory(), walks.first_end()) {
            (walks.first_directory()?, walks.first_end()?)
        } else {
            (walks.second_directory()?, walks.second_end()?)
        };
        let words =
            "{other} is sticky, {at} belongs to uid {owner}, and {task} has uid {uid} without CAP_FOWNER";
        Some(self.told_of(words, object).beside(directory))
    }
}
