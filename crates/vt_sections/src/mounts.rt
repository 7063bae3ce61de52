//! Mounts among those of all namespaces, and who receives from a peer group.
use vt_location::{MountId, NamespaceId};
use vt_request::TypeLine;
use vt_show::picture::{MountShown, Picture};

/// The mount of this number, if it is attached.
pub fn find(picture: &Picture, id: MountId) -> Option<&MountShown> {
    for shown in &picture.mounts {
        if shown.mount.number == id {
            return Some(shown);
        }
    }
    None
}

/// The mount that one stands on.
pub fn parent<'a>(picture: &'a Picture, shown: &MountShown) -> Option<&'a MountShown> {
    find(picture, shown.mount.mount_point?.mount)
}

/// Whether a namespace, which has a mount, is there.
pub fn has_namespace(picture: &Picture, namespace: Option<NamespaceId>) -> bool {
    for shown in &picture.mounts {
        if shown.mount.namespace == namespace {
            return true;
        }
    }
    false
}

/// Whether a mount of this type receives what happens in a peer group: it is a member, or a slave of it or of one that
/// receives.
pub fn receives(picture: &Picture, kind: TypeLine, group: usize) -> bool {
    let mut next = match kind {
        TypeLine::Shared { group, .. } => Some(group),
        TypeLine::Slave { master } => Some(master),
        TypeLine::Private | TypeLine::Unbindable => None,
    };
    for _ in &picture.groups {
        if next == Some(group) {
            return true;
        }
        // The groups are in the order of their numbers, which begin at 1.
        let index = next.unwrap_or_default().saturating_sub(1);
        next = match picture.groups.get(index) {
            Some(line) if next.is_some() => line.master,
            _ => None,
        };
    }
    false
}
