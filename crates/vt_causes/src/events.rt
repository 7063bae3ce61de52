//! Who receives events of mounts: the kernel's document sharedsubtree.
use vt_location::{GroupId, Mount, Propagation};
use vt_ns::World;

/// Whether a mount is a member of a peer group.
pub fn is_shared(mount: &Mount) -> bool {
    matches!(mount.propagation, Propagation::Shared(_))
}

/// Whether a mount is a member or a slave of a peer group.
pub fn is_grouped(mount: &Mount) -> bool {
    matches!(
        mount.propagation,
        Propagation::Shared(_) | Propagation::Slave(_)
    )
}

/// Whether two mounts are members of one peer group.
pub fn are_peers(one: &Mount, other: &Mount) -> bool {
    is_shared(one) && one.propagation == other.propagation
}

// The group of which a mount receives the events, apart from its own.
fn master_of(world: &World, mount: &Mount) -> Option<GroupId> {
    match mount.propagation {
        Propagation::Shared(group) => world.sealing(&[]).groups.master_of(group),
        Propagation::Slave(master) => Some(master),
        Propagation::Private | Propagation::Unbindable => None,
    }
}

/// Whether a mount receives the events of another one: that is its peer, or a member of its master or of its group's
/// master.
pub fn receives(world: &World, one: &Mount, from: &Mount) -> bool {
    if are_peers(one, from) {
        return true;
    }
    match (master_of(world, one), from.propagation) {
        (Some(master), Propagation::Shared(group)) => master == group,
        _ => false,
    }
}
