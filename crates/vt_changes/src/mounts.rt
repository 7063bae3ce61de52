//! The mounts of each namespace as they were before a call.
ghost use Rattle.std.specs.Prelude.{◌≡◌, map, nat_eq, option_map, IfOk, ℕ};
ghost use Rattle.vt_spec.specs.Lists.{same_option, then_some};
ghost use Rattle.vt_spec.specs.Machine.Mounts.{same_location, source_of};
ghost use Rattle.vt_spec.specs.Machine.Policy.{same_flags, same_propagation};
ghost use Rattle.vt_cred.specs.MountFlags.{flags_of};
ghost use Rattle.vt_location.specs.Locations.{location_of};
ghost use Rattle.vt_location.specs.MountValue.{mount_of, propagation_of};
ghost use Rattle.vt_location.specs.Numbers.{group_number, namespace_number};
ghost use Rattle.vt_world.specs.Held.{IsHeld};
ghost use Rattle.vt_world.specs.WorldValue.{world_of};
ghost use Rattle.vt_changes.specs.SeenMounts.{mounts_kept, mounts_seen, same_all, same_seen, seen_in, seen_of};

use indexmap::IndexMap;
use std::alloc::{AllocError, Global};
use vt_cred::MountFlags;
use vt_location::{GroupId, Location, Mount, MountId, NamespaceId, Propagation};
use vt_ns::World;

/// What a change number tells of a mount.
#[derive(Clone, Copy, Debug)]
pub(crate) struct Seen {
    pub number: MountId,
    pub point: Option<Location>,
    pub flags: MountFlags,
    pub kind: Propagation,
    /// The master of its group, or of the group whose slave it is.
    pub master: Option<GroupId>,
}

/// The mounts of the namespaces of a world.
pub(crate) fn mounts_of(
    alloc: Global,
    world: &World,
) -> Result<IndexMap<NamespaceId, Vec<Seen>>, AllocError>
    requires { IsHeld world.now }
    ensures ok { IfOk result (λ kept. (number : ℕ)
        → mounts_kept kept.entries number ≡ mounts_seen (world_of world.now) number) }
{
    let mut kept = IndexMap::new(alloc);
    let namespaces = world.namespaces();
    for namespace in namespaces {
        let mounts = mounts_in(alloc, world, *namespace)?;
        kept.insert(*namespace, mounts)?;
    }
    Ok(kept)
}

// The mounts of a namespace, in order of attachment.
fn mounts_in(alloc: Global, world: &World, namespace: NamespaceId) -> Result<Vec<Seen>, AllocError>
    ensures ok { IfOk result (λ mounts. map seen_of mounts.items
        ≡ mounts_seen (world_of world.now) (namespace_number namespace)) }
{
    let all = world.all_mounts();
    let mut mounts = Vec::new(alloc);
    let ids = all.attached_in(namespace);
    for id in ids {
        let Some(mount) = all.get(*id) else {
            continue;
        };
        mounts.push(summary_of(world, &mount))?;
    }
    Ok(mounts)
}

/// Whether a namespace has the mounts that it had.
pub(crate) fn has_same_mounts(
    world: &World,
    before: &IndexMap<NamespaceId, Vec<Seen>>,
    namespace: NamespaceId,
) -> bool
    ensures { result ≡ same_all (mounts_kept before.now.entries (namespace_number namespace))
        (mounts_seen (world_of world.now) (namespace_number namespace)) }
{
    match before.get(&namespace) {
        Some(mounts) => are_same(world, mounts.as_slice(), namespace),
        None => are_same(world, &[], namespace),
    }
}

// Whether a namespace has these mounts.
fn are_same(world: &World, before: &[Seen], namespace: NamespaceId) -> bool
    ensures { result ≡ same_all (map seen_of before.now)
        (mounts_seen (world_of world.now) (namespace_number namespace)) }
{
    let all = world.all_mounts();
    let mut was = before;
    let ids = all.attached_in(namespace);
    for id in ids {
        let Some(mount) = all.get(*id) else {
            continue;
        };
        let [one, others @ ..] = was else {
            return false;
        };
        if !is_same(*one, summary_of(world, &mount)) {
            return false;
        }
        was = others;
    }
    was.is_empty()
}

// What a change number tells of a mount in a world.
fn summary_of(world: &World, mount: &Mount) -> Seen
    ensures { seen_of result ≡ seen_in (world_of world.now) (mount_of mount.now) }
{
    Seen {
        number: mount.number,
        point: mount.mount_point,
        flags: mount.flags,
        kind: mount.propagation,
        master: master_above(world, mount.propagation),
    }
}

// The master of a group that is named by a type.
fn master_above(world: &World, kind: Propagation) -> Option<GroupId>
    ensures { option_map group_number result
        ≡ then_some (source_of (propagation_of kind)) (world_of world.now).master }
{
    match kind {
        Propagation::Shared(group) => world.groups().master_of(group),
        Propagation::Slave(group) => world.groups().master_of(group),
        Propagation::Private | Propagation::Unbindable => None,
    }
}

// Whether a change number tells the same of two mounts.
fn is_same(a: Seen, b: Seen) -> bool
    ensures { result ≡ same_seen (seen_of a) (seen_of b) }
{
    a.number.count == b.number.count
        && is_same_point(a.point, b.point)
        && has_same_flags(a.flags, b.flags)
        && is_same_kind(a.kind, b.kind)
        && is_same_group(a.master, b.master)
}

fn is_same_point(a: Option<Location>, b: Option<Location>) -> bool
    ensures { result ≡ same_option (same_location nat_eq) (option_map location_of a) (option_map location_of b) }
{
    match (a, b) {
        (Some(a), Some(b)) => a.is_same(b),
        (None, None) => true,
        _ => false,
    }
}

fn has_same_flags(a: MountFlags, b: MountFlags) -> bool
    ensures { result ≡ same_flags (flags_of a) (flags_of b) }
{
    a.is_read_only() == b.is_read_only()
        && a.is_noexec() == b.is_noexec()
        && a.is_nosymfollow() == b.is_nosymfollow()
}

fn is_same_kind(a: Propagation, b: Propagation) -> bool
    ensures { result ≡ same_propagation nat_eq (propagation_of a) (propagation_of b) }
{
    match (a, b) {
        (Propagation::Shared(a), Propagation::Shared(b)) => a.count == b.count,
        (Propagation::Slave(a), Propagation::Slave(b)) => a.count == b.count,
        (Propagation::Private, Propagation::Private) => true,
        (Propagation::Unbindable, Propagation::Unbindable) => true,
        _ => false,
    }
}

fn is_same_group(a: Option<GroupId>, b: Option<GroupId>) -> bool
    ensures { result ≡ same_option nat_eq (option_map group_number a) (option_map group_number b) }
{
    match (a, b) {
        (Some(a), Some(b)) => a.count == b.count,
        (None, None) => true,
        _ => false,
    }
}
