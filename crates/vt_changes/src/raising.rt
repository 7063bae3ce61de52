//! How change numbers that are kept follow a call.
ghost use Rattle.std.specs.Prelude.{◌≡◌, ◌<◌, ◌≤◌, ◌&&◌, if◌then◌else◌, length, nat_eq, not, option_map, option_to_list, ℕ};
ghost use Rattle.std.specs.List.{list_any};
ghost use Rattle.indexmap.specs.IndexMap.{spare};
ghost use Rattle.vt_spec.specs.Language.Calls.{TaskName as Name, same_name};
ghost use Rattle.vt_spec.specs.Machine.Filesystems.{raised};
ghost use Rattle.vt_location.specs.Numbers.{filesystem_number, namespace_number};
ghost use Rattle.vt_world.specs.Held.{IsHeld};
ghost use Rattle.vt_world.specs.WorldValue.{world_of};
ghost use Rattle.vt_changes.specs.Following.{has_filesystem, has_namespace, has_task, if_there, raised_if};
ghost use Rattle.vt_changes.specs.Kept.{is_filesystem, is_named, is_namespace, number_by};
ghost use Rattle.vt_changes.specs.SeenMounts.{mounts_kept, mounts_seen, same_all};

use crate::mounts::{Seen, has_same_mounts};
use crate::numbers::raise;
use indexmap::IndexMap;
use vt_location::{FilesystemId, NamespaceId};
use vt_ns::World;
use vt_request::TaskName;

/// Raises the number of the task of this name, for which there is room, or drops it where the task is gone.
pub(crate) fn follow_task(
    numbers: &mut IndexMap<Vec<u8>, u64>,
    world: &World,
    name: &TaskName,
    key: Vec<u8>,
)
    requires room { 0 < spare numbers.old }
    requires key { key.items ≡ name.now }
    ensures held { IsHeld world.now }
    ensures numbers { (other : Name) → number_by (is_named other) numbers.new.entries
        ≡ (if same_name name.now other
        then if_there (has_task (world_of world.now) name.now) (raised (number_by (is_named other) numbers.old.entries))
        else number_by (is_named other) numbers.old.entries) }
{
    if world.task(name).is_some() {
        raise(numbers, key);
    } else {
        let _gone = numbers.swap_remove(name.numbers());
    }
}

/// Raises the number of the filesystem that was changed, for which there is room, and drops those of what is gone.
pub(crate) fn follow_filesystems(
    numbers: &mut IndexMap<FilesystemId, u64>,
    world: &World,
    changed: Option<FilesystemId>,
)
    requires { 0 < spare numbers.old }
    ensures { (number : ℕ) → number_by (is_filesystem number) numbers.new.entries
        ≡ if_there (has_filesystem (world_of world.now) number)
        (raised_if (list_any (λ one. nat_eq one number) (option_to_list (option_map filesystem_number changed)))
        (number_by (is_filesystem number) numbers.old.entries)) }
{
    raise_changed_filesystem(numbers, changed);
    drop_gone_filesystems(numbers, world);
}

fn raise_changed_filesystem(
    numbers: &mut IndexMap<FilesystemId, u64>,
    changed: Option<FilesystemId>,
)
    requires { 0 < spare numbers.old }
    ensures { (number : ℕ) → number_by (is_filesystem number) numbers.new.entries
        ≡ raised_if (list_any (λ one. nat_eq one number) (option_to_list (option_map filesystem_number changed)))
        (number_by (is_filesystem number) numbers.old.entries) }
{
    if let Some(filesystem) = changed {
        raise(numbers, filesystem);
    }
}

fn drop_gone_filesystems(numbers: &mut IndexMap<FilesystemId, u64>, world: &World)
    ensures { (number : ℕ) → number_by (is_filesystem number) numbers.new.entries
        ≡ if_there (has_filesystem (world_of world.now) number) (number_by (is_filesystem number) numbers.old.entries) }
{
    numbers.retain(
        |filesystem: &FilesystemId, number: &mut u64| -> bool
            ensures { (result ≡ has_filesystem (world_of world.entry.now) (filesystem_number filesystem.now))
                × (number.new ≡ number.old) }
        { world.has_filesystem(*filesystem) },
    );
}

/// Raises the numbers of the namespaces whose mounts are not what they were, for which there is room, and drops those of
/// what is gone.
pub(crate) fn follow_namespaces(
    numbers: &mut IndexMap<NamespaceId, u64>,
    world: &World,
    before: &IndexMap<NamespaceId, Vec<Seen>>,
)
    requires held { IsHeld world.now }
    requires room { length (world_of world.now).namespaces ≤ spare numbers.old }
    ensures { (number : ℕ) → number_by (is_namespace number) numbers.new.entries
        ≡ if_there (has_namespace (world_of world.now) number)
        (if same_all (mounts_kept before.now.entries number) (mounts_seen (world_of world.now) number)
        then number_by (is_namespace number) numbers.old.entries
        else raised (number_by (is_namespace number) numbers.old.entries)) }
{
    drop_gone_namespaces(numbers, world);
    raise_changed_namespaces(numbers, world, before);
}

fn drop_gone_namespaces(numbers: &mut IndexMap<NamespaceId, u64>, world: &World)
    ensures numbers { (number : ℕ) → number_by (is_namespace number) numbers.new.entries
        ≡ if_there (has_namespace (world_of world.now) number) (number_by (is_namespace number) numbers.old.entries) }
    ensures room { spare numbers.old ≤ spare numbers.new }
{
    numbers.retain(
        |namespace: &NamespaceId, number: &mut u64| -> bool
            ensures { (result ≡ has_namespace (world_of world.entry.now) (namespace_number namespace.now))
                × (number.new ≡ number.old) }
        { world.has_namespace(*namespace) },
    );
}

fn raise_changed_namespaces(
    numbers: &mut IndexMap<NamespaceId, u64>,
    world: &World,
    before: &IndexMap<NamespaceId, Vec<Seen>>,
)
    requires held { IsHeld world.now }
    requires room { length (world_of world.now).namespaces ≤ spare numbers.old }
    ensures { (number : ℕ) → number_by (is_namespace number) numbers.new.entries
        ≡ raised_if (has_namespace (world_of world.now) number
        && not (same_all (mounts_kept before.now.entries number) (mounts_seen (world_of world.now) number)))
        (number_by (is_namespace number) numbers.old.entries) }
{
    let namespaces = world.namespaces();
    for namespace in namespaces {
        if !has_same_mounts(world, before, *namespace) {
            raise(numbers, *namespace);
        }
    }
}
