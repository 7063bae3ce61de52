//! The filesystem whose change number a grant raises.
ghost use Rattle.std.specs.Prelude.{◌≡◌, nat_eq, option_map, option_to_list, ℕ};
ghost use Rattle.vt_spec.specs.Machine.Apply.{filesystems_changed};
ghost use Rattle.vt_spec.specs.Machine.Filesystems.{changed_at};
ghost use Rattle.vt_spec.specs.Machine.World.{Task};
ghost use Rattle.vt_location.specs.Locations.{location_of};
ghost use Rattle.vt_location.specs.Numbers.{filesystem_number};
ghost use Rattle.vt_permits.specs.GrantValue.{descriptor_permit, make_permit, permit_of, remove_permit, write_permit};
ghost use Rattle.vt_world.specs.Held.{IsHeld};
ghost use Rattle.vt_world.specs.WorldValue.{world_of};

use vt_location::{FilesystemId, Location};
use vt_looks::Look;
use vt_ns::World;
use vt_permits::{DescriptorGrant, Grant, MakeGrant, RemoveGrant, WriteGrant};

/// The filesystem that a grant changes, if it changes one. No overlay has an upper layer, so none is changed.
pub(crate) fn changed_by(world: &World, grant: &Grant) -> Option<FilesystemId>
    requires { IsHeld world.now }
    ensures { (task : Task ℕ) → option_to_list (option_map filesystem_number result)
        ≡ filesystems_changed nat_eq (world_of world.now) (permit_of task grant.now) }
{
    match grant {
        Grant::Make(grant) => made_by(world, grant),
        Grant::Remove(grant) => removed_by(world, grant),
        Grant::Write(grant) => written_by(world, grant),
        Grant::Descriptor(grant) => opened_by(world, grant),
        Grant::Look(_grant) => None,
        Grant::Task(_grant) => None,
        Grant::Mount(_grant) => None,
        Grant::Overlay(_new) => None,
    }
}

// By a grant to make a name.
fn made_by(world: &World, grant: &MakeGrant) -> Option<FilesystemId>
    requires { IsHeld world.now }
    ensures { option_to_list (option_map filesystem_number result)
        ≡ filesystems_changed nat_eq (world_of world.now) (make_permit grant.now) }
{
    match grant {
        MakeGrant::Node(new) => changed_at(world, new.directory),
        MakeGrant::Link(new) => changed_at(world, new.directory),
    }
}

// By a grant to take a name away. The mounts that go with it leave the filesystem of the directory.
fn removed_by(world: &World, grant: &RemoveGrant) -> Option<FilesystemId>
    requires { IsHeld world.now }
    ensures { option_to_list (option_map filesystem_number result)
        ≡ filesystems_changed nat_eq (world_of world.now) (remove_permit grant.now) }
{
    match grant {
        RemoveGrant::Unlink(gone) => changed_at(world, gone.directory),
        RemoveGrant::Directory(removed) => changed_at(world, removed.parent),
        RemoveGrant::Rename(renamed) => changed_at(world, renamed.from),
    }
}

// By a grant to change a file; no bytes change nothing.
fn written_by(world: &World, grant: &WriteGrant) -> Option<FilesystemId>
    requires { IsHeld world.now }
    ensures { option_to_list (option_map filesystem_number result)
        ≡ filesystems_changed nat_eq (world_of world.now) (write_permit grant.now) }
{
    match grant {
        WriteGrant::Content { file, .. } => changed_at(world, *file),
        WriteGrant::Part(part) => {
            if part.bytes.is_empty() {
                return None;
            }
            changed_at(world, part.file)
        }
        WriteGrant::Attr { object, .. } => changed_at(world, *object),
        WriteGrant::Mark { directory, .. } => changed_at(world, *directory),
    }
}

// By a grant to open or close a file. Opening copies nothing up, since no overlay has an upper layer.
fn opened_by(world: &World, grant: &DescriptorGrant) -> Option<FilesystemId>
    requires { IsHeld world.now }
    ensures { option_to_list (option_map filesystem_number result)
        ≡ filesystems_changed nat_eq (world_of world.now) (descriptor_permit grant.now) }
{
    match grant {
        DescriptorGrant::OpenNew(new) => changed_at(world, new.directory),
        DescriptorGrant::Open { .. } => None,
        DescriptorGrant::Close { .. } => None,
    }
}

// By a change at a location.
fn changed_at(world: &World, at: Location) -> Option<FilesystemId>
    requires { IsHeld world.now }
    ensures { option_to_list (option_map filesystem_number result)
        ≡ changed_at nat_eq (world_of world.now) (location_of at) }
{
    if world.is_overlay(at) {
        return None;
    }
    Some(world.ground(at.mount).filesystem)
}
