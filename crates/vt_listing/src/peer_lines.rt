//! The list of the peer groups of all namespaces: mount_namespaces(7).
ghost use Rattle.std.specs.Prelude.{◌≡◌, ◌++◌, IfOk, OnOk, filter_map, flat_map, map, nat_eq, [], ℕ};
ghost use Rattle.std.specs.List.{cons_option};
ghost use Rattle.vt_location.specs.Numbers.{group_number, namespace_number};
ghost use Rattle.vt_spec.specs.Lists.{each_once};
ghost use Rattle.vt_spec.specs.Machine.Listing as listing;
ghost use Rattle.vt_spec.specs.Machine.World.{World};
ghost use Rattle.vt_location.specs.declared.numbers.GroupId.{GroupId};
ghost use Rattle.vt_group.specs.Sets.{same_group};
ghost use Rattle.vt_listing.specs.GroupsListed.{all_seen, group_numbers, line_by, member_place};
ghost use Rattle.vt_listing.specs.GroupsListed.{placed_from, placed_in, placed_seen, slave_place, under};
ghost use Rattle.vt_listing.specs.Shown.{IsShown, world_shown};
ghost use Rattle.vt_request.specs.Answers.{mount_place_of, peer_line_of};

use crate::mount_lines::group_place;
use crate::places_by::PlacesBy;
use crate::table::MountTable;
use indexmap::IndexSet;
use std::alloc::{AllocError, Global};
use vt_location::{GroupId, NamespaceId, Propagation};
use vt_request::{MountPlace, PeerLine};

// An attached mount: its place, and its type.
#[derive(Clone, Copy, Debug)]
struct Placed {
    at: MountPlace,
    kind: Propagation,
}

impl MountTable<'_> {
    /// The peer groups of these namespaces, which are all that there are in the order of their creation: in the order
    /// in which they first stand among the types of all mounts.
    pub fn peer_lines(&self, namespaces: &[NamespaceId]) -> Result<Vec<PeerLine>, AllocError>
        ensures ok { IfOk result (λ lines. (world : World ℕ) → IsShown world self.now
            → map namespace_number namespaces.now ≡ map (λ namespace. namespace.number) world.namespaces
            → map peer_line_of lines.items ≡ listing.peer_lines nat_eq world) }
    {
        let placed = self.placed(namespaces)?;
        let groups = self.groups_of(&placed)?;
        let members = members(self.alloc, &placed)?;
        let slaves = slaves(self.alloc, &placed)?;
        self.lines_of(&groups, &members, &slaves)
    }

    // The mounts of these namespaces, each namespace by its place among them.
    fn placed(&self, namespaces: &[NamespaceId]) -> Result<Vec<Placed>, AllocError>
        ensures ok { IfOk result (λ placed. all_seen placed.items
            ≡ placed_from (world_shown self.now) 1 (map namespace_number namespaces.now)) }
    {
        let mut placed = Vec::new(self.alloc);
        let mut number = 0;
        for namespace in namespaces {
            number += 1;
            self.push_placed(*namespace, number, &mut placed)?;
        }
        Ok(placed)
    }

    // Adds the mounts of a namespace, which has this place.
    fn push_placed(
        &self,
        namespace: NamespaceId,
        number: usize,
        placed: &mut Vec<Placed>,
    ) -> Result<(), AllocError>
        ensures ok { OnOk result (all_seen placed.new.items
            ≡ all_seen placed.old.items ++ placed_in (world_shown self.now) number (namespace_number namespace)) }
    {
        let mut place = 0;
        for id in self.mounts.attached_in(namespace) {
            if let Some(mount) = self.mounts.get(*id) {
                place += 1;
                let at = MountPlace {
                    namespace: number,
                    place,
                };
                let kind = mount.propagation;
                placed.push(Placed { at, kind })?;
            }
        }
        Ok(())
    }

    // The groups of these mounts, in the order in which they first stand in their types.
    fn groups_of(&self, placed: &[Placed]) -> Result<IndexSet<GroupId>, AllocError>
        ensures ok { IfOk result (λ seen. group_numbers seen.keys
            ≡ each_once nat_eq (flat_map (λ one. listing.groups_in_type (world_shown self.now) one.2)
            (all_seen placed.now))) }
    {
        let mut seen = IndexSet::new(self.alloc);
        for one in placed {
            self.see_type(&mut seen, one.kind)?;
        }
        Ok(seen)
    }

    // The lines of these groups.
    fn lines_of(
        &self,
        groups: &IndexSet<GroupId>,
        members: &PlacesBy<GroupId>,
        slaves: &PlacesBy<GroupId>,
    ) -> Result<Vec<PeerLine>, AllocError>
        ensures ok { IfOk result (λ lines. map peer_line_of lines.items
            ≡ map (line_by (world_shown self.now) (group_numbers groups.now.keys) members.now slaves.now)
            groups.now.keys) }
    {
        let mut lines = Vec::new(self.alloc);
        for group in groups.as_slice() {
            let line = self.peer_line(*group, groups, members, slaves)?;
            lines.push(line)?;
        }
        Ok(lines)
    }

    // The line of a group.
    fn peer_line(
        &self,
        group: GroupId,
        groups: &IndexSet<GroupId>,
        members: &PlacesBy<GroupId>,
        slaves: &PlacesBy<GroupId>,
    ) -> Result<PeerLine, AllocError>
        ensures { IfOk result (λ line. peer_line_of line
            ≡ line_by (world_shown self.now) (group_numbers groups.now.keys) members.now slaves.now group) }
    {
        Ok(PeerLine {
            group: group_place(group, groups),
            master: self.master_place(group, groups),
            members: members.of(self.alloc, &group)?,
            slaves: slaves.of(self.alloc, &group)?,
        })
    }
}

// The places of these mounts, each under the group that it is a member of.
fn members(alloc: Global, placed: &[Placed]) -> Result<PlacesBy<GroupId>, AllocError>
    ensures { IfOk result (λ places. (group : GroupId) → map mount_place_of (under same_group group places)
        ≡ filter_map (member_place (group_number group)) (all_seen placed.now)) }
{
    let mut places = PlacesBy::new(alloc);
    for one in placed {
        push_member(&mut places, *one)?;
    }
    Ok(places)
}

// Adds the place of a mount that is a member of a group.
fn push_member(places: &mut PlacesBy<GroupId>, one: Placed) -> Result<(), AllocError>
    ensures { OnOk result ((group : GroupId) → map mount_place_of (under same_group group places.new)
        ≡ map mount_place_of (under same_group group places.old)
        ++ cons_option (member_place (group_number group) (placed_seen one)) []) }
{
    match one.kind {
        Propagation::Shared(own) => places.push(own, one.at),
        Propagation::Slave(_) | Propagation::Private | Propagation::Unbindable => Ok(()),
    }
}

// The places of these mounts, each under the group that it is a slave of, if it is in none.
fn slaves(alloc: Global, placed: &[Placed]) -> Result<PlacesBy<GroupId>, AllocError>
    ensures { IfOk result (λ places. (group : GroupId) → map mount_place_of (under same_group group places)
        ≡ filter_map (slave_place (group_number group)) (all_seen placed.now)) }
{
    let mut places = PlacesBy::new(alloc);
    for one in placed {
        push_slave(&mut places, *one)?;
    }
    Ok(places)
}

// Adds the place of a mount that is a slave of a group, and in none.
fn push_slave(places: &mut PlacesBy<GroupId>, one: Placed) -> Result<(), AllocError>
    ensures { OnOk result ((group : GroupId) → map mount_place_of (under same_group group places.new)
        ≡ map mount_place_of (under same_group group places.old)
        ++ cons_option (slave_place (group_number group) (placed_seen one)) []) }
{
    match one.kind {
        Propagation::Slave(master) => places.push(master, one.at),
        Propagation::Shared(_) | Propagation::Private | Propagation::Unbindable => Ok(()),
    }
}
