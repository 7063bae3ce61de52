//! Where the mounts and the groups of an attachment stand.
ghost use Rattle.std.specs.Prelude.{◌≡◌, IfOk, IfSome, None, OnOk, Some, if◌then◌else◌, map, option_map};
ghost use Rattle.std.specs.HashMap.{get};
ghost use Rattle.vt_spec.specs.Lists.{or_else};
ghost use Rattle.vt_spec.specs.Machine.Mounts.{group_of};
ghost use Rattle.vt_location.specs.declared.numbers.GroupId.{GroupId};
ghost use Rattle.vt_location.specs.declared.numbers.MountId.{MountId};
ghost use Rattle.vt_location.specs.MountValue.{mount_of, propagation_of};
ghost use Rattle.vt_location.specs.Numbers.{group_number, mount_number, same_id};
ghost use Rattle.vt_propagate.specs.declared.copying.Graft.{Graft};
ghost use Rattle.vt_propagate.specs.Indexes.{IsIndexed, place_of, place_of_group};
ghost use Rattle.vt_group.specs.Sets.{same_group};

use crate::copying::Graft;
use std::alloc::{AllocError, Global};
use std::collections::HashMap;
use vt_location::{GroupId, Mount, MountId, Propagation};

// So many mounts are searched from their front, and get no map.
const FEW: usize = 8;

/// The index of each part and of each mount of a tree by their numbers, and that of the first part in each group, where
/// there are more than a few.
#[derive(Debug, Drop)]
pub(crate) struct Indexes {
    pub(crate) parts: Option<HashMap<MountId, usize>>,
    pub(crate) tree: Option<HashMap<MountId, usize>>,
    pub(crate) groups: Option<HashMap<GroupId, usize>>,
}

impl Indexes {
    /// No indexes.
    pub(crate) fn empty() -> Self
        ensures { (graft : Graft) → IsIndexed result graft }
    {
        Indexes {
            parts: None,
            tree: None,
            groups: None,
        }
    }

    /// Notes the indexes of a graft.
    pub(crate) fn note(&mut self, alloc: Global, graft: &Graft) -> Result<(), AllocError>
        requires { IsIndexed self.old graft.now }
        ensures { OnOk result (IsIndexed self.new graft.now) }
    {
        note_places(&mut self.parts, alloc, graft.parts)?;
        note_places(&mut self.tree, alloc, graft.tree)?;
        note_group_places(&mut self.groups, alloc, graft.parts)
    }
}

// Notes the index of each of these mounts, if there are more than a few; of those with one number, the first.
#[inline]
fn note_places(
    places: &mut Option<HashMap<MountId, usize>>,
    alloc: Global,
    mounts: &[Mount],
) -> Result<(), AllocError>
    requires { IfSome places.old (λ places. (id : MountId)
        → get same_id places id ≡ place_of (map mount_of mounts.now) (mount_number id)) }
    ensures { OnOk result (IfSome places.new (λ places. (id : MountId)
        → get same_id places id ≡ place_of (map mount_of mounts.now) (mount_number id))) }
{
    if mounts.len() <= FEW {
        return Ok(());
    }
    let all = all_places(alloc, mounts)?;
    *places = Some(all);
    Ok(())
}

// The index of each of these mounts; of those with one number, the first.
fn all_places(alloc: Global, mounts: &[Mount]) -> Result<HashMap<MountId, usize>, AllocError>
    ensures { IfOk result (λ places. (id : MountId)
        → get same_id places id ≡ place_of (map mount_of mounts.now) (mount_number id)) }
{
    let mut places = HashMap::with_capacity(alloc, mounts.len())?;
    for (index, mount) in mounts.iter().enumerate() {
        note_mount(&mut places, mount.number, index)?;
    }
    Ok(places)
}

// Notes the index of the first of these mounts in each group, if there are more than a few.
#[inline]
fn note_group_places(
    places: &mut Option<HashMap<GroupId, usize>>,
    alloc: Global,
    parts: &[Mount],
) -> Result<(), AllocError>
    requires { IfSome places.old (λ places. (group : GroupId)
        → get same_group places group ≡ place_of_group (map mount_of parts.now) (group_number group)) }
    ensures { OnOk result (IfSome places.new (λ places. (group : GroupId)
        → get same_group places group ≡ place_of_group (map mount_of parts.now) (group_number group))) }
{
    if parts.len() <= FEW {
        return Ok(());
    }
    let all = all_group_places(alloc, parts)?;
    *places = Some(all);
    Ok(())
}

// The index of the first of these mounts in each group.
fn all_group_places(alloc: Global, parts: &[Mount]) -> Result<HashMap<GroupId, usize>, AllocError>
    ensures { IfOk result (λ places. (group : GroupId)
        → get same_group places group ≡ place_of_group (map mount_of parts.now) (group_number group)) }
{
    let mut places = HashMap::new(alloc);
    for (index, part) in parts.iter().enumerate() {
        if let Some(group) = own_group(part.propagation) {
            note_group(&mut places, group, index)?;
        }
    }
    Ok(places)
}

// Notes the index of a mount, unless one was noted before.
fn note_mount(
    places: &mut HashMap<MountId, usize>,
    id: MountId,
    index: usize,
) -> Result<(), AllocError>
    ensures { OnOk result ((q : MountId) → get same_id places.new q
        ≡ or_else (get same_id places.old q) (if same_id q id then Some index else None)) }
{
    if !places.contains_key(&id) {
        places.insert(id, index)?;
    }
    Ok(())
}

// Notes the index of a member of a group, unless one was noted before.
fn note_group(
    places: &mut HashMap<GroupId, usize>,
    group: GroupId,
    index: usize,
) -> Result<(), AllocError>
    ensures { OnOk result ((q : GroupId) → get same_group places.new q
        ≡ or_else (get same_group places.old q) (if same_group q group then Some index else None)) }
{
    if !places.contains_key(&group) {
        places.insert(group, index)?;
    }
    Ok(())
}

// The group that a mount of this type is in.
fn own_group(propagation: Propagation) -> Option<GroupId>
    ensures { option_map group_number result ≡ group_of (propagation_of propagation) }
{
    match propagation {
        Propagation::Shared(group) => Some(group),
        Propagation::Slave(_) | Propagation::Private | Propagation::Unbindable => None,
    }
}
