//! Types of mounts and masters of groups that change together: room is reserved for all of them first.
ghost use Rattle.std.specs.Prelude.{◌≡◌, ℕ, All, IfOk, OnOk, map, true};
ghost use Rattle.vt_spec.specs.Lists.{folded};
ghost use Rattle.vt_group.specs.Additions.{FitsMaster, FitsType, typed_pair};
ghost use Rattle.vt_group.specs.ByNumber.{IsAscending, has_room};
ghost use Rattle.vt_group.specs.Steps.{numbered_master, numbered_peer};
ghost use Rattle.vt_group.specs.Types.{KeepsRoom};
ghost use Rattle.vt_group.specs.Together.{new_group, typed, with_master_of, with_type_of};

use crate::by_number::ByNumber;
use crate::groups::NewGroup;
use crate::propagation::source;
use crate::types::Types;
use std::alloc::{AllocError, Global};
use vt_location::{GroupId, Mount, MountId, Propagation};

/// The types of mounts.
pub(crate) fn types_of(
    alloc: Global,
    mounts: &[Mount],
) -> Result<Vec<(MountId, Propagation)>, AllocError>
    ensures { IfOk result (λ types. map typed_pair types.items ≡ map typed mounts.now) }
{
    let mut types = Vec::with_capacity(alloc, mounts.len())?;
    for mount in mounts {
        types.push((mount.number, mount.propagation))?;
    }
    Ok(types)
}

/// Reserves room for these types and masters. None changes.
pub(crate) fn reserve_all(
    types: &mut Types,
    above: &mut ByNumber<GroupId, GroupId>,
    mounts: &[(MountId, Propagation)],
    new: &[NewGroup],
) -> Result<(), AllocError>
    ensures types { types.new.kinds.entries ≡ types.old.kinds.entries }
    ensures masters { above.new.entries ≡ above.old.entries }
    ensures room { OnOk result (All (FitsType types.new) mounts.now) }
    ensures room_above { OnOk result (All (FitsMaster above.new) new.now) }
{
    reserve_types(types, mounts)?;
    reserve_masters(above, new)
}

fn reserve_types(types: &mut Types, mounts: &[(MountId, Propagation)]) -> Result<(), AllocError>
    ensures entries { types.new.kinds.entries ≡ types.old.kinds.entries }
    ensures room { OnOk result (All (FitsType types.new) mounts.now) }
{
    for pair in mounts {
        reserve_type(types, pair.0, pair.1)?;
    }
    Ok(())
}

fn reserve_type(types: &mut Types, mount: MountId, kind: Propagation) -> Result<(), AllocError>
    ensures entries { types.new.kinds.entries ≡ types.old.kinds.entries }
    ensures room { OnOk result (FitsType types.new (mount, kind)) }
    ensures kept { KeepsRoom types.old types.new }
{
    if source(kind).is_none() {
        return Ok(());
    }
    types.reserve(mount, kind)
}

fn reserve_masters(
    above: &mut ByNumber<GroupId, GroupId>,
    new: &[NewGroup],
) -> Result<(), AllocError>
    ensures entries { above.new.entries ≡ above.old.entries }
    ensures room { OnOk result (All (FitsMaster above.new) new.now) }
{
    for group in new {
        reserve_master(above, *group)?;
    }
    Ok(())
}

fn reserve_master(above: &mut ByNumber<GroupId, GroupId>, new: NewGroup) -> Result<(), AllocError>
    ensures entries { above.new.entries ≡ above.old.entries }
    ensures room { OnOk result (FitsMaster above.new new) }
    ensures kept { (other : ℕ) → has_room above.old other ≡ true → has_room above.new other ≡ true }
{
    if new.master.is_none() {
        return Ok(());
    }
    above.reserve(new.group)
}

/// Gives up the room that is left without a type or a master. None changes, and it does not allocate.
pub(crate) fn release_all(
    types: &mut Types,
    above: &mut ByNumber<GroupId, GroupId>,
    mounts: &[(MountId, Propagation)],
    new: &[NewGroup],
)
    ensures types { types.new.kinds.entries ≡ types.old.kinds.entries }
    ensures masters { above.new.entries ≡ above.old.entries }
{
    for pair in mounts {
        types.release(pair.0, pair.1);
    }
    release_masters(above, new);
}

fn release_masters(above: &mut ByNumber<GroupId, GroupId>, new: &[NewGroup])
    ensures { above.new.entries ≡ above.old.entries }
{
    for group in new {
        above.release(group.group);
    }
}

/// Mounts get types, and groups get masters or lose them, one after another. There is room, so that it does not
/// allocate.
pub(crate) fn set_all(
    types: &mut Types,
    above: &mut ByNumber<GroupId, GroupId>,
    mounts: &[(MountId, Propagation)],
    new: &[NewGroup],
)
    requires room { All (FitsType types.old) mounts.now }
    requires room_above { All (FitsMaster above.old) new.now }
    ensures types { map numbered_peer types.new.kinds.entries
        ≡ folded with_type_of (map numbered_peer types.old.kinds.entries) (map typed_pair mounts.now) }
    ensures masters { map numbered_master above.new.entries
        ≡ folded with_master_of (map numbered_master above.old.entries) (map new_group new.now) }
    ensures ordered { IsAscending types.old.kinds → IsAscending types.new.kinds }
    ensures ordered_above { IsAscending above.old → IsAscending above.new }
{
    set_types(types, mounts);
    set_masters(above, new);
    // A group that lost its master has room for another still.
    release_masters(above, new);
}

fn set_types(types: &mut Types, mounts: &[(MountId, Propagation)])
    requires { All (FitsType types.old) mounts.now }
    ensures entries { map numbered_peer types.new.kinds.entries
        ≡ folded with_type_of (map numbered_peer types.old.kinds.entries) (map typed_pair mounts.now) }
    ensures ordered { IsAscending types.old.kinds → IsAscending types.new.kinds }
{
    for pair in mounts {
        set_type(types, pair.0, pair.1);
    }
}

fn set_type(types: &mut Types, mount: MountId, kind: Propagation)
    requires { FitsType types.old (mount, kind) }
    ensures entries { map numbered_peer types.new.kinds.entries
        ≡ with_type_of (map numbered_peer types.old.kinds.entries) (typed_pair (mount, kind)) }
    ensures kept { KeepsRoom types.old types.new }
    ensures ordered { IsAscending types.old.kinds → IsAscending types.new.kinds }
{
    if source(kind).is_some() {
        types.set(mount, kind);
    }
}

fn set_masters(above: &mut ByNumber<GroupId, GroupId>, new: &[NewGroup])
    requires { All (FitsMaster above.old) new.now }
    ensures entries { map numbered_master above.new.entries
        ≡ folded with_master_of (map numbered_master above.old.entries) (map new_group new.now) }
    ensures ordered { IsAscending above.old → IsAscending above.new }
{
    for group in new {
        set_master(above, *group);
    }
}

// A group that loses its master keeps the room for one, since it may come again with another.
fn set_master(above: &mut ByNumber<GroupId, GroupId>, new: NewGroup)
    requires { FitsMaster above.old new }
    ensures entries { map numbered_master above.new.entries
        ≡ with_master_of (map numbered_master above.old.entries) (new_group new) }
    ensures kept { (other : ℕ) → has_room above.old other ≡ true → has_room above.new other ≡ true }
    ensures ordered { IsAscending above.old → IsAscending above.new }
{
    match new.master {
        Some(master) => {
            above.set(new.group, master);
        }
        None => above.clear(new.group),
    }
}
