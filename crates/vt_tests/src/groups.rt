//! Peer groups as mount_namespaces(7) tells of them.
//!
//! Each test drops its groups by a call, since the proof of a function that drops them itself at an early return takes
//! minutes.
use std::alloc::Global;
use std::process::Abort;
use std::test::Fail;
use vt_cred::MountFlags;
use vt_group::{Groups, NewGroup};
use vt_location::{Birth, FilesystemId, GroupId, Mount, MountId, NodeRef, Propagation};

fn mount(count: u64) -> MountId {
    MountId::new(count)
}

fn group(count: u64) -> GroupId {
    GroupId::new(count)
}

// Mounts 1 and 2 are in group 10, mount 3 is its slave; mount 4 is in group 11 below it, and mount 5 that group's
// slave.
fn make_family(groups: &mut Groups) -> Result<(), Fail> {
    groups.start_group(group(10), mount(2), None)?;
    groups.join(group(10), mount(1))?;
    groups.make_slave(mount(3), group(10))?;
    groups.start_group(group(11), mount(4), Some(group(10)))?;
    groups.make_slave(mount(5), group(11))?;
    Ok(())
}

#[test]
fn events_go_to_members_slaves_and_groups_below(rt: HostRuntime) -> Result<(), Fail> {
    let mut groups = Groups::new(rt.alloc());
    let outcome = see_receivers(&rt, rt.alloc(), &mut groups);
    drop(groups);
    outcome
}

fn see_receivers(rt: &impl Abort, alloc: Global, groups: &mut Groups) -> Result<(), Fail> {
    make_family(groups)?;
    let all = groups.receivers(group(10))?;
    assert_eq!(rt;
        all.as_slice(),
        [mount(1), mount(2), mount(3), mount(4), mount(5)].as_slice()
    );
    let below = groups.receivers(group(11))?;
    assert_eq!(rt; below.as_slice(), [mount(4), mount(5)].as_slice());
    Ok(())
}

#[test]
fn slaves_of_an_ended_group_go_to_its_master(rt: HostRuntime) -> Result<(), Fail> {
    let mut groups = Groups::new(rt.alloc());
    let outcome = see_heir(&rt, rt.alloc(), &mut groups);
    drop(groups);
    outcome
}

fn see_heir(rt: &impl Abort, alloc: Global, groups: &mut Groups) -> Result<(), Fail> {
    make_family(groups)?;
    groups.leave(mount(4));
    assert_eq!(rt;
        groups.propagation_of(mount(5)),
        Some(Propagation::Slave(group(10)))
    );
    assert_eq!(rt; groups.master_of(group(11)), None);
    let all = groups.receivers(group(10))?;
    assert_eq!(rt;
        all.as_slice(),
        [mount(1), mount(2), mount(3), mount(5)].as_slice()
    );
    Ok(())
}

#[test]
fn slaves_without_an_heir_are_private(rt: HostRuntime) -> Result<(), Fail> {
    let mut groups = Groups::new(rt.alloc());
    let outcome = see_no_heir(&rt, rt.alloc(), &mut groups);
    drop(groups);
    outcome
}

fn see_no_heir(rt: &impl Abort, alloc: Global, groups: &mut Groups) -> Result<(), Fail> {
    make_family(groups)?;
    groups.make_slave(mount(1), group(10))?;
    groups.leave(mount(2));
    assert_eq!(rt; groups.propagation_of(mount(1)), None);
    assert_eq!(rt; groups.propagation_of(mount(3)), None);
    assert_eq!(rt;
        groups.propagation_of(mount(4)),
        Some(Propagation::Shared(group(11)))
    );
    assert_eq!(rt; groups.master_of(group(11)), None);
    Ok(())
}

#[test]
fn mounts_become_shared_and_slaves_at_once(rt: HostRuntime) -> Result<(), Fail> {
    let mut groups = Groups::new(rt.alloc());
    let outcome = see_types(&rt, rt.alloc(), &mut groups);
    drop(groups);
    outcome
}

fn see_types(rt: &impl Abort, alloc: Global, groups: &mut Groups) -> Result<(), Fail> {
    make_family(groups)?;
    groups.share([(mount(3), group(12)), (mount(6), group(13))].as_slice())?;
    assert_eq!(rt; groups.master_of(group(12)), Some(group(10)));
    assert_eq!(rt;
        groups.propagation_of(mount(6)),
        Some(Propagation::Shared(group(13)))
    );
    groups.make_slave_of_own(mount(1));
    groups.make_slave_of_own(mount(2));
    groups.make_slave_of_own(mount(6));
    assert_eq!(rt; groups.propagation_of(mount(1)), None);
    assert_eq!(rt; groups.propagation_of(mount(6)), None);
    assert_eq!(rt; groups.master_of(group(12)), None);
    Ok(())
}

// A mount with this number and type.
fn typed(count: u64, propagation: Propagation) -> Mount {
    Mount {
        number: mount(count),
        namespace: None,
        mount_point: None,
        root: NodeRef {
            filesystem: FilesystemId::new(0),
            slot: 0,
            birth: Birth::Here,
        },
        flags: MountFlags::plain(),
        propagation,
    }
}

#[test]
fn a_group_is_added_before_its_master(rt: HostRuntime) -> Result<(), Fail> {
    let mut groups = Groups::new(rt.alloc());
    let outcome = see_added(&rt, rt.alloc(), &mut groups);
    drop(groups);
    outcome
}

fn see_added(rt: &impl Abort, alloc: Global, groups: &mut Groups) -> Result<(), Fail> {
    make_family(groups)?;
    let mounts = [
        typed(6, Propagation::Shared(group(12))),
        typed(7, Propagation::Shared(group(13))),
    ];
    let new = [
        NewGroup {
            group: group(12),
            master: Some(group(13)),
        },
        NewGroup {
            group: group(13),
            master: Some(group(10)),
        },
    ];
    groups.add(mounts.as_slice(), new.as_slice())?;
    let below = groups.receivers(group(13))?;
    assert_eq!(rt; below.as_slice(), [mount(6), mount(7)].as_slice());
    groups.leave(mount(7));
    assert_eq!(rt; groups.master_of(group(12)), Some(group(10)));
    Ok(())
}
