//! Peer groups of tables, by their numbers.
use crate::mount::Mount;
use crate::tables::Tables;
use std::alloc::{AllocError, Global};
use std::collections::BTreeMap;
use vt_from::words::owned;

/// Where a member of each group is mounted from which the others are bound.
pub const GROUPS: &str = "/group";

/// A peer group.
#[derive(Drop)]
pub struct Group {
    /// The filesystem of its mounts.
    pub device: String,
    pub master: Option<u64>,
    /// How many mounts of the tables are members.
    pub members: u64,
    /// Whether mounts of the tables receive from it.
    pub is_master: bool,
    /// Whether a member is mounted under [`GROUPS`].
    pub is_staged: bool,
    /// Its members and its slaves, by their places among all mounts.
    pub mounts: Vec<usize>,
}

/// The groups, by their numbers in the tables.
pub type Groups = BTreeMap<u64, Group>;

impl Group {
    /// Whether a member is bound from another: one of several, or a master.
    pub fn is_bound(&self) -> bool {
        self.members > 1 || self.is_master
    }

    /// Whether it has slaves in the tables, and no member there.
    pub fn is_outside(&self) -> bool {
        self.members == 0 && self.is_master
    }
}

// A group is there, of this filesystem where it is new.
fn meet(alloc: Global, groups: &mut Groups, number: u64, device: &str) -> Result<(), AllocError> {
    if groups.contains_key(&number) {
        return Ok(());
    }
    let group = Group {
        device: owned(alloc, device)?,
        master: None,
        members: 0,
        is_master: false,
        is_staged: false,
        mounts: Vec::new(alloc),
    };
    groups.insert(number, group)?;
    Ok(())
}

// A group is the master of another, or of a mount alone.
fn set_master(groups: &mut Groups, master: u64, of: Option<u64>) {
    if let Some(group) = groups.get_mut(&master) {
        group.is_master = true;
    }
    let Some(of) = of else {
        return;
    };
    if let Some(group) = groups.get_mut(&of)
        && master != of
    {
        group.master = Some(master);
    }
}

// A mount is a member of a group, or its slave.
fn join(groups: &mut Groups, number: u64, place: usize, is_member: bool) -> Result<(), AllocError> {
    if let Some(group) = groups.get_mut(&number) {
        group.members = group.members.saturating_add(u64::from(is_member));
        group.mounts.push(place)?;
    }
    Ok(())
}

// What a mount tells of its groups.
fn meet_of_mount(
    alloc: Global,
    groups: &mut Groups,
    place: usize,
    mount: &Mount,
) -> Result<(), AllocError> {
    let device = mount.device.as_str();
    if let Some(number) = mount.wanted.group {
        meet(alloc, groups, number, device)?;
        join(groups, number, place, true)?;
    }
    let Some(master) = mount.wanted.master else {
        return Ok(());
    };
    meet(alloc, groups, master, device)?;
    join(groups, master, place, false)?;
    set_master(groups, master, mount.wanted.group);
    if let Some(from) = mount.from {
        meet(alloc, groups, from, device)?;
        set_master(groups, from, Some(master));
    }
    Ok(())
}

/// The groups of all mounts that can be said.
pub fn groups_of(tables: &Tables) -> Result<Groups, AllocError> {
    let alloc = tables.alloc();
    let mut groups = BTreeMap::new(alloc);
    for (place, mount) in tables.mounts.iter().enumerate() {
        if mount.is_waiting() {
            meet_of_mount(alloc, &mut groups, place, mount)?;
        }
    }
    Ok(groups)
}

/// Whether a group is another, or receives from it.
pub fn receives_from(groups: &Groups, group: u64, other: u64) -> bool {
    let mut at = group;
    for _ in 0..=groups.len() {
        if at == other {
            return true;
        }
        match groups.get(&at) {
            Some(
                Group {
                    master: Some(master),
                    ..
                },
            ) => at = *master,
            _ => return false,
        }
    }
    false
}
