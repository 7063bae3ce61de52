//! What is mounted before a table's mounts are: its filesystems, and a member of each peer group.
use crate::building::Building;
use crate::devices::{Device, FILESYSTEMS};
use crate::groups::{GROUPS, Group};
use std::alloc::{AllocError, Global};
use vt_from::script::Script;
use vt_from::words::joined;

// Makes the directories that a filesystem has to have.
fn make_directories(script: &mut Script, top: &str, device: &Device) {
    for directory in device.directories.all.keys() {
        script.say("t mkdir {}{}", &[top, directory.as_str()]);
    }
}

// Mounts a filesystem; of an overlay, whose layers come later, it makes the directory alone.
fn mount_plain(script: &mut Script, top: &str, device: &Device) {
    script.say("t mkdir {}", &[top]);
    if device.options.is_none() {
        script.say("t mount plain {}", &[top]);
        make_directories(script, top, device);
    }
}

impl Building {
    /// Mounts the filesystems, and makes the directories that they have to have: overlays last.
    pub fn mount_filesystems(&mut self) -> Result<(), AllocError> {
        let alloc = self.script.alloc();
        let script = &mut self.script;
        script.say(
            "# The filesystems, by their numbers, with the directories that mounts need.",
            &[],
        );
        script.say("t mkdir {}", &[FILESYSTEMS]);
        for (name, device) in &self.devices {
            let top = format!(in alloc; "{FILESYSTEMS}/{name}")?;
            mount_plain(script, top.as_str(), device);
        }
        for (name, device) in &self.devices {
            if let Some(options) = &device.options {
                let top = format!(in alloc; "{FILESYSTEMS}/{name}")?;
                script.say("t mount overlay {} {}", &[top.as_str(), options.as_str()]);
            }
        }
        Ok(())
    }

    // The group that can be mounted next: its master, if it has one, is.
    fn next_group(&self) -> Option<u64> {
        for (number, group) in &self.groups {
            if group.is_bound() && !group.is_staged && self.has_staged_master(group) {
                return Some(*number);
            }
        }
        None
    }

    fn has_staged_master(&self, group: &Group) -> bool {
        match group.master {
            Some(master) => self.is_staged(master),
            None => true,
        }
    }

    /// Whether a member of a group is mounted where others are bound from.
    pub fn is_staged(&self, group: u64) -> bool {
        match self.groups.get(&group) {
            Some(group) => group.is_staged,
            None => false,
        }
    }

    // Where a member of a group is bound from: its master, or its filesystem.
    fn source_of_group(&self, number: u64) -> Result<String, AllocError> {
        let alloc = self.script.alloc();
        match self.groups.get(&number) {
            Some(group) => source(alloc, group.master, group.device.as_str(), "/"),
            None => Ok(String::new(alloc)),
        }
    }

    // Notes that a member of a group is mounted, and tells whether the group has a master.
    fn set_staged(&mut self, number: u64) -> bool {
        match self.groups.get_mut(&number) {
            Some(group) => {
                group.is_staged = true;
                group.master.is_some()
            }
            None => false,
        }
    }

    // Mounts a member of a group.
    fn mount_group(&mut self, number: u64) -> Result<(), AllocError> {
        let from = self.source_of_group(number)?;
        let at = format!(in self.script.alloc(); "{GROUPS}/{number}")?;
        self.script.say("t mkdir {}", &[at.as_str()]);
        self.script
            .say("t bind {} {}", &[from.as_str(), at.as_str()]);
        if self.set_staged(number) {
            self.script.say("t type {} slave", &[at.as_str()]);
        }
        self.script.say("t type {} shared", &[at.as_str()]);
        Ok(())
    }

    /// Mounts a member of each group from which mounts are bound, a master before its slaves.
    pub fn mount_groups(&mut self) -> Result<(), AllocError> {
        for turn in 0..self.groups.len() {
            let Some(number) = self.next_group() else {
                return Ok(());
            };
            if turn == 0 {
                self.script.say(
                    "# A member of each peer group that has several mounts, or slaves.",
                    &[],
                );
                self.script.say("t mkdir {}", &[GROUPS]);
            }
            self.mount_group(number)?;
        }
        Ok(())
    }

    /// Leaves of the members only those of groups whose other members are in no table, or ends the task that has them.
    pub fn leave_groups(&mut self) -> Result<(), AllocError> {
        let mut is_needed = false;
        for group in self.groups.values() {
            is_needed |= group.is_outside();
        }
        if !is_needed {
            self.script.say("t.1 exit", &[]);
            return Ok(());
        }
        let alloc = self.script.alloc();
        self.script.say("# t.1 stays: it has the masters that are in no table.", &[]);
        for (number, group) in &self.groups {
            if group.is_staged && !group.is_outside() {
                let at = format!(in alloc; "{GROUPS}/{number}")?;
                self.script.say("t.1 type {} private", &[at.as_str()]);
            }
        }
        Ok(())
    }
}

/// Where a mount is bound from: a member of a group, or its filesystem, and the directory that it shows.
pub fn source(
    alloc: Global,
    group: Option<u64>,
    device: &str,
    root: &str,
) -> Result<String, AllocError> {
    let top = match group {
        Some(group) => format!(in alloc; "{GROUPS}/{group}")?,
        None => format!(in alloc; "{FILESYSTEMS}/{device}")?,
    };
    joined(alloc, top.as_str(), root)
}
