//! The type and the flags of a mount, once nothing more comes on it; and the pivot to the root of a table.
use crate::building::{Building, task_of};
use crate::devices::{OLD_ROOT, is_said_as_overlay};
use crate::mount::Propagation;
use std::alloc::AllocError;
use vt_from::words::{below, joined};

// What the calls of `type` are called with that lead from one propagation to another, if some do. A group of its own has
// a number that no table has, or none is bound from it.
fn types_to(now: Propagation, wanted: Propagation) -> Option<&'static [&'static str]> {
    if wanted.unbindable {
        return Some(&["unbindable"]);
    }
    let is_same = now.group == wanted.group && now.master == wanted.master;
    match (wanted.group, wanted.master) {
        _ if is_same => Some(&[]),
        (None, None) => Some(&["private"]),
        (Some(_), None) if now.group.is_none() && now.master.is_none() => Some(&["shared"]),
        (Some(_), None) => Some(&["private", "shared"]),
        (None, Some(_)) if now.group == wanted.master => Some(&["slave"]),
        (Some(_), Some(_)) if now.group.is_none() && now.master == wanted.master => Some(&[
            "shared",
        ]),
        _ => None,
    }
}

impl Building {
    // Whether a mount is on the way to the mount point of another that comes: it is covered, or seen no more.
    fn is_hidden_by(&self, place: usize, coming: usize) -> bool {
        let (Some(mount), Some(other)) = (self.tables.mount(place), self.tables.mount(coming))
        else {
            return false;
        };
        let is_open = mount.is_built() && !mount.is_settled && mount.table == other.table;
        is_open && below(mount.point.as_str(), other.point.as_str()).is_some()
    }

    /// Settles what a mount that comes next will hide.
    pub fn settle_covered(&mut self, coming: usize) -> Result<(), AllocError> {
        let hides = match self.tables.mount(coming) {
            Some(mount) => self.tables.has_below(mount.table, mount.point.as_str()),
            None => false,
        };
        if !hides {
            return Ok(());
        }
        for place in 0..self.tables.mounts.len() {
            if self.is_hidden_by(place, coming) {
                self.settle(place)?;
            }
        }
        Ok(())
    }

    /// Settles all that is built.
    pub fn settle_all(&mut self) -> Result<(), AllocError> {
        self.script.say("# Types and flags.", &[]);
        for place in 0..self.tables.mounts.len() {
            let is_open = match self.tables.mount(place) {
                Some(mount) => mount.is_built() && !mount.is_settled,
                None => false,
            };
            if is_open {
                self.settle(place)?;
            }
        }
        Ok(())
    }

    // Notes that a mount is settled.
    fn set_settled(&mut self, place: usize) {
        if let Some(mount) = self.tables.mounts.get_mut(place) {
            mount.is_settled = true;
            mount.now = mount.wanted;
        }
    }

    // Gives a mount its type and its flags.
    fn settle(&mut self, place: usize) -> Result<(), AllocError> {
        let (task, path) = (self.task(place)?, self.path_of(place)?);
        let Some(mount) = self.tables.mounts.get(place) else {
            return Ok(());
        };
        match types_to(mount.now, mount.wanted) {
            Some(types) => {
                for word in types {
                    self.script
                        .say("{} type {} {}", &[task.as_str(), path.as_str(), *word]);
                }
            }
            None => self.script.skip("the type of a mount", mount.text.as_str()),
        }
        if let Some(flags) = mount.flags.word() {
            self.script
                .say("{} remount {} {}", &[task.as_str(), path.as_str(), flags]);
        }
        self.set_settled(place);
        Ok(())
    }

    /// Makes the root of a table the root of its task. The old root is put on a mount of its own, since the pivot asks for
    /// one that is not shared.
    pub fn pivot(&mut self, table: usize) -> Result<(), AllocError> {
        let alloc = self.script.alloc();
        let task = task_of(alloc, table)?;
        let top = self.top;
        let put = joined(alloc, top, OLD_ROOT)?;
        self.script.say("# The new root.", &[]);
        self.script
            .say("{} mount plain {}", &[task.as_str(), put.as_str()]);
        self.script
            .say("{} type {} private", &[task.as_str(), put.as_str()]);
        self.script
            .say("{} pivot_root {} {}", &[task.as_str(), top, put.as_str()]);
        self.script.say("{} chdir /", &[task.as_str()]);
        self.script
            .say("{} rtype {} private", &[task.as_str(), OLD_ROOT]);
        self.script.say("{} lazy {}", &[task.as_str(), OLD_ROOT]);
        self.script.say("{} umount {}", &[task.as_str(), OLD_ROOT]);
        if self.is_root_plain(table) {
            self.script.say("{} rmdir {}", &[task.as_str(), OLD_ROOT]);
        }
        Ok(())
    }

    // Whether the root of a table can be written to.
    fn is_root_plain(&self, table: usize) -> bool {
        let root = match self.tables.tables.get(table) {
            Some(table) => table.root,
            None => None,
        };
        match root {
            Some(root) => match self.tables.mount(root) {
                Some(mount) => !is_said_as_overlay(&self.devices, mount.device.as_str()),
                None => false,
            },
            None => false,
        }
    }
}
