//! How a mount of a table is attached, and which others come with it.
use crate::building::{Building, task_of};
use crate::groups::receives_from;
use crate::mount::{PRIVATE, Progress, Propagation};
use crate::staging::source;
use std::alloc::AllocError;
use std::collections::BTreeMap;
use vt_from::words::{below, joined, owned};

impl Building {
    /// The path of a mount point, where its task reaches it.
    pub fn path_of(&self, place: usize) -> Result<String, AllocError> {
        let alloc = self.script.alloc();
        match self.tables.mount(place) {
            Some(mount) => joined(alloc, self.top, mount.point.as_str()),
            None => owned(alloc, self.top),
        }
    }

    /// The task that has a mount.
    pub fn task(&self, place: usize) -> Result<String, AllocError> {
        let table = match self.tables.mount(place) {
            Some(mount) => mount.table,
            None => 0,
        };
        task_of(self.script.alloc(), table)
    }

    // Whether a mount can be built now: what it stands on is built, and on top at its mount point.
    fn is_next(&self, place: usize) -> bool {
        let Some(mount) = self.tables.mount(place) else {
            return false;
        };
        if !mount.is_waiting() {
            return false;
        }
        if self.tables.is_table_root(place) {
            return true;
        }
        match mount.stands_on {
            Some(on) => {
                self.is_built(on)
                    && self.tables.reached(mount.table, mount.point.as_str()) == Some(on)
            }
            None => false,
        }
    }

    fn is_built(&self, place: usize) -> bool {
        match self.tables.mount(place) {
            Some(mount) => mount.is_built(),
            None => false,
        }
    }

    /// Builds a mount if it can be built now, with those of other tables that are its peers and slaves, and tells whether
    /// it was.
    pub fn build(&mut self, place: usize) -> Result<bool, AllocError> {
        if !self.is_next(place) {
            return Ok(false);
        }
        self.attach(place)?;
        self.build_peers(place)?;
        Ok(true)
    }

    // A member or slave of a group, by its place among them.
    fn peer_at(&self, group: u64, at: usize) -> Option<usize> {
        self.groups.get(&group)?.mounts.get(at).copied()
    }

    // Builds the mounts of other tables that are peers or slaves of a mount, so that they receive what comes on it.
    fn build_peers(&mut self, place: usize) -> Result<(), AllocError> {
        let group = match self.tables.mount(place) {
            Some(mount) => mount.wanted.group,
            None => None,
        };
        let Some(group) = group else {
            return Ok(());
        };
        for at in 0..self.tables.mounts.len() {
            let Some(other) = self.peer_at(group, at) else {
                break;
            };
            if self.is_elsewhere(place, other) && self.is_next(other) {
                self.attach(other)?;
            }
        }
        Ok(())
    }

    // Whether two mounts are in two tables.
    fn is_elsewhere(&self, place: usize, other: usize) -> bool {
        match (self.tables.mount(place), self.tables.mount(other)) {
            (Some(mount), Some(other)) => mount.table != other.table,
            _ => false,
        }
    }

    // From which group a mount is bound, if from one.
    fn group_from(&self, wanted: Propagation) -> Option<u64> {
        if let Some(group) = wanted.group
            && self.is_staged(group)
        {
            return wanted.group;
        }
        if let Some(master) = wanted.master
            && self.is_staged(master)
        {
            return wanted.master;
        }
        None
    }

    // How a mount is to propagate.
    fn wanted_of(&self, place: usize) -> Propagation {
        match self.tables.mount(place) {
            Some(mount) => mount.wanted,
            None => PRIVATE,
        }
    }

    // Where a mount is bound from: a group, or its filesystem.
    fn source_of(&self, place: usize, from: Option<u64>) -> Result<String, AllocError> {
        let alloc = self.script.alloc();
        match self.tables.mount(place) {
            Some(mount) => source(alloc, from, mount.device.as_str(), mount.root.as_str()),
            None => Ok(String::new(alloc)),
        }
    }

    // Quotes the line of a mount, with its number.
    fn quote(&mut self, place: usize, said: &str) -> Result<(), AllocError> {
        if let Some(mount) = self.tables.mounts.get(place) {
            let line = mount.line;
            let said = format!(in self.script.alloc(); "{said} {line}")?;
            self.script.quote(said.as_str(), mount.text.as_str());
        }
        Ok(())
    }

    // The group of a mount that comes on another: of its source, or a new one if that is shared.
    fn group_on(&mut self, on: Propagation, from: Option<u64>) -> Option<u64> {
        if from.is_some() || on.group.is_none() {
            return from;
        }
        self.fresh = self.fresh.saturating_add(1);
        Some(self.fresh)
    }

    // How the mount propagates on which a mount comes.
    fn now_below(&self, place: usize) -> Propagation {
        let on = match self.tables.mount(place) {
            Some(mount) => mount.stands_on,
            None => None,
        };
        match on {
            Some(on) => self.now_of(on),
            None => PRIVATE,
        }
    }

    /// How a mount propagates so far.
    pub fn now_of(&self, place: usize) -> Propagation {
        match self.tables.mount(place) {
            Some(mount) => mount.now,
            None => PRIVATE,
        }
    }

    // A mount is built.
    fn set_built(&mut self, place: usize, now: Propagation) {
        if let Some(mount) = self.tables.mounts.get_mut(place) {
            mount.progress = Progress::Built;
            mount.now = now;
        }
    }

    // A mount is built, and lies at its mount point and below the directories above.
    fn add_built(&mut self, place: usize, now: Propagation) -> Result<(), AllocError> {
        self.set_built(place, now);
        self.tables.note_built(place)
    }

    // Attaches a mount.
    fn attach(&mut self, place: usize) -> Result<(), AllocError> {
        self.settle_covered(place)?;
        let from = self.group_from(self.wanted_of(place));
        let source = self.source_of(place, from)?;
        let (task, path) = (self.task(place)?, self.path_of(place)?);
        self.quote(place, "line")?;
        self.script.say(
            "{} bind {} {}",
            &[task.as_str(), source.as_str(), path.as_str()],
        );
        let on = self.now_below(place);
        let group = self.group_on(on, from);
        self.add_built(place, Propagation { group, ..PRIVATE })?;
        self.make_slave(place)?;
        match (on.group, group) {
            (Some(on), Some(group)) => self.receive(place, on, group),
            _ => Ok(()),
        }
    }

    // Makes a mount that is a member of its master's group a slave.
    fn make_slave(&mut self, place: usize) -> Result<(), AllocError> {
        let Some(mount) = self.tables.mounts.get(place) else {
            return Ok(());
        };
        let (group, wanted) = (mount.now.group, mount.wanted.master);
        if group.is_none() || group != wanted {
            return Ok(());
        }
        let (task, path) = (self.task(place)?, self.path_of(place)?);
        self.script
            .say("{} type {} slave", &[task.as_str(), path.as_str()]);
        let now = Propagation {
            master: group,
            ..PRIVATE
        };
        self.set_built(place, now);
        Ok(())
    }

    // The mounts that receive what comes on a member of a group, in their order.
    fn receivers(&self, place: usize, on: u64) -> Result<BTreeMap<usize, ()>, AllocError> {
        let mut found = BTreeMap::new(self.script.alloc());
        for (number, group) in &self.groups {
            if !receives_from(&self.groups, *number, on) {
                continue;
            }
            for other in &group.mounts {
                if self.does_receive(place, *other, on) {
                    found.insert(*other, ())?;
                }
            }
        }
        Ok(found)
    }

    // Each mount that receives from a group gets a copy of a mount that came on a member; `group` is that of the copies.
    fn receive(&mut self, place: usize, on: u64, group: u64) -> Result<(), AllocError> {
        if !self.is_staged(on) {
            return Ok(());
        }
        let receivers = self.receivers(place, on)?;
        for receiver in receivers.keys() {
            self.receive_at(place, *receiver, on, group)?;
        }
        Ok(())
    }

    // Whether a mount receives what comes on a member of a group.
    fn does_receive(&self, place: usize, receiver: usize, on: u64) -> bool {
        let (Some(mount), Some(other)) = (self.tables.mount(place), self.tables.mount(receiver))
        else {
            return false;
        };
        if !other.is_built() || receiver == place || mount.stands_on == Some(receiver) {
            return false;
        }
        let receives = |number: Option<u64>| match number {
            Some(number) => receives_from(&self.groups, number, on),
            None => false,
        };
        receives(other.now.group) || receives(other.now.master)
    }

    // Where the mount point of a mount is seen through another mount, if it is.
    fn seen_through(&self, place: usize, through: usize) -> Result<Option<String>, AllocError> {
        let (Some(mount), Some(other)) = (self.tables.mount(place), self.tables.mount(through))
        else {
            return Ok(None);
        };
        let Some(on) = mount.stands_on else {
            return Ok(None);
        };
        let Some(directory) = self.tables.directory(on, mount.point.as_str())? else {
            return Ok(None);
        };
        match below(directory.as_str(), other.root.as_str()) {
            Some(rest) => Ok(Some(joined(self.script.alloc(), other.point.as_str(), rest)?)),
            None => Ok(None),
        }
    }

    // A mount of a table is the copy that a receiver gets, or the copy is none of the table.
    fn receive_at(
        &mut self,
        place: usize,
        receiver: usize,
        on: u64,
        group: u64,
    ) -> Result<(), AllocError> {
        let Some(path) = self.seen_through(place, receiver)? else {
            return Ok(());
        };
        let at = self.now_of(receiver);
        let now = if at.group == Some(on) {
            Propagation {
                group: Some(group),
                ..PRIVATE
            }
        } else {
            self.fresh = self.fresh.saturating_add(1);
            Propagation {
                group: at.group.map(|_| self.fresh),
                master: Some(group),
                unbindable: false,
            }
        };
        match self.tables.waiting_on(receiver, path.as_str()) {
            Some(copy) if self.is_copy(place, copy) => {
                self.quote(copy, "it comes on its peers too, line")?;
                self.add_built(copy, now)?;
                self.make_slave(copy)
            }
            _ => self.refuse_copy(receiver, path.as_str(), at.group.is_none()),
        }
    }

    // Whether two mounts show the same directory.
    fn is_copy(&self, place: usize, copy: usize) -> bool {
        match (self.tables.mount(place), self.tables.mount(copy)) {
            (Some(mount), Some(copy)) => {
                mount.device.as_str() == copy.device.as_str()
                    && mount.root.as_str() == copy.root.as_str()
            }
            _ => false,
        }
    }

    // A receiver gets a copy that its table does not have. On a slave alone it can be unmounted again.
    fn refuse_copy(
        &mut self,
        receiver: usize,
        path: &str,
        is_slave: bool,
    ) -> Result<(), AllocError> {
        let task = self.task(receiver)?;
        let path = joined(self.script.alloc(), self.top, path)?;
        if is_slave {
            self.script
                .say("{} umount {}", &[task.as_str(), path.as_str()]);
        } else {
            self.script.skip("that a peer has no copy", path.as_str());
        }
        Ok(())
    }
}
