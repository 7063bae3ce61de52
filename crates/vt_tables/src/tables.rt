//! Tables of mounts as they are read, and which mount stands on which.
use crate::mount::{Mount, mount_of};
use std::alloc::{AllocError, Global};
use std::collections::BTreeMap;
use vt_from::lines::Taking;
use vt_from::words::{below, joined, owned};

/// A table of the mounts of a task.
#[derive(Drop)]
pub struct Table {
    /// What the user calls its task.
    pub name: String,
    /// Its mounts by their numbers.
    ids: BTreeMap<u64, usize>,
    /// Its mounts by their mount points.
    points: BTreeMap<String, Vec<usize>>,
    /// The directories at or under which a mount is built.
    covered: BTreeMap<String, ()>,
    /// Its root mount.
    pub root: Option<usize>,
}

/// Tables, with the mounts of all of them, each in the order of its table. An allocation that fails is noted.
#[derive(Drop)]
pub struct Tables {
    alloc: Global,
    pub tables: Vec<Table>,
    pub mounts: Vec<Mount>,
    pub failed: bool,
    /// Whether mounts that wait count as built where a path leads: as long as the script is planned.
    pub is_planned: bool,
}

impl Taking for Tables {
    fn take(&mut self, number: u64, line: &str) -> bool {
        let table = self.tables.len().saturating_sub(1);
        match mount_of(self.alloc, table, number, line) {
            Ok(Some(mount)) => {
                self.failed |= self.keep(mount).is_err();
                true
            }
            Ok(None) => line.is_empty() || line.starts_with('#'),
            Err(_) => {
                self.failed = true;
                true
            }
        }
    }
}

impl Tables {
    /// None yet.
    pub fn new(alloc: Global) -> Self {
        Tables {
            alloc,
            tables: Vec::new(alloc),
            mounts: Vec::new(alloc),
            failed: false,
            is_planned: true,
        }
    }

    /// The allocator.
    pub fn alloc(&self) -> Global {
        self.alloc
    }

    /// Begins a table: the lines that are taken next are its.
    pub fn begin(&mut self, name: &str) -> Result<(), AllocError> {
        let table = Table {
            name: owned(self.alloc, name)?,
            ids: BTreeMap::new(self.alloc),
            points: BTreeMap::new(self.alloc),
            covered: BTreeMap::new(self.alloc),
            root: None,
        };
        self.tables.push(table)?;
        Ok(())
    }

    // Keeps a mount of the last table.
    fn keep(&mut self, mount: Mount) -> Result<(), AllocError> {
        let place = self.mounts.len();
        if let Some(table) = self.tables.get_mut(mount.table) {
            table.ids.insert(mount.id, place)?;
            let point = owned(self.alloc, mount.point.as_str())?;
            keep_point(self.alloc, &mut table.points, point, place)?;
        }
        self.mounts.push(mount)?;
        Ok(())
    }

    /// A mount.
    pub fn mount(&self, place: usize) -> Option<&Mount> {
        self.mounts.get(place)
    }

    // The mount of a table with this number.
    fn place_of(&self, table: usize, id: u64) -> Option<usize> {
        self.tables.get(table)?.ids.get(&id).copied()
    }

    // Which mount a mount stands on, as its table says.
    fn parent_of(&self, place: usize) -> Option<usize> {
        let mount = self.mounts.get(place)?;
        let parent = self.place_of(mount.table, mount.parent)?;
        (parent != place).then_some(parent)
    }

    // Whether a mount is the root of its table: the first one at `/` that stands on none of it.
    fn is_root(&self, place: usize) -> bool {
        let Some(mount) = self.mounts.get(place) else {
            return false;
        };
        let is_first = match self.tables.get(mount.table) {
            Some(table) => table.root.is_none(),
            None => false,
        };
        is_first && mount.stands_on.is_none() && mount.point.as_str() == "/"
    }

    /// Finds which mounts stand on which, and the root of each table.
    pub fn link(&mut self) {
        for place in 0..self.mounts.len() {
            let parent = self.parent_of(place);
            if let Some(mount) = self.mounts.get_mut(place) {
                mount.stands_on = parent;
            }
            if let Some(parent) = parent
                && let Some(above) = self.mounts.get_mut(parent)
            {
                above.is_parent = true;
            }
            if self.is_root(place) {
                self.set_root(place);
            }
        }
    }

    /// Adds the root mount of a table that has none.
    pub fn add_root(&mut self, mount: Mount) -> Result<(), AllocError> {
        let place = self.mounts.len();
        self.mounts.push(mount)?;
        self.set_root(place);
        Ok(())
    }

    // Makes a mount the root of its table.
    fn set_root(&mut self, place: usize) {
        let Some(mount) = self.mounts.get(place) else {
            return;
        };
        let table = mount.table;
        if let Some(table) = self.tables.get_mut(table) {
            table.root = Some(place);
        }
    }

    /// Whether a mount is the root of its table.
    pub fn is_table_root(&self, place: usize) -> bool {
        let Some(mount) = self.mounts.get(place) else {
            return false;
        };
        match self.tables.get(mount.table) {
            Some(table) => table.root == Some(place),
            None => false,
        }
    }

    // The built mount that stands on a mount at a path, if there is one.
    fn built_on(&self, table: &Table, on: usize, path: &str) -> Option<usize> {
        for place in table.points.get(path)? {
            if let Some(mount) = self.mounts.get(*place)
                && (mount.is_built() || (self.is_planned && mount.is_waiting()))
                && mount.stands_on == Some(on)
            {
                return Some(*place);
            }
        }
        None
    }

    // Which mount is on top at a path, from one that is there or above it.
    fn topmost(&self, table: &Table, from: usize, path: &str) -> usize {
        let mut top = from;
        for _ in 0..self.mounts.len() {
            match self.built_on(table, top, path) {
                Some(next) => top = next,
                None => break,
            }
        }
        top
    }

    /// Which built mount a path of a table leads to.
    pub fn reached(&self, table: usize, path: &str) -> Option<usize> {
        let table = self.tables.get(table)?;
        let mut at = table.root?;
        for (place, byte) in path.bytes().enumerate() {
            if byte == b'/' && place > 0 {
                at = self.topmost(table, at, path.get(..place).unwrap_or_default());
            }
        }
        Some(self.topmost(table, at, path))
    }

    /// A mount is built: at its mount point, under each directory above it.
    pub fn note_built(&mut self, place: usize) -> Result<(), AllocError> {
        let Some(mount) = self.mounts.get(place) else {
            return Ok(());
        };
        let Some(table) = self.tables.get_mut(mount.table) else {
            return Ok(());
        };
        let point = mount.point.as_str();
        for (place, byte) in point.bytes().enumerate() {
            if byte == b'/' {
                let above = point.get(..place).unwrap_or_default();
                table.covered.insert(owned(self.alloc, above)?, ())?;
            }
        }
        table.covered.insert(owned(self.alloc, point)?, ())?;
        Ok(())
    }

    /// Whether a mount is built at a path of a table, or under it.
    pub fn has_below(&self, table: usize, path: &str) -> bool {
        match self.tables.get(table) {
            Some(table) => table.covered.contains_key(path),
            None => false,
        }
    }

    /// The directory of a filesystem that is seen at a path on a mount.
    pub fn directory(&self, on: usize, path: &str) -> Result<Option<String>, AllocError> {
        let Some(mount) = self.mounts.get(on) else {
            return Ok(None);
        };
        match below(path, mount.point.as_str()) {
            Some(rest) => Ok(Some(joined(self.alloc, mount.root.as_str(), rest)?)),
            None => Ok(None),
        }
    }

    /// The mount of a table that waits to be built at a path on a mount.
    pub fn waiting_on(&self, on: usize, path: &str) -> Option<usize> {
        let mount = self.mounts.get(on)?;
        let table = self.tables.get(mount.table)?;
        for place in table.points.get(path)? {
            if let Some(other) = self.mounts.get(*place)
                && other.is_waiting()
                && other.stands_on == Some(on)
            {
                return Some(*place);
            }
        }
        None
    }
}

// Keeps a mount under its mount point.
fn keep_point(
    alloc: Global,
    points: &mut BTreeMap<String, Vec<usize>>,
    point: String,
    place: usize,
) -> Result<(), AllocError> {
    if let Some(places) = points.get_mut(point.as_str()) {
        places.push(place)?;
        return Ok(());
    }
    let mut places = Vec::new(alloc);
    places.push(place)?;
    points.insert(point, places)?;
    Ok(())
}
