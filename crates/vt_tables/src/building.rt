//! The script that leads to tables of mounts.
use crate::devices::{Devices, devices_of, is_said_as_overlay};
use crate::groups::{Groups, groups_of};
use crate::mount::{Progress, mount_of};
use crate::tables::Tables;
use std::alloc::{AllocError, Global};
use vt_from::script::{Script, Written};

// The root of a table that has none.
const NO_ROOT: &str = "0 0 none:0 / / rw - none none rw";

/// A script that is written as the mounts of tables are built in it.
#[derive(Drop)]
pub struct Building {
    pub tables: Tables,
    pub devices: Devices,
    pub groups: Groups,
    pub script: Script,
    /// The next number of a group that no table has.
    pub fresh: u64,
    /// Where the root of the tables is while they are built; `/` once it is the root.
    pub top: &'static str,
}

/// The script that leads to tables, and the tables with what became of each mount.
#[derive(Drop)]
pub struct Converted {
    pub written: Written,
    pub tables: Tables,
}

/// The name of the task that has a table. `t.1` has what is in no table.
pub fn task_of(alloc: Global, table: usize) -> Result<String, AllocError> {
    if table == 0 {
        return String::from_str(alloc, "t");
    }
    let number = table.saturating_add(1);
    format!(in alloc; "t.{number}")
}

// Gives each table a root.
fn add_roots(tables: &mut Tables) -> Result<(), AllocError> {
    let alloc = tables.alloc();
    for table in 0..tables.tables.len() {
        let has_root = match tables.tables.get(table) {
            Some(table) => table.root.is_some(),
            None => true,
        };
        if !has_root && let Some(mount) = mount_of(alloc, table, 0, NO_ROOT)? {
            tables.add_root(mount)?;
        }
    }
    Ok(())
}

// Lets a mount that stands on none of its table stand on what its mount point leads to.
fn stand(tables: &mut Tables) {
    for place in 0..tables.mounts.len() {
        let on = match tables.mount(place) {
            Some(mount) if mount.stands_on.is_none() && !tables.is_table_root(place) => {
                tables.reached(mount.table, mount.point.as_str())
            }
            _ => None,
        };
        if on.is_some()
            && let Some(mount) = tables.mounts.get_mut(place)
        {
            mount.stands_on = on;
        }
    }
}

impl Building {
    // Leaves out what cannot be said.
    fn leave_unsayable(&mut self) {
        for mount in self.tables.mounts.iter_mut() {
            if let Some(why) = mount.unsayable() {
                mount.progress = Progress::Left;
                self.script.skip(why, mount.text.as_str());
            }
        }
    }

    // Tells of overlays that are said as plain filesystems.
    fn tell_of_overlays(&mut self) {
        for mount in &self.tables.mounts {
            let is_overlay = mount.is_waiting() && mount.kind.as_str() == "overlay";
            if is_overlay && !is_said_as_overlay(&self.devices, mount.device.as_str()) {
                let why = if mount.has_upper {
                    "an upper layer, a plain filesystem stands for the overlay"
                } else {
                    "layers that are not seen here, a plain filesystem stands for the overlay"
                };
                self.script.skip(why, mount.text.as_str());
            }
        }
    }

    // Forks a task for each table, and gives each a namespace.
    fn fork_tasks(&mut self) -> Result<(), AllocError> {
        let alloc = self.script.alloc();
        self.script.say("t mkdir {}", &[self.top]);
        self.script
            .say("# t.1 keeps all this until it is mounted elsewhere.", &[]);
        self.script.say("t fork", &[]);
        for _ in 1..self.tables.tables.len() {
            self.script.say("t fork", &[]);
        }
        for (place, table) in self.tables.tables.iter().enumerate() {
            let task = task_of(alloc, place)?;
            let name = table.name.as_str();
            self.script
                .say("# The task {} of {}.", &[task.as_str(), name]);
            self.script.say("{} unshare", &[task.as_str()]);
        }
        Ok(())
    }

    // Builds each mount that stands on a built one, as long as there are such.
    fn build_mounts(&mut self) -> Result<(), AllocError> {
        let count = self.tables.mounts.len();
        for _ in 0..count {
            let mut is_changed = false;
            for place in 0..count {
                is_changed |= self.build(place)?;
            }
            if !is_changed {
                break;
            }
        }
        self.leave_waiting();
        Ok(())
    }

    // Leaves out what stands on no built mount.
    fn leave_waiting(&mut self) {
        for mount in self.tables.mounts.iter_mut() {
            if mount.is_waiting() {
                mount.progress = Progress::Left;
                self.script
                    .skip("a mount on one that is left out", mount.text.as_str());
            }
        }
    }

    // Makes the root of each table the root of its task.
    fn pivot_all(&mut self) -> Result<(), AllocError> {
        for table in 0..self.tables.tables.len() {
            self.pivot(table)?;
        }
        self.top = "/";
        Ok(())
    }

    // Lists the mounts of each task.
    fn list_all(&mut self) -> Result<(), AllocError> {
        let alloc = self.script.alloc();
        for table in 0..self.tables.tables.len() {
            let task = task_of(alloc, table)?;
            self.script.say("{} mounts", &[task.as_str()]);
        }
        Ok(())
    }

    // Writes all of the script.
    fn write(&mut self) -> Result<(), AllocError> {
        self.leave_unsayable();
        self.devices = devices_of(&self.tables)?;
        self.groups = groups_of(&self.tables)?;
        self.tables.is_planned = false;
        self.tell_of_overlays();
        self.mount_filesystems()?;
        self.mount_groups()?;
        self.fork_tasks()?;
        self.build_mounts()?;
        self.pivot_all()?;
        self.settle_all()?;
        self.leave_groups()?;
        self.list_all()
    }
}

/// The script that leads to tables.
pub fn script_of(mut tables: Tables) -> Result<Converted, AllocError> {
    let alloc = tables.alloc();
    if tables.failed {
        return Err(AllocError);
    }
    tables.link();
    add_roots(&mut tables)?;
    stand(&mut tables);
    let mut building = Building {
        tables,
        devices: Devices::new(alloc),
        groups: Groups::new(alloc),
        script: Script::new(alloc, "mountinfo", "run"),
        fresh: 1 << 63,
        top: "/root",
    };
    building.write()?;
    Ok(Converted {
        written: building.script.end()?,
        tables: building.tables,
    })
}
