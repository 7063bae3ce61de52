//! Which filesystems tables show, and which directories each has to have.
use crate::tables::Tables;
use std::alloc::{AllocError, Global};
use std::collections::BTreeMap;
use vt_check::draft::Draft;
use vt_from::folders::Folders;
use vt_from::words::{joined, owned};

/// Where filesystems are mounted before a table's mounts show them.
pub const FILESYSTEMS: &str = "/fs";

/// The directory on which a pivot puts the old root.
pub const OLD_ROOT: &str = "/.old-root";

/// A filesystem.
#[derive(Drop)]
pub struct Device {
    /// The directories that it has to have, each with those above it.
    pub directories: Folders,
    /// The options of an overlay, with its layers where filesystems are mounted first.
    pub options: Option<String>,
}

/// The filesystems, by their numbers `MAJOR-MINOR`.
pub type Devices = BTreeMap<String, Device>;

impl Device {
    fn new(alloc: Global) -> Self {
        Device {
            directories: Folders::new(alloc),
            options: None,
        }
    }
}

// A filesystem has to have this directory.
fn need(alloc: Global, devices: &mut Devices, device: &str, path: &str) -> Result<(), AllocError> {
    if let Some(known) = devices.get_mut(device) {
        return known.directories.need(path);
    }
    let mut new = Device::new(alloc);
    new.directories.need(path)?;
    devices.insert(owned(alloc, device)?, new)?;
    Ok(())
}

// A mount needs its root, and the mount that it stands on its mount point.
fn need_of_mount(tables: &Tables, devices: &mut Devices, place: usize) -> Result<(), AllocError> {
    let alloc = tables.alloc();
    let Some(mount) = tables.mount(place) else {
        return Ok(());
    };
    need(alloc, devices, mount.device.as_str(), mount.root.as_str())?;
    if tables.is_table_root(place) {
        let old = joined(alloc, mount.root.as_str(), OLD_ROOT)?;
        need(alloc, devices, mount.device.as_str(), old.as_str())?;
    }
    let Some(on) = mount.stands_on else {
        return Ok(());
    };
    if let Some(path) = tables.directory(on, mount.point.as_str())?
        && let Some(parent) = tables.mount(on)
    {
        need(alloc, devices, parent.device.as_str(), path.as_str())?;
    }
    Ok(())
}

// Where a layer is: its filesystem, and the directory there.
fn layer_at(
    tables: &Tables,
    table: usize,
    path: &str,
) -> Result<Option<(String, String)>, AllocError> {
    let Some(on) = tables.reached(table, path) else {
        return Ok(None);
    };
    match (tables.directory(on, path)?, tables.mount(on)) {
        (Some(directory), Some(mount)) if mount.kind.as_str() != "overlay" => {
            let device = owned(tables.alloc(), mount.device.as_str())?;
            Ok(Some((device, directory)))
        }
        _ => Ok(None),
    }
}

// The layers of an overlay, each where it is: nothing unless there are two, and each can be said.
fn layers_of(tables: &Tables, place: usize) -> Result<Option<Vec<(String, String)>>, AllocError> {
    let mut all = Vec::new(tables.alloc());
    let Some(mount) = tables.mount(place) else {
        return Ok(None);
    };
    if mount.has_upper || mount.layers.is_empty() {
        return Ok(None);
    }
    for path in mount.layers.as_str().split(':') {
        let is_sayable = path.starts_with('/') && !path.contains(',');
        match layer_at(tables, mount.table, path)? {
            Some(layer) if is_sayable => all.push(layer)?,
            _ => return Ok(None),
        }
    }
    Ok((all.len() >= 2).then_some(all))
}

// The options of an overlay of these layers, where filesystems are mounted first.
fn options_of(alloc: Global, layers: &[(String, String)]) -> Result<String, AllocError> {
    let mut options = Draft::new(alloc);
    for (place, layer) in layers.iter().enumerate() {
        options.push(if place == 0 { "lowerdir=" } else { ":" });
        options.push(FILESYSTEMS);
        options.push_char('/');
        options.push(layer.0.as_str());
        if layer.1.as_str() != "/" {
            options.push(layer.1.as_str());
        }
    }
    options.end()
}

// Moves what an overlay has to have to its top layer, and each layer has to be there.
fn need_of_layers(
    alloc: Global,
    devices: &mut Devices,
    device: &str,
    layers: &[(String, String)],
) -> Result<(), AllocError> {
    let Some(top) = layers.first() else {
        return Ok(());
    };
    let mut wanted = Vec::new(alloc);
    if let Some(overlay) = devices.get_mut(device) {
        overlay.options = Some(options_of(alloc, layers)?);
        for directory in overlay.directories.all.keys() {
            wanted.push(joined(alloc, top.1.as_str(), directory.as_str())?)?;
        }
        overlay.directories.all.clear();
    }
    for path in &wanted {
        need(alloc, devices, top.0.as_str(), path.as_str())?;
    }
    for layer in layers {
        need(alloc, devices, layer.0.as_str(), layer.1.as_str())?;
    }
    Ok(())
}

// Finds the layers of an overlay, if they can be said.
fn find_layers(tables: &Tables, devices: &mut Devices, place: usize) -> Result<(), AllocError> {
    let Some(layers) = layers_of(tables, place)? else {
        return Ok(());
    };
    if let Some(mount) = tables.mount(place) {
        need_of_layers(
            tables.alloc(),
            devices,
            mount.device.as_str(),
            layers.as_slice(),
        )?;
    }
    Ok(())
}

/// The filesystems of all mounts that can be said.
pub fn devices_of(tables: &Tables) -> Result<Devices, AllocError> {
    let mut devices = BTreeMap::new(tables.alloc());
    for (place, mount) in tables.mounts.iter().enumerate() {
        if mount.is_waiting() {
            need_of_mount(tables, &mut devices, place)?;
        }
    }
    for (place, mount) in tables.mounts.iter().enumerate() {
        if mount.is_waiting() && mount.kind.as_str() == "overlay" {
            find_layers(tables, &mut devices, place)?;
        }
    }
    Ok(devices)
}

/// Whether an overlay is said as one, and not as a plain filesystem.
pub fn is_said_as_overlay(devices: &Devices, device: &str) -> bool {
    match devices.get(device) {
        Some(device) => device.options.is_some(),
        None => false,
    }
}
