//! Overlays: who mounted them, and their layers.
use crate::cells::{Cell, object_of, push_cells, root_value};
use crate::picture::{MountShown, Picture};
use crate::places::root_of;
use crate::tasks::{push_credentials, push_told};
use serde_json::Value;
use std::alloc::AllocError;
use vt_check::draft::Draft;
use vt_check::object::{List, Object};
use vt_layered::Layered;
use vt_location::{Mount, NodeRef};
use vt_ns::World;

/// Where the directory of a layer is in its filesystem: where a mount of the directory would begin.
fn layer_root(
    world: &World,
    mount: &Mount,
    directory: NodeRef,
) -> Result<Option<String>, AllocError> {
    let mount = Mount {
        root: directory,
        ..*mount
    };
    root_of(world, &mount)
}

/// Appends the directory of a layer of an overlay that a mount shows: its filesystem, and where in it.
pub fn push_layer(
    text: &mut Draft,
    world: &World,
    picture: &Picture,
    mount: &Mount,
    directory: NodeRef,
) {
    let number = picture.number_of(directory.filesystem);
    match layer_root(world, mount, directory) {
        Ok(root) => push_cells(text, &[Cell::Filesystem(false, number), Cell::Root(&root)]),
        Err(_) => text.fail(),
    }
}

// Appends an overlay that a mount shows: who mounted it, and its layers from the top.
fn push_overlay(
    text: &mut Draft,
    world: &World,
    picture: &Picture,
    shown: &MountShown,
    overlay: &Layered,
) {
    text.push("\nOVERLAY overlay:");
    text.push_number(shown.filesystem as u64);
    text.push_char('\n');
    push_credentials(text, "mounter", overlay.mounter());
    let mut place: u64 = 0;
    for layer in overlay.layers() {
        place = place.saturating_add(1);
        let mut told = Draft::new(world.alloc());
        let directory = layer.directory.node_ref();
        push_layer(&mut told, world, picture, &shown.mount, directory);
        let words = [Cell::whole(&told)];
        push_told(text, "layer", Some(place), &words);
    }
}

/// The directory of a layer, as an object.
pub fn layer_value(
    world: &World,
    picture: &Picture,
    mount: &Mount,
    directory: NodeRef,
) -> Result<Value, AllocError> {
    let alloc = world.alloc();
    let root = layer_root(world, mount, directory)?;
    let mut object = Object::new(alloc);
    match picture.number_of(directory.filesystem) {
        Some(number) => object.put_number("filesystem", number as u64),
        None => object.put("filesystem", Ok(Value::Null)),
    }
    object.put("path", root_value(alloc, &root));
    object.end()
}

// Appends an overlay that a mount shows as an object of JSON and a newline.
fn push_overlay_object(
    text: &mut Draft,
    world: &World,
    picture: &Picture,
    shown: &MountShown,
    overlay: &Layered,
) {
    let alloc = world.alloc();
    let mut layers = List::new(alloc);
    for layer in overlay.layers() {
        let directory = layer.directory.node_ref();
        layers.push(layer_value(world, picture, &shown.mount, directory));
    }
    let cred = overlay.mounter();
    let cells = [
        Cell::Capabilities(cred.caps()),
        Cell::Number(u64::from(cred.gid())),
        Cell::Ids(cred.groups()),
        Cell::Number(u64::from(cred.uid())),
    ];
    let mounter = object_of(alloc, &["capabilities", "gid", "groups", "uid"], &cells);
    let mut object = Object::of_kind(alloc, "overlay");
    object.put("layers", layers.end());
    object.put("mounter", mounter.end());
    object.put_number("overlay", shown.filesystem as u64);
    object.push_line(text);
}

/// Appends the overlays that mounts show, as text or as objects.
pub fn push_overlays(text: &mut Draft, world: &World, picture: &Picture, as_objects: bool) {
    for id in &picture.filesystems {
        if let (Some(overlay), Some(shown)) = (world.store().overlay(*id), picture.mount_of(*id)) {
            if as_objects {
                push_overlay_object(text, world, picture, shown, overlay);
            } else {
                push_overlay(text, world, picture, shown, overlay);
            }
        }
    }
}
