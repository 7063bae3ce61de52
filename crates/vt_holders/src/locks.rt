//! Which overlay locks an object, by which layer, and what keeps the overlay in use: mounts that show it, and tasks on a
//! detached mount of it.
use crate::holders::{Look, add_mount, add_use};
use vt_check::draft::Draft;
use vt_location::{Location, Mount, NodeRef};
use vt_sections::report::{Heads, Section};
use vt_show::cells::Cell;
use vt_show::overlays::{layer_value, push_layer};
use vt_show::places::place_of;
use vt_show::tree_walk::push_path_to;

pub static HEADS: Heads = Heads {
    title: "WHO LOCKS IT",
    kind: "lock",
    words: &["LOCKED", "OVERLAY", "LAYER", "HELD BY", "AS", "AT"],
    members: &["access", "descriptor", "line", "mount", "overlay", "task"],
};

// Whether an object lies under a directory of its filesystem.
fn lies_under(
    look: &Look<'_, '_>,
    section: &mut Section,
    at: Location,
    directory: NodeRef,
) -> bool {
    if directory.filesystem != at.node.filesystem {
        return false;
    }
    let mut path = Draft::new(look.world.alloc());
    let lies = push_path_to(look.world, directory, at.node, &mut path);
    if path.is_failed() {
        section.fail();
    }
    lies
}

// Adds a layer of an overlay that a mount shows: its place from the top, and its directory.
fn add_layer(
    look: &Look<'_, '_>,
    section: &mut Section,
    place: u64,
    mount: &Mount,
    directory: NodeRef,
) {
    let world = look.world;
    if section.is_json() {
        let directory = layer_value(world, look.picture, mount, directory);
        section.put("layer", &Cell::Number(place));
        return section.put_value("directory", directory);
    }
    let mut layer = Draft::new(world.alloc());
    push_layer(&mut layer, world, look.picture, mount, directory);
    section.tell(&[Cell::Number(place), Cell::Text(" "), Cell::whole(&layer)]);
}

// Begins a row, if a mount shows an overlay that locks an object: the object, and the highest layer that holds it. Says
// whether it does.
fn add_lock(look: &Look<'_, '_>, section: &mut Section, at: Location, mount: &Mount) -> bool {
    let id = mount.root.filesystem;
    let Some(overlay) = look.world.store().overlay(id) else {
        return false;
    };
    let mut place: u64 = 0;
    for layer in overlay.layers() {
        place = place.saturating_add(1);
        let directory = layer.directory.node_ref();
        if lies_under(look, section, at, directory) {
            section.add_place(look.world, "locked", at);
            section.add_overlay(look.picture.number_of(id));
            add_layer(look, section, place, mount, directory);
            return true;
        }
    }
    false
}

/// Adds the overlays that lock an object, each with what keeps it in use.
pub fn add_locks(look: &Look<'_, '_>, section: &mut Section, at: Location) {
    for shown in &look.picture.mounts {
        if add_lock(look, section, at, &shown.mount) {
            add_mount(look, section, shown);
        }
    }
    for one in look.uses {
        if place_of(look.world, one.at.mount).is_none() {
            if let Some(mount) = look.world.all_mounts().get(one.at.mount) {
                if add_lock(look, section, at, &mount) {
                    add_use(look, section, one);
                }
            }
        }
    }
}
