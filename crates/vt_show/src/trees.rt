//! The trees of the filesystems.
use crate::cells::{Cell, push_line};
use crate::columns::Table;
use crate::names::{filesystem_type, kind, or_root, push_name};
use crate::picture::Picture;
use crate::tree_walk::{Found, TreeWalk};
use std::alloc::Global;
use vt_check::draft::Draft;
use vt_location::NodeRef;
use vt_node::{Kind, Node};
use vt_ns::World;

static HEADS: [&str; 5] = ["MODE", "UID", "GID", "SIZE", "NAME"];

static MEMBERS: [&str; 7] = ["filesystem", "gid", "type", "mode", "path", "size", "uid"];

// Adds the row of an object: its name behind two spaces for each name above it, and what a symlink leads to. An overlay
// shows no mark of a layer.
fn add_object(table: &mut Table, found: &Found, node: &Node, is_overlay: bool) {
    let attr = node.attr();
    table.add_words(&[
        Cell::Mode(node.kind(), attr.mode),
        Cell::Number(u64::from(attr.uid)),
        Cell::Number(u64::from(attr.gid)),
        Cell::count(node.bytes().len()),
    ]);
    table.text.push_times(' ', found.depth.saturating_mul(2));
    let name = found.path.as_str().get(found.name..).unwrap_or_default();
    table.text.push(or_root(name));
    if node.kind() == Kind::Symlink {
        table.text.push(" -> ");
        push_name(&mut table.text, node.bytes());
    }
    let is_marked = node.is_opaque() && !is_overlay;
    table.add(&Cell::Text(if is_marked { " (opaque)" } else { "" }));
    table.end_row();
}

// Appends an object of a filesystem of this number as an object of JSON and a newline.
fn push_object(alloc: Global, text: &mut Draft, filesystem: usize, found: &Found, node: &Node) {
    let attr = node.attr();
    let cells = [
        Cell::count(filesystem),
        Cell::Number(u64::from(attr.gid)),
        Cell::Text(kind(node.kind())),
        Cell::Octal(attr.mode.bits(), 4),
        Cell::Text(or_root(found.path.as_str())),
        Cell::count(node.bytes().len()),
        Cell::Number(u64::from(attr.uid)),
    ];
    push_line(alloc, text, "object", &MEMBERS, &cells);
}

// Appends the tree of a filesystem of this number, as a table or as objects.
fn push_tree(text: &mut Draft, world: &World, root: NodeRef, number: usize, as_objects: bool) {
    let is_overlay = world.store().is_overlay(root.filesystem);
    let mut table = Table::new(world.alloc(), &HEADS);
    let mut walk = TreeWalk::new(world, root);
    for _ in 0..u64::MAX {
        let Some(found) = walk.next() else {
            break;
        };
        match world.store().object(found.node) {
            Some(node) if as_objects => push_object(world.alloc(), text, number, &found, node),
            Some(node) => add_object(&mut table, &found, node, is_overlay),
            None => {}
        }
    }
    if walk.failed {
        text.fail();
    }
    if !as_objects {
        text.push("\nFILESYSTEM ");
        text.push(filesystem_type(is_overlay));
        text.push_char(':');
        text.push_number(number as u64);
        table.write(text);
    }
}

/// Appends the trees of the filesystems that mounts show, as tables or as objects.
pub fn push_trees(text: &mut Draft, world: &World, picture: &Picture, as_objects: bool) {
    for id in &picture.filesystems {
        if let (Some(root), Some(number)) = (world.store().root(*id), picture.number_of(*id)) {
            push_tree(text, world, root, number, as_objects);
        }
    }
}
