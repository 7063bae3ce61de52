//! The mounts of a namespace: as a tree, each behind the one that it stands on, and as objects of JSON.
use crate::cells::{Cell, count_or_nothing, push_cell, push_line};
use crate::columns::Table;
use crate::names::filesystem_type;
use crate::picture::MountShown;
use std::alloc::Global;
use vt_check::draft::Draft;
use vt_location::MountId;
use vt_mount::Mounts;
use vt_ns::World;
use vt_request::TypeLine;

static HEADS: [&str; 6] = [
    "MOUNT",
    "TARGET",
    "SOURCE",
    "FSTYPE",
    "OPTIONS",
    "PROPAGATION",
];

static MEMBERS: [&str; 11] = [
    "filesystem",
    "group",
    "master",
    "mount",
    "namespace",
    "options",
    "parent",
    "propagation",
    "root",
    "target",
    "type",
];

// A mount that waits to be laid out.
#[derive(Clone, Copy)]
struct Waiting {
    id: MountId,
    // How many mounts there are from its parent up.
    depth: usize,
    // Whether it is the last child of its parent.
    is_last: bool,
}

// The mounts of a namespace one after the other: each before its children, which are in the order of their numbers.
#[derive(Drop)]
struct MountWalk<'a> {
    mounts: &'a Mounts,
    waiting: Vec<Waiting>,
    // Whether the last mount is the last child of its parent, behind the same of each that it stands on.
    path: Vec<bool>,
    failed: bool,
}

impl<'a> MountWalk<'a> {
    // Before the root mount of these.
    fn new(alloc: Global, mounts: &'a Mounts, all: &[MountShown]) -> Self {
        let mut walk = MountWalk {
            mounts,
            waiting: Vec::new(alloc),
            path: Vec::new(alloc),
            failed: false,
        };
        for shown in all.iter().rev() {
            if shown.parent.is_none() {
                walk.push(shown.mount.number, 0, true);
            }
        }
        walk
    }

    // A mount waits.
    fn push(&mut self, id: MountId, depth: usize, is_last: bool) {
        let waiting = Waiting { id, depth, is_last };
        self.failed |= self.waiting.push(waiting).is_err();
    }

    // The next mount, or nothing behind the last one.
    fn next(&mut self) -> Option<MountId> {
        let next = self.waiting.pop()?;
        self.path.truncate(next.depth.saturating_sub(1));
        if next.depth > 0 {
            self.failed |= self.path.push(next.is_last).is_err();
        }
        let depth = next.depth.saturating_add(1);
        let mut is_last = true;
        for child in self.mounts.children(next.id).iter().rev() {
            self.push(*child, depth, is_last);
            is_last = false;
        }
        Some(next.id)
    }
}

// Adds the row of a mount, which is a last child or not, as each of those is that it stands on.
fn add_mount(table: &mut Table, path: &[bool], shown: &MountShown) {
    table.add(&Cell::Mount(shown.place));
    if let Some((is_last, above)) = path.split_last() {
        for one in above {
            table.text.push(if *one { "  " } else { "| " });
        }
        table.text.push(if *is_last { "`-" } else { "|-" });
    }
    table.add(&Cell::Text(shown.path()));
    let source = Cell::Filesystem(shown.is_overlay, Some(shown.filesystem));
    push_cell(&mut table.text, &source);
    table.add(&Cell::Root(&shown.root));
    table.add_row(&[
        Cell::Text(filesystem_type(shown.is_overlay)),
        Cell::Flags(shown.mount.flags),
        Cell::Type(shown.kind),
    ]);
}

// A mount as it is shown, among those of its namespace.
fn shown_of(mounts: &[MountShown], id: MountId) -> Option<&MountShown> {
    match mounts.binary_search_by_key(&id.count, |shown| shown.mount.number.count) {
        Ok(index) => mounts.get(index),
        Err(_) => None,
    }
}

// Adds the mounts of a namespace.
fn add_mounts(table: &mut Table, walk: &mut MountWalk<'_>, mounts: &[MountShown]) {
    for _ in mounts {
        let Some(id) = walk.next() else {
            break;
        };
        if let Some(shown) = shown_of(mounts, id) {
            add_mount(table, &walk.path, shown);
        }
    }
    if walk.failed {
        table.text.fail();
    }
}

/// Appends a namespace, of which these are the mounts, with a table of them.
pub fn push_namespace(world: &World, text: &mut Draft, mounts: &[MountShown]) {
    if let Some(first) = mounts.first() {
        text.push("\nNAMESPACE ");
        text.push_number(first.place.namespace as u64);
        let mut table = Table::new(world.alloc(), &HEADS);
        let mut walk = MountWalk::new(world.alloc(), world.all_mounts(), mounts);
        add_mounts(&mut table, &mut walk, mounts);
        table.write(text);
    }
}

/// A type in parts: its word, the peer group of the mount, and the group from which the mount receives.
pub fn parts_of(kind: TypeLine) -> (&'static str, Option<usize>, Option<usize>) {
    match kind {
        TypeLine::Shared { group, master } => ("shared", Some(group), master),
        TypeLine::Slave { master } => ("slave", None, Some(master)),
        TypeLine::Private => ("private", None, None),
        TypeLine::Unbindable => ("unbindable", None, None),
    }
}

/// Appends a mount as an object of JSON and a newline.
pub fn push_mount_object(alloc: Global, text: &mut Draft, shown: &MountShown) {
    let (word, group, master) = parts_of(shown.kind);
    let cells = [
        Cell::count(shown.filesystem),
        count_or_nothing(group),
        count_or_nothing(master),
        Cell::Mount(shown.place),
        Cell::count(shown.place.namespace),
        Cell::Flags(shown.mount.flags),
        match shown.parent {
            Some(parent) => Cell::Mount(parent),
            None => Cell::Nothing,
        },
        Cell::Text(word),
        Cell::Root(&shown.root),
        Cell::Root(&shown.target),
        Cell::Text(filesystem_type(shown.is_overlay)),
    ];
    push_line(alloc, text, "mount", &MEMBERS, &cells);
}
