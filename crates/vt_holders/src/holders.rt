//! Who holds what is busy: tasks with roots, directories and open files on a mount, and mounts that stand there.
use crate::earlier::Earlier;
use vt_causes::{Held, Use};
use vt_location::{Location, MountId, NamespaceId};
use vt_ns::World;
use vt_request::{Access, CallKind, MountPlace, TaskName, TypeLine};
use vt_sections::mounts::{find, parent, receives};
use vt_sections::report::{Heads, Section};
use vt_show::cells::Cell;
use vt_show::names;
use vt_show::picture::{MountShown, Picture};

pub static HEADS: Heads = Heads {
    title: "WHO HOLDS IT",
    kind: "holder",
    words: &["BUSY", "HELD BY", "AS", "AT"],
    members: &["access", "busy", "descriptor", "line", "mount", "task"],
};

/// A world in which something is busy.
#[derive(Clone, Copy)]
pub struct Look<'a, 't> {
    pub world: &'a World,
    pub picture: &'a Picture,
    /// What tasks have on mounts.
    pub uses: &'a [Use<'t>],
    /// What the lines before opened and mounted.
    pub earlier: &'a Earlier<'t>,
    /// The number of the line that is explained.
    pub line: u64,
    pub call: CallKind,
    /// The namespace whose mounts alone keep a name from being removed, or none where all do.
    pub namespace: Option<NamespaceId>,
}

// Adds an open file: its number, its access, and the line that opened it.
fn add_file(look: &Look<'_, '_>, section: &mut Section, task: &TaskName, held: (u8, Access)) {
    let (number, access) = (held.0, names::access(held.1));
    let descriptor = u64::from(number);
    match look.earlier.line_of(task, number, look.line) {
        Some(line) => {
            section.tell(&[
                Cell::Text("open "),
                Cell::Number(descriptor),
                Cell::Text(" "),
                Cell::Text(access),
                Cell::Text(", line "),
                Cell::Number(line),
            ]);
            section.put("line", &Cell::Number(line));
        }
        None => section.tell(&[
            Cell::Text("open "),
            Cell::Number(descriptor),
            Cell::Text(" "),
            Cell::Text(access),
        ]),
    }
    section.put_text("as", "file");
    section.put("descriptor", &Cell::Number(descriptor));
    section.put_text("access", access);
}

/// Ends a row by what a task has, of an open file its number, its access, and the line that opened it.
pub fn add_use(look: &Look<'_, '_>, section: &mut Section, one: &Use<'_>) {
    section.tell(&[Cell::Task(&one.task.name)]);
    section.put("task", &Cell::Task(&one.task.name));
    match one.held {
        Held::Root => section.add_text("as", "root"),
        Held::Directory => section.add_text("as", "directory"),
        Held::File(number, access) => {
            add_file(look, section, &one.task.name, (number, access));
        }
    }
    section.add_place(look.world, "at", one.at);
    section.end_row();
}

/// Ends a row by a mount.
pub fn add_mount(look: &Look<'_, '_>, section: &mut Section, shown: &MountShown) {
    section.add_mount("mount", shown.place);
    section.add_text("as", "mount");
    section.tell_text(shown.path());
    section.put_place(look.world, "at", shown.mount.root_location());
    section.end_row();
}

// Adds what tasks have on a mount: all, or the files that may be written to.
fn add_uses(look: &Look<'_, '_>, section: &mut Section, busy: &MountShown, written: bool) {
    for one in look.uses {
        let counts = match one.held {
            Held::File(_, access) => !written || access.writes(),
            _ => !written,
        };
        if counts && one.at.mount == busy.mount.number {
            section.add_mount("busy", busy.place);
            add_use(look, section, one);
        }
    }
}

// Adds the mounts of a list, which stand on what is busy: a mount, or else a name.
fn add_mounts(
    look: &Look<'_, '_>,
    section: &mut Section,
    busy: Option<MountPlace>,
    ids: &[MountId],
) {
    for id in ids {
        if let Some(shown) = find(look.picture, *id) {
            if look.namespace.is_none() || look.namespace == shown.mount.namespace {
                match busy {
                    Some(place) => section.add_mount("busy", place),
                    None => section.tell_text("the name"),
                }
                add_mount(look, section, shown);
            }
        }
    }
}

// The type of the mount that one stands on.
fn kind_below(look: &Look<'_, '_>, shown: &MountShown) -> TypeLine {
    match parent(look.picture, shown) {
        Some(parent) => parent.kind,
        None => TypeLine::Private,
    }
}

// Adds who holds the copies of a mount that would go with it: those without children that stand where it does, and of
// which the parents receive from the group of its own.
fn add_copies(look: &Look<'_, '_>, section: &mut Section, busy: &MountShown) {
    let (Some(point), TypeLine::Shared { group, .. }) = (
        busy.mount.mount_point,
        kind_below(look, busy),
    ) else {
        return;
    };
    let Ok(ids) = look.world.all_mounts().mounts_on(point.node) else {
        section.fail();
        return;
    };
    for id in ids.as_slice() {
        if let Some(copy) = find(look.picture, *id) {
            let is_free = *id != busy.mount.number && !look.world.all_mounts().has_child(*id);
            if is_free && receives(look.picture, kind_below(look, copy), group) {
                add_uses(look, section, copy, false);
            }
        }
    }
}

/// Adds who holds what is busy where a path of a call ends, if it leads somewhere: the mount that is unmounted or would
/// become read-only, or a name at which mounts stand.
pub fn add_holders(look: &Look<'_, '_>, section: &mut Section, end: Option<Location>) {
    let Some(at) = end else {
        return;
    };
    match (look.call, find(look.picture, at.mount)) {
        (CallKind::Umount, Some(busy)) => {
            let children = look.world.all_mounts().children(busy.mount.number);
            add_mounts(look, section, Some(busy.place), children);
            add_uses(look, section, busy, false);
            add_copies(look, section, busy);
        }
        (CallKind::Remount, Some(busy)) => add_uses(look, section, busy, true),
        _ => match look.world.all_mounts().mounts_on(at.node) {
            Ok(ids) => add_mounts(look, section, None, ids.as_slice()),
            Err(_) => section.fail(),
        },
    }
}
