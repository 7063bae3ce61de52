//! Who mounted an overlay, and which bits of an object in it count for its mounter.
use crate::holders::Look;
use vt_location::Location;
use vt_sections::report::{Heads, Section};
use vt_show::cells::Cell;
use vt_show::tasks::ids_of;

pub static HEADS: Heads = Heads {
    title: "WHO MOUNTED IT",
    kind: "mounter",
    words: &[
        "OVERLAY",
        "MOUNTED BY",
        "IDS",
        "CAPABILITIES",
        "AT",
        "MOUNTER",
    ],
    members: &["line", "mounter", "overlay", "task"],
};

/// Adds who mounted the overlay of an object, if there is an object and it is in one: the task and the line, and which
/// bits of the object count for it.
pub fn add_mounter(look: &Look<'_, '_>, section: &mut Section, at: Option<Location>) {
    let Some(at) = at else {
        return;
    };
    let id = at.node.filesystem;
    let Some(overlay) = look.world.store().overlay(id) else {
        return;
    };
    let cred = overlay.mounter();
    section.add_overlay(look.picture.number_of(id));
    match look.earlier.mounter_of(id, look.line) {
        Some((task, line)) => {
            section.tell(&[Cell::Task(task), Cell::Text(", line "), Cell::Number(line)]);
            section.put("task", &Cell::Task(task));
            section.put("line", &Cell::Number(line));
        }
        None => section.tell(&[Cell::Nothing]),
    }
    section.tell(&ids_of(cred));
    section.put("uid", &Cell::Number(u64::from(cred.uid())));
    section.put("gid", &Cell::Number(u64::from(cred.gid())));
    section.put("groups", &Cell::Ids(cred.groups()));
    section.add("capabilities", &Cell::Capabilities(cred.caps()));
    section.add_place(look.world, "at", at);
    if let Some(node) = look.world.store().object(at.node) {
        section.add_rights("mounter", cred, &node.attr(), node.kind());
    }
    section.end_row();
}
