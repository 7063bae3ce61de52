//! The mounts that come, go and change in a call.
use crate::mounts::{find, has_namespace, parent};
use crate::report::{Heads, Section};
use serde_json::Value;
use std::alloc::{AllocError, Global};
use vt_check::check::Format;
use vt_check::draft::Draft;
use vt_location::MountId;
use vt_request::CallKind;
use vt_show::cells::{Cell, count_or_nothing, object_of};
use vt_show::mounts::parts_of;
use vt_show::names::{push_flags, push_mount, push_type};
use vt_show::picture::{MountShown, Picture};

static HEADS: Heads = Heads {
    title: "MOUNTS THAT COME (+), GO (-) AND CHANGE (~)",
    kind: "change",
    words: &["", "MOUNT", "TARGET", "OPTIONS", "PROPAGATION", "WHY"],
    members: &["by", "group", "master", "reason", "target", "was", "why"],
};

/// The mounts before a call and after it, and the one that it is about: on which another is put, or which goes.
#[derive(Clone, Copy)]
pub struct Sides<'a> {
    pub call: CallKind,
    pub before: &'a Picture,
    pub after: &'a Picture,
    pub aim: Option<MountId>,
}

/// Why a mount comes or goes, or that it has changed.
#[derive(Clone, Copy)]
enum Why {
    Unknown,
    Asked,
    /// The mount on which it stands comes or goes as well.
    StandsOn,
    /// The mount on which it stands receives the event.
    Receives,
    NamespaceBegins,
    NamespaceEnds,
    PointRemoved,
    Changed,
}

impl Why {
    // The word of it in JSON.
    fn word(self) -> &'static str {
        match self {
            Why::Unknown => "",
            Why::Asked => "asked",
            Why::StandsOn => "stands_on",
            Why::Receives => "receives",
            Why::NamespaceBegins => "namespace_begins",
            Why::NamespaceEnds => "namespace_ends",
            Why::PointRemoved => "mount_point_removed",
            Why::Changed => "changed",
        }
    }
}

// Why a mount is listed, and the mount that is named for that: on which it stands, or as it was.
#[derive(Clone, Copy)]
struct Reason<'a> {
    why: Why,
    other: Option<&'a MountShown>,
}

// A reason that names no other mount.
fn alone<'a>(why: Why) -> Reason<'a> {
    Reason { why, other: None }
}

// Why a mount comes or goes that stands on another one: that comes or goes as well, is meant, or receives.
fn why_by_parent<'a>(
    parent: &'a MountShown,
    other_side: &Picture,
    aim: Option<MountId>,
) -> Reason<'a> {
    let why = if find(other_side, parent.mount.number).is_none() {
        Why::StandsOn
    } else if Some(parent.mount.number) == aim {
        Why::Asked
    } else {
        Why::Receives
    };
    Reason {
        why,
        other: Some(parent),
    }
}

// Why a mount comes.
fn why_it_comes<'a>(sides: Sides<'a>, new: &MountShown) -> Reason<'a> {
    if !has_namespace(sides.before, new.mount.namespace) {
        return alone(Why::NamespaceBegins);
    }
    match parent(sides.after, new) {
        Some(parent) => why_by_parent(parent, sides.before, sides.aim),
        None => alone(Why::Unknown),
    }
}

// Why a mount goes.
fn why_it_goes<'a>(sides: Sides<'a>, old: &MountShown) -> Reason<'a> {
    if !has_namespace(sides.after, old.mount.namespace) {
        return alone(Why::NamespaceEnds);
    }
    if !matches!(sides.call, CallKind::Umount | CallKind::Lazy) {
        return alone(Why::PointRemoved);
    }
    if Some(old.mount.number) == sides.aim {
        return alone(Why::Asked);
    }
    match parent(sides.before, old) {
        Some(parent) => why_by_parent(parent, sides.after, None),
        None => alone(Why::Unknown),
    }
}

// Appends what a mount was that has changed.
fn push_what_it_was(text: &mut Draft, old: &MountShown, new: &MountShown) {
    let mut mark = "was ";
    if old.path() != new.path() {
        text.push(mark);
        text.push(old.path());
        mark = ", ";
    }
    if old.mount.flags != new.mount.flags {
        text.push(mark);
        push_flags(text, old.mount.flags);
        mark = ", ";
    }
    if old.kind != new.kind {
        text.push(mark);
        push_type(text, old.kind);
    }
}

// Appends a reason that names another mount, in words.
fn push_by(text: &mut Draft, why: Why, sign: &str, shown: &MountShown, other: &MountShown) {
    match why {
        Why::StandsOn => {
            text.push("stands on ");
            push_mount(text, other.place);
            text.push(if sign == "+" {
                ", which comes"
            } else {
                ", which goes"
            });
        }
        Why::Receives => {
            push_mount(text, other.place);
            text.push(" receives as ");
            push_type(text, other.kind);
        }
        Why::Changed => push_what_it_was(text, other, shown),
        _ => text.push("asked for"),
    }
}

// A reason in words.
fn words_of(alloc: Global, sign: &str, shown: &MountShown, reason: Reason<'_>) -> Draft {
    let mut text = Draft::new(alloc);
    match (reason.why, reason.other) {
        (why, Some(other)) => push_by(&mut text, why, sign, shown, other),
        (Why::Asked, None) => text.push("asked for"),
        (Why::NamespaceBegins, None) => text.push("copied into the new namespace"),
        (Why::NamespaceEnds, None) => text.push("its namespace ends"),
        (Why::PointRemoved, None) => text.push("its mount point is removed"),
        _ => {}
    }
    text
}

// Puts a text, if there is one.
fn put_word(section: &mut Section, member: &str, word: &str) {
    if !word.is_empty() {
        section.put_text(member, word);
    }
}

// The mount point, the flags and the type of a mount as it was.
fn old_value(alloc: Global, old: &MountShown) -> Result<Value, AllocError> {
    let (word, group, master) = parts_of(old.kind);
    let members = ["target", "options", "propagation", "group", "master"];
    let cells = [
        Cell::Root(&old.target),
        Cell::Flags(old.mount.flags),
        Cell::Text(word),
        count_or_nothing(group),
        count_or_nothing(master),
    ];
    object_of(alloc, &members, &cells).end()
}

// The name of a mount.
fn name_value(alloc: Global, mount: &MountShown) -> Result<Value, AllocError> {
    let mut name = Draft::new(alloc);
    push_mount(&mut name, mount.place);
    Ok(Value::String(name.end()?))
}

// Puts the parts of a reason: its word, the mount that is named for it, and what a mount was that has changed.
fn put_reason(section: &mut Section, alloc: Global, reason: Reason<'_>) {
    put_word(section, "reason", reason.why.word());
    match (reason.why, reason.other) {
        (Why::StandsOn | Why::Receives, Some(other)) if section.is_json() => {
            section.put_value("by", name_value(alloc, other));
        }
        (Why::Changed, Some(old)) if section.is_json() => {
            section.put_value("was", old_value(alloc, old));
        }
        _ => {}
    }
}

// Adds a mount, and why it is listed, if there is a reason.
fn add_mount(
    section: &mut Section,
    alloc: Global,
    sign: &str,
    shown: &MountShown,
    reason: Reason<'_>,
) {
    section.add_text("change", sign);
    section.add_mount("mount", shown.place);
    section.tell(&[Cell::Text(shown.path())]);
    section.put("target", &Cell::Root(&shown.target));
    section.add("options", &Cell::Flags(shown.mount.flags));
    section.tell_type(shown.kind);
    let (word, group, master) = parts_of(shown.kind);
    section.put_text("propagation", word);
    section.put("group", &count_or_nothing(group));
    section.put("master", &count_or_nothing(master));
    put_reason(section, alloc, reason);
    let why = words_of(alloc, sign, shown, reason);
    if why.len() > 0 {
        section.add("why", &Cell::whole(&why));
    }
    section.end_row();
}

// Adds the mounts that go.
fn add_old(section: &mut Section, alloc: Global, sides: Sides<'_>) {
    for old in &sides.before.mounts {
        if find(sides.after, old.mount.number).is_none() {
            add_mount(section, alloc, "-", old, why_it_goes(sides, old));
        }
    }
}

// Adds a mount, if it comes or has changed.
fn add_new(section: &mut Section, alloc: Global, sides: Sides<'_>, new: &MountShown) {
    match find(sides.before, new.mount.number) {
        Some(old) if old.mount == new.mount => {}
        Some(old) => {
            let reason = Reason {
                why: Why::Changed,
                other: Some(old),
            };
            add_mount(section, alloc, "~", new, reason);
        }
        None => add_mount(section, alloc, "+", new, why_it_comes(sides, new)),
    }
}

/// Appends the mounts that come, go and change.
pub fn push_changes(alloc: Global, format: Format, sides: Sides<'_>, text: &mut Draft) {
    let mut section = Section::new(alloc, format, &HEADS);
    add_old(&mut section, alloc, sides);
    for new in &sides.after.mounts {
        add_new(&mut section, alloc, sides, new);
    }
    section.write(b"", text);
}
