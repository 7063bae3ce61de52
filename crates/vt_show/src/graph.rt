//! The mounts of each namespace as a tree, and who receives from whom, as a graph of Graphviz or of Mermaid.
use crate::cells::{Cell, push_cell};
use crate::names;
use crate::picture::{MountShown, Picture, split_first};
use crate::places::namespace_number;
use vt_check::draft::Draft;
use vt_ns::World;
use vt_request::PeerLine;
use vt_tasks::Task;

/// How the parts of a graph are written. In a form `{}` stands for what is drawn; groups and mounts are named by
/// numbers.
pub struct Syntax {
    head: &'static str,
    foot: &'static str,
    // A namespace by its number, with a text between both, and its end behind its mounts.
    namespace: [&'static str; 2],
    namespace_end: &'static str,
    // A mount by its number, with a text between both.
    mount: [&'static str; 2],
    // A group twice.
    group: &'static str,
    // From a mount to one that stands on it.
    stands: &'static str,
    // Between a mount and its group, from a group to a mount, and from a group to a group.
    member: &'static str,
    slave: &'static str,
    slave_group: &'static str,
    // What stands in a text for characters that it cannot have.
    marks: &'static [(char, &'static str)],
}

/// The syntax of Graphviz.
pub static DOT: Syntax = Syntax {
    head: "digraph vtree {\n  rankdir=LR;\n  node [shape=box];\n",
    foot: "}\n",
    namespace: ["  subgraph cluster_{} {\n    label=\"", "\";\n"],
    namespace_end: "  }\n",
    mount: ["    \"{}\" [label=\"", "\"];\n"],
    group: "  \"group {}\" [shape=ellipse, label=\"group {}\"];\n",
    stands: "    \"{}\" -> \"{}\" [arrowhead=none, color=gray];\n",
    member: "  \"{}\" -> \"group {}\" [dir=both, color=blue];\n",
    slave: "  \"group {}\" -> \"{}\" [color=blue];\n",
    slave_group: "  \"group {}\" -> \"group {}\" [color=blue];\n",
    marks: &[('\n', "\\n"), ('"', "\\\""), ('\\', "\\\\")],
};

/// The syntax of Mermaid.
pub static MERMAID: Syntax = Syntax {
    head: "flowchart LR\n",
    foot: "",
    namespace: ["  subgraph n{}[\"", "\"]\n"],
    namespace_end: "  end\n",
    mount: ["    m{}[\"", "\"]\n"],
    group: "  g{}([\"group {}\"])\n",
    stands: "    m{} --- m{}\n",
    member: "  m{} <-.-> g{}\n",
    slave: "  g{} -.-> m{}\n",
    slave_group: "  g{} -.-> g{}\n",
    marks: &[
        ('\n', "<br/>"),
        ('"', "#quot;"),
        ('#', "#35;"),
        ('&', "#amp;"),
        ('<', "#lt;"),
        ('>', "#gt;"),
    ],
};

// Appends a form with these parts in the places of its `{}`.
fn push_form(text: &mut Draft, form: &str, parts: &[Cell<'_>]) {
    let mut rest = form;
    for part in parts {
        if let Some((before, after)) = rest.split_once("{}") {
            text.push(before);
            push_cell(text, part);
            rest = after;
        }
    }
    text.push(rest);
}

// What stands for a character in a text, if it cannot stand there itself.
fn mark_of(syntax: &Syntax, character: char) -> Option<&'static str> {
    for (other, mark) in syntax.marks {
        if *other == character {
            return Some(*mark);
        }
    }
    None
}

// Appends a text as the syntax has it.
fn push_text(text: &mut Draft, syntax: &Syntax, told: Draft) {
    let Ok(told) = told.end() else {
        return text.fail();
    };
    for character in told.chars() {
        match mark_of(syntax, character) {
            Some(mark) => text.push(mark),
            None => text.push_char(character),
        }
    }
}

// The text of a namespace: its number, and the tasks in it.
fn namespace_text(world: &World, tasks: &[&Task], namespace: usize) -> Draft {
    let mut text = Draft::new(world.alloc());
    text.push("namespace ");
    text.push_number(namespace as u64);
    let mut before = ": ";
    for task in tasks {
        if namespace_number(world, task.namespace) == namespace {
            text.push(before);
            names::push_task(&mut text, &task.name);
            before = ", ";
        }
    }
    text
}

// The text of a mount: its number and path, its source and flags, and its type.
fn mount_text(world: &World, shown: &MountShown) -> Draft {
    let mut text = Draft::new(world.alloc());
    names::push_mount(&mut text, shown.place);
    text.push_char(' ');
    text.push(shown.path());
    text.push_char('\n');
    names::push_filesystem(&mut text, shown.is_overlay, Some(shown.filesystem));
    names::push_root(&mut text, &shown.root);
    text.push_char(' ');
    names::push_flags(&mut text, shown.mount.flags);
    text.push_char('\n');
    names::push_type(&mut text, shown.kind);
    text
}

// Appends a mount with its text.
fn push_mount(text: &mut Draft, world: &World, syntax: &Syntax, shown: &MountShown) {
    let [begin, end] = syntax.mount;
    push_form(text, begin, &[Cell::Mount(shown.place)]);
    push_text(text, syntax, mount_text(world, shown));
    text.push(end);
}

// Appends an edge to a mount from the one that it stands on, if there is one.
fn push_parent(text: &mut Draft, syntax: &Syntax, shown: &MountShown) {
    if let Some(parent) = shown.parent {
        push_form(
            text,
            syntax.stands,
            &[Cell::Mount(parent), Cell::Mount(shown.place)],
        );
    }
}

// Appends the mounts of a namespace in a frame, as a tree.
fn push_namespace(
    text: &mut Draft,
    world: &World,
    syntax: &Syntax,
    tasks: &[&Task],
    mounts: &[MountShown],
) {
    let Some(first) = mounts.first() else {
        return;
    };
    let namespace = first.place.namespace;
    let [begin, end] = syntax.namespace;
    push_form(text, begin, &[Cell::count(namespace)]);
    push_text(text, syntax, namespace_text(world, tasks, namespace));
    text.push(end);
    for shown in mounts {
        push_mount(text, world, syntax, shown);
    }
    for shown in mounts {
        push_parent(text, syntax, shown);
    }
    text.push(syntax.namespace_end);
}

// Appends a peer group with all that receives from it or sends to it: the group from which it receives, its members,
// which receive from it and it from them, and its slaves.
fn push_group(text: &mut Draft, syntax: &Syntax, line: &PeerLine) {
    let group = line.group;
    push_form(
        text,
        syntax.group,
        &[Cell::count(group), Cell::count(group)],
    );
    if let Some(master) = line.master {
        let parts = [Cell::count(master), Cell::count(group)];
        push_form(text, syntax.slave_group, &parts);
    }
    for place in &line.members {
        push_form(
            text,
            syntax.member,
            &[Cell::Mount(*place), Cell::count(group)],
        );
    }
    for place in &line.slaves {
        push_form(
            text,
            syntax.slave,
            &[Cell::count(group), Cell::Mount(*place)],
        );
    }
}

/// Appends the mounts of each namespace in a frame with its tasks: edges within lead to a mount from the one that it
/// stands on, other edges from who sends to who receives.
pub fn push_graph(
    text: &mut Draft,
    world: &World,
    syntax: &Syntax,
    tasks: &[&Task],
    picture: &Picture,
) {
    text.push(syntax.head);
    let mut rest = picture.mounts.as_slice();
    for _ in &picture.mounts {
        let (mounts, after) = split_first(rest);
        push_namespace(text, world, syntax, tasks, mounts);
        rest = after;
    }
    for line in &picture.groups {
        push_group(text, syntax, line);
    }
    text.push(syntax.foot);
}
