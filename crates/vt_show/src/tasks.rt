//! Tasks, and whose credentials they have.
use crate::cells::{Cell, count_or_nothing, object_of, object_of_kind, push_cells, root_value};
use crate::names;
use crate::places::{gone_at, namespace_number, push_path, push_place};
use serde_json::Value;
use std::alloc::AllocError;
use vt_check::draft::Draft;
use vt_check::object::{List, Object};
use vt_cred::Cred;
use vt_location::Location;
use vt_ns::World;
use vt_tasks::Task;

static MEMBERS: [&str; 7] = [
    "capabilities",
    "gid",
    "groups",
    "namespace",
    "task",
    "uid",
    "umask",
];

// The columns that a line of a task or an overlay has before its words.
const WORDS: usize = 13;

/// Appends a line: what is told, with its number if it has one, and the words behind it.
pub fn push_told(text: &mut Draft, what: &str, number: Option<u64>, words: &[Cell<'_>]) {
    text.push("  ");
    let begin = text.len();
    text.push(what);
    if let Some(number) = number {
        text.push_char(' ');
        text.push_number(number);
    }
    let length = text.len().saturating_sub(begin);
    text.push_times(' ', WORDS.saturating_sub(length));
    push_cells(text, words);
    text.push_char('\n');
}

/// Appends whose credentials these are, and what they are.
pub fn push_credentials(text: &mut Draft, whose: &str, cred: &Cred) {
    push_told(text, whose, None, &ids_of(cred));
    let caps = [Cell::Capabilities(cred.caps())];
    push_told(text, "capabilities", None, &caps);
}

/// Who credentials act as: user, group, and supplementary groups.
pub fn ids_of(cred: &Cred) -> [Cell<'_>; 6] {
    [
        Cell::Text("uid "),
        Cell::Number(u64::from(cred.uid())),
        Cell::Text(", gid "),
        Cell::Number(u64::from(cred.gid())),
        Cell::Text(", groups "),
        Cell::Ids(cred.groups()),
    ]
}

// Appends which permissions a task takes from its new objects.
fn push_umask(text: &mut Draft, task: &Task) {
    let umask = [Cell::Octal(task.umask.bits(), 3)];
    push_told(text, "umask", None, &umask);
}

// Appends the open files of a task, a line each.
fn push_descriptors(world: &World, text: &mut Draft, task: &Task) {
    for number in 0..=u8::MAX {
        if let Some(file) = task.descriptors.get(number) {
            let mut words = Draft::new(world.alloc());
            words.push(names::access(file.access));
            words.push_char(' ');
            push_place(world, file.location, &mut words);
            push_told(
                text,
                "open",
                Some(u64::from(number)),
                &[Cell::whole(&words)],
            );
        }
    }
}

// Appends where the root or the working directory of a task is.
fn push_of_task(world: &World, text: &mut Draft, what: &str, at: Location) {
    let mut place = Draft::new(world.alloc());
    push_place(world, at, &mut place);
    push_told(text, what, None, &[Cell::whole(&place)]);
}

/// Appends a task.
pub fn push_task(world: &World, text: &mut Draft, task: &Task) {
    text.push("TASK ");
    names::push_task(text, &task.name);
    text.push(" in namespace ");
    text.push_number(namespace_number(world, task.namespace) as u64);
    text.push_char('\n');
    push_credentials(text, "ids", &task.cred);
    push_umask(text, task);
    push_of_task(world, text, "root", task.root);
    push_of_task(world, text, "directory", task.directory);
    push_descriptors(world, text, task);
}

// An object that no path leads to, as an object: of its path in its filesystem, that, and the mount.
fn gone_value(world: &World, at: Location) -> Result<Value, AllocError> {
    let gone = gone_at(world, at)?;
    let cells = [
        count_or_nothing(gone.filesystem),
        match gone.mount {
            Some(mount) => Cell::Mount(mount),
            None => Cell::Nothing,
        },
        Cell::Nothing,
    ];
    let mut object = object_of(world.alloc(), &["filesystem", "mount", "path"], &cells);
    object.put_text("type", names::filesystem_type(gone.is_overlay));
    object.put("within", root_value(world.alloc(), &gone.path));
    object.end()
}

/// Where an object is, as an object of its mount and its path; of one that no path leads to, what is known of it.
pub fn place_value(world: &World, at: Location) -> Result<Value, AllocError> {
    let alloc = world.alloc();
    let mut path = Draft::new(alloc);
    match push_path(world, at, &mut path) {
        Some(mount) => {
            let cells = [Cell::Mount(mount), Cell::whole(&path)];
            object_of(alloc, &["mount", "path"], &cells).end()
        }
        None => {
            path.end()?;
            gone_value(world, at)
        }
    }
}

// The open files of a task, as a list of objects.
fn open_value(world: &World, task: &Task) -> Result<Value, AllocError> {
    let alloc = world.alloc();
    let mut files = List::new(alloc);
    for number in 0..=u8::MAX {
        if let Some(file) = task.descriptors.get(number) {
            let mut object = Object::new(alloc);
            object.put_text("access", names::access(file.access));
            object.put("at", place_value(world, file.location));
            object.put_number("descriptor", u64::from(number));
            files.push(object.end());
        }
    }
    files.end()
}

/// Appends a task as an object of JSON and a newline.
pub fn push_task_object(world: &World, text: &mut Draft, task: &Task) {
    let cred = &task.cred;
    let cells = [
        Cell::Capabilities(cred.caps()),
        Cell::Number(u64::from(cred.gid())),
        Cell::Ids(cred.groups()),
        Cell::count(namespace_number(world, task.namespace)),
        Cell::Task(&task.name),
        Cell::Number(u64::from(cred.uid())),
        Cell::Octal(task.umask.bits(), 3),
    ];
    let mut object = object_of_kind(world.alloc(), "task", &MEMBERS, &cells);
    object.put("directory", place_value(world, task.directory));
    object.put("open", open_value(world, task));
    object.put("root", place_value(world, task.root));
    object.push_line(text);
}
