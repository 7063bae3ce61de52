//! A world shown, whole or of one task.
use crate::cells::{Cell, count_or_nothing, push_line};
use crate::columns::Table;
use crate::graph::{DOT, MERMAID, push_graph};
use crate::mounts::{push_mount_object, push_namespace};
use crate::names;
use crate::overlays::push_overlays;
use crate::picture::{Picture, split_first};
use crate::places::namespace_number;
use crate::tasks::{push_task, push_task_object};
use crate::trees::push_trees;
use std::alloc::{AllocError, Global};
use std::io::{self, Write};
use vt_check::draft::Draft;
use vt_ns::World;
use vt_tasks::Task;

/// The form in which a world is written.
#[derive(Clone, Copy)]
pub enum Format {
    Text,
    Json,
    /// A graph of the mounts, and of who receives from whom, for Graphviz.
    Dot,
    /// The same for Mermaid.
    Mermaid,
}

/// How a world is shown.
#[derive(Clone, Copy)]
pub struct Options<'a> {
    pub format: Format,
    /// Whether the trees of the filesystems are written.
    pub files: bool,
    /// The task that is shown alone, with its namespace.
    pub task: Option<&'a str>,
}

// Whether a task has this name, as it is written. An allocation that fails is noted.
fn is_named(alloc: Global, task: &Task, name: &str, failed: &mut bool) -> bool {
    let mut text = Draft::new(alloc);
    names::push_task(&mut text, &task.name);
    match text.end() {
        Ok(text) => text.as_str() == name,
        Err(_) => {
            *failed = true;
            false
        }
    }
}

// The tasks in the order in which they were forked: all, or the one of this name. An allocation that fails is noted.
fn tasks_shown<'a>(
    alloc: Global,
    world: &'a World,
    name: Option<&str>,
    failed: &mut bool,
) -> Vec<&'a Task> {
    let mut tasks = Vec::new(alloc);
    for task in world.tasks().kept() {
        let is_shown = match name {
            Some(name) => is_named(alloc, task, name, failed),
            None => true,
        };
        if is_shown {
            *failed |= tasks.push(task).is_err();
        }
    }
    *failed |= tasks.sort_by_key(|task| task.birth).is_err();
    tasks
}

// Appends the peer groups as a table, if there are any.
fn push_groups(alloc: Global, text: &mut Draft, picture: &Picture) {
    if picture.groups.is_empty() {
        return;
    }
    text.push("\nPEER GROUPS");
    let mut table = Table::new(alloc, &["GROUP", "MASTER", "MEMBERS", "SLAVES"]);
    for line in &picture.groups {
        table.add_row(&[
            Cell::count(line.group),
            count_or_nothing(line.master),
            Cell::Mounts(&line.members),
            Cell::Mounts(&line.slaves),
        ]);
    }
    table.write(text);
}

// Appends a world as text, without the trees of its filesystems.
fn push_world(text: &mut Draft, world: &World, tasks: &[&Task], picture: &Picture) {
    for task in tasks {
        push_task(world, text, *task);
    }
    let mut rest = picture.mounts.as_slice();
    for _ in &picture.mounts {
        let (mounts, after) = split_first(rest);
        push_namespace(world, text, mounts);
        rest = after;
    }
    push_overlays(text, world, picture, false);
    push_groups(world.alloc(), text, picture);
}

// Appends a world as objects of JSON, without the trees of its filesystems.
fn push_objects(text: &mut Draft, world: &World, tasks: &[&Task], picture: &Picture) {
    let alloc = world.alloc();
    for task in tasks {
        push_task_object(world, text, *task);
    }
    for shown in &picture.mounts {
        push_mount_object(alloc, text, shown);
    }
    push_overlays(text, world, picture, true);
    for line in &picture.groups {
        let cells = [
            count_or_nothing(line.master),
            Cell::Mounts(&line.members),
            Cell::count(line.group),
            Cell::Mounts(&line.slaves),
        ];
        let members = ["master", "members", "group", "slaves"];
        push_line(alloc, text, "group", &members, &cells);
    }
}

// What is written of these tasks and of a picture, of which the namespace of one of them is kept alone if it is named.
fn written(
    world: &World,
    options: Options<'_>,
    tasks: &[&Task],
    picture: &mut Picture,
) -> Result<String, AllocError> {
    if let (Some(_), Some(task)) = (options.task, tasks.first()) {
        picture.keep(namespace_number(world, task.namespace));
    }
    let mut text = Draft::new(world.alloc());
    if picture.failed {
        text.fail();
    }
    match options.format {
        Format::Text => push_world(&mut text, world, tasks, picture),
        Format::Json => push_objects(&mut text, world, tasks, picture),
        Format::Dot => push_graph(&mut text, world, &DOT, tasks, picture),
        Format::Mermaid => push_graph(&mut text, world, &MERMAID, tasks, picture),
    }
    if options.files {
        match options.format {
            Format::Text => push_trees(&mut text, world, picture, false),
            Format::Json => push_trees(&mut text, world, picture, true),
            Format::Dot | Format::Mermaid => {}
        }
    }
    text.end()
}

/// Writes a world, and returns whether there is such a task; where there is none, nothing is written.
pub fn show<W: Write>(
    alloc: Global,
    world: &World,
    options: Options<'_>,
    output: &mut W,
) -> io::Result<bool> {
    let mut failed = false;
    let tasks = tasks_shown(alloc, world, options.task, &mut failed);
    if options.task.is_some() && tasks.is_empty() && !failed {
        return Ok(false);
    }
    let mut picture = Picture::new(alloc);
    picture.failed = failed;
    picture.fill(world);
    let text = written(world, options, &tasks, &mut picture);
    picture.end();
    output.write_all(text?.as_bytes())?;
    Ok(true)
}
