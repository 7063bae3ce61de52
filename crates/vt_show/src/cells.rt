//! What is told of a thing, in parts: each as it stands in a text, and as a value of JSON.
use crate::names;
use serde_json::Value;
use std::alloc::{AllocError, Global};
use vt_check::draft::Draft;
use vt_check::object::{List, Object};
use vt_cred::{Caps, MountFlags};
use vt_node::{Kind, Mode};
use vt_request::{MountPlace, TaskName, TypeLine};

/// A part of what is told.
#[derive(Clone, Copy)]
pub enum Cell<'a> {
    /// That there is nothing: `-`, and null in JSON.
    Nothing,
    Text(&'a str),
    /// The part of a text that was written, from one byte to another.
    Part(&'a Draft, usize, usize),
    Number(u64),
    /// Numbers of groups, between commas.
    Ids(&'a [u32]),
    /// A number in octal digits, of which there are at least so many.
    Octal(u16, usize),
    Task(&'a TaskName),
    Mount(MountPlace),
    Mounts(&'a [MountPlace]),
    /// A filesystem: whether it is an overlay, and its number; its type alone where it has none.
    Filesystem(bool, Option<usize>),
    /// Where in its filesystem a tree begins, or nothing where it is reached no longer. In a text it stands between
    /// brackets, and not where it is the root.
    Root(&'a Option<String>),
    Flags(MountFlags),
    Type(TypeLine),
    Capabilities(Caps),
    Mode(Kind, Mode),
}

impl<'a> Cell<'a> {
    /// How many there are, or which one it is in a list.
    pub fn count(number: usize) -> Self {
        Cell::Number(number as u64)
    }

    /// The whole of a text that was written.
    pub fn whole(text: &'a Draft) -> Self {
        Cell::Part(text, 0, text.len())
    }
}

/// A number that may be missing.
pub fn count_or_nothing<'a>(number: Option<usize>) -> Cell<'a> {
    match number {
        Some(number) => Cell::count(number),
        None => Cell::Nothing,
    }
}

/// Appends a part as it stands in a text.
pub fn push_cell(text: &mut Draft, cell: &Cell<'_>) {
    match cell {
        Cell::Nothing => text.push_char('-'),
        Cell::Text(part) => text.push(*part),
        Cell::Part(part, begin, end) => text.push_part(*part, *begin, *end),
        Cell::Number(number) => text.push_number(*number),
        Cell::Ids(ids) => names::push_ids(text, *ids),
        Cell::Octal(number, digits) => text.push_octal(*number, *digits),
        Cell::Task(name) => names::push_task(text, *name),
        Cell::Mount(place) => names::push_mount(text, *place),
        Cell::Mounts(places) => names::push_mounts(text, *places),
        Cell::Filesystem(is_overlay, number) => names::push_filesystem(text, *is_overlay, *number),
        Cell::Root(root) => names::push_root(text, *root),
        Cell::Flags(flags) => names::push_flags(text, *flags),
        Cell::Type(kind) => names::push_type(text, *kind),
        Cell::Capabilities(caps) => names::push_capabilities(text, *caps),
        Cell::Mode(kind, mode) => names::push_mode(text, *kind, *mode),
    }
}

/// Appends parts, one behind the other.
pub fn push_cells(text: &mut Draft, cells: &[Cell<'_>]) {
    for cell in cells {
        push_cell(text, cell);
    }
}

// Numbers of groups, as a list.
fn ids_value(alloc: Global, ids: &[u32]) -> Result<Value, AllocError> {
    let mut list = List::new(alloc);
    for id in ids {
        list.push(Ok(Value::from(u64::from(*id))));
    }
    list.end()
}

// The words of a text between commas, as a list.
fn words_value(alloc: Global, text: Draft) -> Result<Value, AllocError> {
    let text = text.end()?;
    let mut list = List::new(alloc);
    for word in text.split(',') {
        if !word.is_empty() {
            list.push_text(word);
        }
    }
    list.end()
}

// The flags of a mount, as a list.
fn flags_value(alloc: Global, flags: MountFlags) -> Result<Value, AllocError> {
    let mut text = Draft::new(alloc);
    names::push_flags(&mut text, flags);
    words_value(alloc, text)
}

// Capabilities, as a list of their names.
fn capabilities_value(alloc: Global, caps: Caps) -> Result<Value, AllocError> {
    let mut text = Draft::new(alloc);
    names::push_capability_names(&mut text, caps);
    words_value(alloc, text)
}

// Mounts, as a list.
fn mounts_value(alloc: Global, places: &[MountPlace]) -> Result<Value, AllocError> {
    let mut list = List::new(alloc);
    for place in places {
        let mut text = Draft::new(alloc);
        names::push_mount(&mut text, *place);
        list.push(draft_value(text));
    }
    list.end()
}

// A text that was written.
fn draft_value(text: Draft) -> Result<Value, AllocError> {
    Ok(Value::String(text.end()?))
}

// A part as it stands in a text.
fn text_value(alloc: Global, cell: &Cell<'_>) -> Result<Value, AllocError> {
    let mut text = Draft::new(alloc);
    push_cell(&mut text, cell);
    draft_value(text)
}

/// Where in its filesystem a tree begins, or null.
pub fn root_value(alloc: Global, root: &Option<String>) -> Result<Value, AllocError> {
    match root {
        Some(path) => Value::try_from_str(alloc, names::or_root(path.as_str())),
        None => Ok(Value::Null),
    }
}

/// A part as a value of JSON.
pub fn value_of(alloc: Global, cell: &Cell<'_>) -> Result<Value, AllocError> {
    match cell {
        Cell::Nothing => Ok(Value::Null),
        Cell::Root(root) => root_value(alloc, *root),
        Cell::Number(number) => Ok(Value::from(*number)),
        Cell::Ids(ids) => ids_value(alloc, *ids),
        Cell::Mounts(places) => mounts_value(alloc, *places),
        Cell::Flags(flags) => flags_value(alloc, *flags),
        Cell::Capabilities(caps) => capabilities_value(alloc, *caps),
        _ => text_value(alloc, cell),
    }
}

/// An object of JSON of this kind, with these members.
pub fn object_of_kind(alloc: Global, kind: &str, members: &[&str], cells: &[Cell<'_>]) -> Object {
    let mut object = object_of(alloc, members, cells);
    object.put_text("kind", kind);
    object
}

/// An object of JSON with these members.
pub fn object_of(alloc: Global, members: &[&str], cells: &[Cell<'_>]) -> Object {
    let mut object = Object::new(alloc);
    for (member, cell) in members.iter().zip(cells) {
        object.put(*member, value_of(alloc, cell));
    }
    object
}

/// Appends an object of this kind with these members, and a newline.
pub fn push_line(
    alloc: Global,
    text: &mut Draft,
    kind: &str,
    members: &[&str],
    cells: &[Cell<'_>],
) {
    object_of_kind(alloc, kind, members, cells).push_line(text);
}
