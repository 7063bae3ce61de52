//! What `explain` shows, as tables: each a text or objects of JSON.
use crate::rights::{push_rights, rights_value};
use serde_json::Value;
use std::alloc::{AllocError, Global};
use std::mem;
use vt_check::check::Format;
use vt_check::draft::Draft;
use vt_check::object::Object;
use vt_cred::{Attr, Cred, Kind};
use vt_location::Location;
use vt_ns::World;
use vt_request::{MountPlace, TypeLine};
use vt_show::cells::{Cell, count_or_nothing, push_cells, value_of};
use vt_show::columns::Table;
use vt_show::names::push_type;
use vt_show::tasks::place_value;
use vt_spec::errors::Rule;

/// A table: how it is named in either form, its columns, and the members of the object of a row.
pub struct Heads {
    /// What stands above it.
    pub title: &'static str,
    /// The kind of its objects.
    pub kind: &'static str,
    /// The words above the columns; the last column may have none.
    pub words: &'static [&'static str],
    /// Members that are null in some rows.
    pub members: &'static [&'static str],
}

// The object of a row that has nothing yet.
fn row(alloc: Global, heads: &Heads) -> Object {
    let mut row = Object::of_kind(alloc, heads.kind);
    for member in heads.members {
        row.put(*member, Ok(Value::Null));
    }
    row
}

/// A table under a title, or its rows as objects. A row may end before the last column.
#[derive(Drop)]
pub struct Section {
    alloc: Global,
    format: Format,
    heads: &'static Heads,
    table: Table,
    objects: Draft,
    row: Object,
}

impl Section {
    /// A table without rows.
    pub fn new(alloc: Global, format: Format, heads: &'static Heads) -> Self {
        Section {
            alloc,
            format,
            heads,
            table: Table::new(alloc, heads.words),
            objects: Draft::new(alloc),
            row: row(alloc, heads),
        }
    }

    /// Whether the rows are objects.
    pub fn is_json(&self) -> bool {
        matches!(self.format, Format::Json)
    }

    /// Notes that an allocation failed.
    pub fn fail(&mut self) {
        self.table.text.fail();
    }

    /// Adds a word of the table, in parts.
    pub fn tell(&mut self, parts: &[Cell<'_>]) {
        if !self.is_json() {
            push_cells(&mut self.table.text, parts);
            self.table.end_word();
        }
    }

    /// Adds a member of the object.
    pub fn put(&mut self, member: &str, part: &Cell<'_>) {
        if self.is_json() {
            self.row.put(member, value_of(self.alloc, part));
        }
    }

    /// Adds a member of the object that was made, or notes that an allocation failed.
    pub fn put_value(&mut self, member: &str, value: Result<Value, AllocError>) {
        if self.is_json() {
            self.row.put(member, value);
        }
    }

    /// Adds a word of the table that is a text.
    pub fn tell_text(&mut self, text: &str) {
        if !self.is_json() {
            self.table.text.push(text);
            self.table.end_word();
        }
    }

    /// Adds a word of the table that is the type of a mount.
    pub fn tell_type(&mut self, kind: TypeLine) {
        if !self.is_json() {
            push_type(&mut self.table.text, kind);
            self.table.end_word();
        }
    }

    /// Adds a member of the object that is a text.
    pub fn put_text(&mut self, member: &str, text: &str) {
        if self.is_json() {
            self.row.put_text(member, text);
        }
    }

    /// Adds a text as a word, which is a member too.
    pub fn add_text(&mut self, member: &str, text: &str) {
        self.tell_text(text);
        self.put_text(member, text);
    }

    /// Adds a number as a word, which is a member too.
    pub fn add_number(&mut self, member: &str, number: u64) {
        self.tell(&[Cell::Number(number)]);
        self.put(member, &Cell::Number(number));
    }

    /// Adds the place of a mount as a word, which is a member too.
    pub fn add_mount(&mut self, member: &str, place: MountPlace) {
        self.tell(&[Cell::Mount(place)]);
        self.put(member, &Cell::Mount(place));
    }

    /// Adds a word, which is a member too.
    pub fn add(&mut self, member: &str, part: &Cell<'_>) {
        if self.is_json() {
            return self.put(member, part);
        }
        self.table.add(part);
    }

    /// Adds bytes, before which this mark stands in the table.
    pub fn add_bytes(&mut self, member: &str, mark: &str, bytes: &[u8]) {
        if self.is_json() {
            return self.row.put_bytes(member, bytes);
        }
        self.table.text.push(mark);
        self.table.text.push_bytes(bytes);
        self.table.end_word();
    }

    /// Adds bytes as a member alone.
    pub fn put_bytes(&mut self, member: &str, bytes: &[u8]) {
        if self.is_json() {
            self.row.put_bytes(member, bytes);
        }
    }

    /// Adds where an object is.
    pub fn add_place(&mut self, world: &World, member: &str, at: Location) {
        if self.is_json() {
            return self.row.put(member, place_value(world, at));
        }
        self.table.add_place(world, at);
    }

    /// Adds the same as a member alone.
    pub fn put_place(&mut self, world: &World, member: &str, at: Location) {
        if self.is_json() {
            self.row.put(member, place_value(world, at));
        }
    }

    /// Adds which class of bits of an object counts for a caller.
    pub fn add_rights(&mut self, member: &str, cred: &Cred, attr: &Attr, kind: Kind) {
        if self.is_json() {
            let rights = rights_value(self.alloc, cred, attr, kind);
            return self.row.put(member, rights);
        }
        push_rights(&mut self.table.text, cred, attr, kind);
        self.table.end_word();
    }

    /// Adds an overlay by the number of its filesystem, if an attached mount shows it.
    pub fn add_overlay(&mut self, number: Option<usize>) {
        self.tell(&[Cell::Filesystem(true, number)]);
        self.put("overlay", &count_or_nothing(number));
    }

    /// Adds the rule that stopped a walk.
    pub fn add_stop(&mut self, rule: Rule) {
        let name = rule.name();
        self.tell(&[Cell::Text("stopped by "), Cell::Text(name)]);
        self.put("stopped", &Cell::Text(name));
    }

    /// Ends a row of the table, where the object goes on.
    pub fn break_row(&mut self) {
        if !self.is_json() {
            self.table.end_row();
        }
    }

    /// Ends a row.
    pub fn end_row(&mut self) {
        if self.is_json() {
            let row = mem::replace(&mut self.row, row(self.alloc, self.heads));
            row.push_line(&mut self.objects);
        } else {
            self.table.end_row();
        }
    }

    /// Appends the table, if it has rows. In text what it is about stands behind its title.
    pub fn write(&self, about: &[u8], text: &mut Draft) {
        // A failed allocation is passed on without rows too.
        text.push_part(&self.table.text, 0, 0);
        text.push_draft(&self.objects);
        if self.table.words.len() > self.heads.words.len() {
            text.push_char('\n');
            text.push(self.heads.title);
            text.push_bytes(about);
            self.table.write(text);
        }
    }
}
