//! JSON objects, one a line. docs/FORMATS.md has what each holds.
use crate::draft::Draft;
use serde_json::{Map, Value};
use std::alloc::{AllocError, Global};

/// The first line of an output of JSON.
pub const HEAD: &str = "{\"format\":1,\"kind\":\"output\"}\n";

/// An object that is being written. An allocation that fails is noted, and told at the end.
#[derive(Drop)]
pub struct Object {
    alloc: Global,
    members: Map<String, Value>,
    failed: bool,
}

impl Object {
    /// The object without members.
    pub fn new(alloc: Global) -> Self {
        Object {
            alloc,
            members: Map::new(alloc),
            failed: false,
        }
    }

    /// An object of this kind.
    pub fn of_kind(alloc: Global, kind: &str) -> Self {
        let mut object = Object::new(alloc);
        object.put_text("kind", kind);
        object
    }

    /// Adds a member.
    pub fn put(&mut self, name: &str, value: Result<Value, AllocError>) {
        match (String::from_str(self.alloc, name), value) {
            (Ok(name), Ok(value)) => self.failed |= self.members.insert(name, value).is_err(),
            _ => self.failed = true,
        }
    }

    /// Adds a text.
    pub fn put_text(&mut self, name: &str, text: &str) {
        self.put(name, Value::try_from_str(self.alloc, text));
    }

    /// Adds bytes as they are shown.
    pub fn put_bytes(&mut self, name: &str, bytes: &[u8]) {
        let mut text = self.draft();
        text.push_bytes(bytes);
        self.put_draft(name, text);
    }

    /// Adds a text that was written.
    pub fn put_draft(&mut self, name: &str, text: Draft) {
        match text.end() {
            Ok(text) => self.put_text(name, text.as_str()),
            Err(_) => self.failed = true,
        }
    }

    /// An empty text.
    pub fn draft(&self) -> Draft {
        Draft::new(self.alloc)
    }

    /// Adds a number.
    pub fn put_number(&mut self, name: &str, number: u64) {
        self.put(name, Ok(Value::from(number)));
    }

    /// The object as a value, if no allocation failed.
    pub fn end(self) -> Result<Value, AllocError> {
        if self.failed {
            Err(AllocError)
        } else {
            Ok(Value::Object(self.members))
        }
    }

    /// Appends the object as a line, or notes that an allocation failed.
    pub fn push_line(self, text: &mut Draft) {
        let alloc = self.alloc;
        let Ok(object) = self.end() else {
            return text.fail();
        };
        match object.to_string(alloc) {
            Ok(line) => {
                text.push(line.as_str());
                text.push_char('\n');
            }
            Err(_) => text.fail(),
        }
    }
}

/// A list that is being written. An allocation that fails is noted, and told at the end.
#[derive(Drop)]
pub struct List {
    alloc: Global,
    values: Vec<Value>,
    failed: bool,
}

impl List {
    /// The empty list.
    pub fn new(alloc: Global) -> Self {
        List {
            alloc,
            values: Vec::new(alloc),
            failed: false,
        }
    }

    /// Appends a value.
    pub fn push(&mut self, value: Result<Value, AllocError>) {
        match value {
            Ok(value) => self.failed |= self.values.push(value).is_err(),
            Err(_) => self.failed = true,
        }
    }

    /// Appends a text.
    pub fn push_text(&mut self, text: &str) {
        self.push(Value::try_from_str(self.alloc, text));
    }

    /// Appends bytes as they are shown.
    pub fn push_bytes(&mut self, bytes: &[u8]) {
        let mut text = Draft::new(self.alloc);
        text.push_bytes(bytes);
        match text.end() {
            Ok(text) => self.push_text(text.as_str()),
            Err(_) => self.failed = true,
        }
    }

    /// The list as a value, if no allocation failed.
    pub fn end(self) -> Result<Value, AllocError> {
        if self.failed {
            Err(AllocError)
        } else {
            Ok(Value::Array(self.values))
        }
    }
}
