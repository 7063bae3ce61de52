//! A cause as a sentence, and as an object of what stands in it.
use crate::mounts::find;
use crate::rights::{bits_named, push_rights, rights_value};
use serde_json::Value;
use std::alloc::AllocError;
use vt_causes::{About, Cause};
use vt_check::draft::Draft;
use vt_check::object::Object;
use vt_cred::{Cred, Flags, Kind};
use vt_location::Location;
use vt_looks::Look;
use vt_ns::World;
use vt_request::TypeLine;
use vt_show::cells::{Cell, value_of};
use vt_show::names;
use vt_show::picture::Picture;
use vt_show::places::{namespace_number, place_of, push_place};
use vt_show::tasks::place_value;
use vt_spec::errors::Rule;

/// A cause as a sentence.
#[derive(Drop)]
pub struct Told {
    pub words: Draft,
    /// What stands in the words, by its name.
    pub parts: Object,
}

/// A line of a file: its number, and its text.
#[derive(Clone, Copy)]
pub struct Since<'a> {
    pub number: u64,
    pub text: &'a [u8],
}

/// A cause in a world, with the line since which it holds.
#[derive(Clone, Copy)]
pub struct Telling<'a> {
    pub world: &'a World,
    pub picture: &'a Picture,
    pub cause: &'a Cause<'a>,
    pub since: Option<Since<'a>>,
}

// What an object is.
fn kind_named(kind: Kind) -> &'static str {
    match kind {
        Kind::Dir => "a directory",
        Kind::File => "a regular file",
        Kind::Symlink => "a symlink",
        Kind::White => "a whiteout",
    }
}

impl<'a> Telling<'a> {
    // Whose rights count: those of the caller, or of who mounted the overlay.
    fn cred(&self) -> Option<&'a Cred> {
        match self.cause.about {
            About::Rule(Rule::W5 | Rule::B1) => {
                let overlay = self.cause.at?.node.filesystem;
                Some(self.world.store().overlay(overlay)?.mounter())
            }
            _ => Some(&self.world.task(self.cause.task)?.cred),
        }
    }

    // The place of this name: what was looked at, or what stands beside it.
    fn place(&self, name: &str) -> Option<Location> {
        match (name, self.cause.about) {
            ("other" | "other_mount", _) => self.cause.other,
            ("overlay", About::Mount | About::Held(_)) => self.cause.other,
            _ => self.cause.at,
        }
    }

    // The number of this name.
    fn number(&self, name: &str) -> Option<u64> {
        match name {
            "count" | "descriptor" => Some(self.cause.count),
            "limit" => Some(self.cause.limit),
            "uid" => Some(u64::from(self.cred()?.uid())),
            "owner" => Some(u64::from(self.world.node(self.cause.at?)?.attr().uid)),
            "namespace" => {
                let namespace = self.world.mount(self.cause.at?.mount)?.namespace?;
                Some(namespace_number(self.world, namespace) as u64)
            }
            "group" => match find(self.picture, self.cause.other?.mount)?.kind {
                TypeLine::Shared { group, .. } => Some(group as u64),
                _ => None,
            },
            "since" => Some(self.since?.number),
            _ => None,
        }
    }

    // Appends a mount.
    fn push_mount(&self, at: Location, text: &mut Draft) {
        match place_of(self.world, at.mount) {
            Some(place) => names::push_mount(text, place),
            None => text.push("(detached)"),
        }
    }

    // Appends what an object is, and who may do what to it.
    fn push_of_object(&self, name: &str, at: Location, text: &mut Draft) {
        let Some(node) = self.world.store().object(at.node) else {
            return;
        };
        if name == "type" {
            text.push(kind_named(node.kind()));
        } else if let Some(cred) = self.cred() {
            push_rights(text, cred, &node.attr(), node.kind());
        }
    }

    // The same as a value of JSON.
    fn value_of_object(&self, name: &str) -> Option<Result<Value, AllocError>> {
        let alloc = self.world.alloc();
        let node = self.world.store().object(self.cause.at?.node)?;
        if name == "type" {
            return Some(Value::try_from_str(alloc, names::kind(node.kind())));
        }
        Some(rights_value(alloc, self.cred()?, &node.attr(), node.kind()))
    }

    // The number of the filesystem of a place, if an attached mount shows that.
    fn filesystem_number(&self, at: Location) -> Option<usize> {
        self.picture.number_of(at.node.filesystem)
    }

    // Appends the first name in a directory.
    fn push_entry(&self, at: Location, text: &mut Draft) {
        match self.world.store().names(self.world.alloc(), at.node) {
            Ok(names) => {
                if let Some(name) = names.first() {
                    names::push_name(text, name);
                }
            }
            Err(_) => text.fail(),
        }
    }

    // Appends what stands at a place.
    fn push_of_place(&self, name: &str, at: Location, text: &mut Draft) {
        match name {
            "mount" | "other_mount" => self.push_mount(at, text),
            "type" | "bits" => self.push_of_object(name, at, text),
            "entry" => self.push_entry(at, text),
            "overlay" | "filesystem" => {
                let is_overlay = self.world.store().is_overlay(at.node.filesystem);
                names::push_filesystem(text, is_overlay, self.filesystem_number(at));
            }
            "at" | "other" => push_place(self.world, at, text),
            _ => text.push_char('-'),
        }
    }

    // Appends a number, or what stands at a place.
    fn push_other_part(&self, name: &str, text: &mut Draft) {
        if let Some(number) = self.number(name) {
            return text.push_number(number);
        }
        match self.place(name) {
            Some(at) => self.push_of_place(name, at, text),
            None => text.push_char('-'),
        }
    }

    // Appends the part of this name, as it stands in the words.
    fn push_part(&self, name: &str, text: &mut Draft) {
        match name {
            "task" => names::push_task(text, self.cause.task),
            "capability" => names::push_capabilities(text, self.cause.capability),
            "wanted" => text.push(bits_named(self.cause.wanted.bits())),
            "word" => names::push_name(text, self.cause.word),
            "since" => {
                if let Some(since) = self.since {
                    text.push(" since line ");
                    text.push_number(since.number);
                    text.push(" (");
                    text.push_bytes(since.text);
                    text.push(")");
                }
            }
            _ => self.push_other_part(name, text),
        }
    }

    // What stands at the place of this name, as a value of JSON.
    fn value_at(&self, name: &str) -> Option<Result<Value, AllocError>> {
        let at = self.place(name)?;
        match name {
            "at" | "other" => Some(place_value(self.world, at)),
            "mount" | "other_mount" => {
                let cells = [Cell::Mount(place_of(self.world, at.mount)?)];
                Some(value_of(self.world.alloc(), &cells[0]))
            }
            "overlay" | "filesystem" => Some(Ok(Value::from(self.filesystem_number(at)? as u64))),
            "type" | "bits" => self.value_of_object(name),
            _ => None,
        }
    }

    // The part of this name as a text of JSON.
    fn text_value(&self, name: &str) -> Result<Value, AllocError> {
        let mut text = Draft::new(self.world.alloc());
        self.push_part(name, &mut text);
        Ok(Value::String(text.end()?))
    }

    // The part of this name, as a value of JSON.
    fn value(&self, name: &str) -> Result<Value, AllocError> {
        if let Some(number) = self.number(name) {
            return Ok(Value::from(number));
        }
        match name {
            "since" => Ok(Value::Null),
            "capability" => {
                let cells = [Cell::Capabilities(self.cause.capability)];
                value_of(self.world.alloc(), &cells[0])
            }
            "task" | "wanted" | "word" | "entry" => self.text_value(name),
            _ => self.value_at(name).unwrap_or(Ok(Value::Null)),
        }
    }

    /// The cause as a sentence.
    pub fn told(&self) -> Told {
        let alloc = self.world.alloc();
        let mut words = Draft::new(alloc);
        let mut parts = Object::new(alloc);
        let mut rest = self.cause.words;
        for _ in 0..rest.len() {
            let Some((before, after)) = rest.split_once('{') else {
                break;
            };
            let (name, behind) = after.split_once('}').unwrap_or((after, ""));
            words.push(before);
            self.push_part(name, &mut words);
            parts.put(name, self.value(name));
            rest = behind;
        }
        words.push(rest);
        Told { words, parts }
    }
}
