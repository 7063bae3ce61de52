//! An entry of `mounts`.
use crate::fields::{field, item, list, path_word, word};
use serde_json::Value;
use std::alloc::{AllocError, Global};
use vt_check::draft::Draft;
use vt_from::flags::{Flags, NO_FLAGS, is_file_name};
use vt_from::words::{last_name, push_word};

/// A change of the type of a mount: `type` or `rtype`, and the type.
#[derive(Clone, Copy)]
pub struct TypeChange {
    pub call: &'static str,
    pub word: &'static str,
}

/// An entry of `mounts`, with its paths as words of a script.
#[derive(Drop)]
pub struct Entry {
    /// In the container.
    pub destination: String,
    pub kind: String,
    pub source: String,
    /// By which call it is bound, if it is.
    pub bind: Option<&'static str>,
    pub flags: Flags,
    pub changes: Vec<TypeChange>,
    /// Layers of an overlay, from the top down, if it has no upper one.
    pub layers: String,
    /// Options that are not modelled, between commas.
    pub missing: String,
}

// What an option means.
#[derive(Clone, Copy)]
enum Meaning {
    ReadOnly(bool),
    NoExec(bool),
    NoSymfollow(bool),
    Bind(&'static str),
    Type(TypeChange),
    Nothing,
    Missing,
}

const fn change(call: &'static str, word: &'static str) -> Meaning {
    Meaning::Type(TypeChange { call, word })
}

/// The change of a type that a word of propagation means, as `rslave`.
pub fn type_change(word: &str) -> Option<TypeChange> {
    match meaning_of(word) {
        Meaning::Type(change) => Some(change),
        _ => None,
    }
}

// What an option means.
fn meaning_of(option: &str) -> Meaning {
    match option {
        "ro" => Meaning::ReadOnly(true),
        "rw" => Meaning::ReadOnly(false),
        "noexec" => Meaning::NoExec(true),
        "exec" => Meaning::NoExec(false),
        "nosymfollow" => Meaning::NoSymfollow(true),
        "symfollow" => Meaning::NoSymfollow(false),
        "bind" => Meaning::Bind("bind"),
        "rbind" => Meaning::Bind("rbind"),
        "shared" => change("type", "shared"),
        "rshared" => change("rtype", "shared"),
        "slave" => change("type", "slave"),
        "rslave" => change("rtype", "slave"),
        "private" => change("type", "private"),
        "rprivate" => change("rtype", "private"),
        "unbindable" => change("type", "unbindable"),
        "runbindable" => change("rtype", "unbindable"),
        "defaults" | "suid" | "dev" | "" => Meaning::Nothing,
        _ => Meaning::Missing,
    }
}

// What the options of an entry say.
#[derive(Drop)]
struct Options {
    bind: Option<&'static str>,
    flags: Flags,
    changes: Vec<TypeChange>,
    missing: Draft,
}

// What the options of an entry say.
fn options_of(alloc: Global, options: &[Value]) -> Result<Options, AllocError> {
    let mut said = Options {
        bind: None,
        flags: NO_FLAGS,
        changes: Vec::new(alloc),
        missing: Draft::new(alloc),
    };
    for option in options {
        match meaning_of(item(option)) {
            Meaning::ReadOnly(is_set) => said.flags.read_only = is_set,
            Meaning::NoExec(is_set) => said.flags.noexec = is_set,
            Meaning::NoSymfollow(is_set) => said.flags.nosymfollow = is_set,
            Meaning::Bind(call) => said.bind = Some(call),
            Meaning::Type(change) => said.changes.push(change)?,
            Meaning::Nothing => {}
            Meaning::Missing => {
                said.missing.push_after(",", "");
                push_word(&mut said.missing, item(option).as_bytes());
            }
        }
    }
    Ok(said)
}

// The value of an option, as of `lowerdir=`.
fn value_of<'a>(options: &'a [Value], name: &str) -> &'a str {
    for option in options {
        if let Some(value) = item(option).strip_prefix(name) {
            return value;
        }
    }
    ""
}

/// An entry of `mounts`.
pub fn entry_of(alloc: Global, value: &Value) -> Result<Entry, AllocError> {
    let options = list(value, "/options");
    let said = options_of(alloc, options)?;
    let layers = value_of(options, "lowerdir=");
    let has_upper = !value_of(options, "upperdir=").is_empty();
    let is_sayable = layers.contains(':') && !layers.contains(',') && !has_upper;
    let is_bind_type = field(value, "/type") == "bind";
    Ok(Entry {
        destination: path_word(alloc, field(value, "/destination"))?,
        kind: word(alloc, field(value, "/type"))?,
        source: path_word(alloc, field(value, "/source"))?,
        bind: said.bind.or(is_bind_type.then_some("bind")),
        flags: said.flags,
        changes: said.changes,
        layers: word(alloc, if is_sayable { layers } else { "" })?,
        missing: said.missing.end()?,
    })
}

impl Entry {
    /// Whether a file is bound, as far as names tell.
    pub fn is_of_file(&self) -> bool {
        let (source, destination) = (self.source.as_str(), self.destination.as_str());
        self.bind.is_some()
            && (is_file_name(last_name(source)) || is_file_name(last_name(destination)))
    }

    /// Whether its source has to be on a mount that others receive from or send to.
    pub fn is_propagated(&self) -> bool {
        for change in &self.changes {
            if matches!(change.word, "shared" | "slave") {
                return self.bind.is_some();
            }
        }
        false
    }

    /// Whether it becomes read-only last: runc writes into these first.
    pub fn is_late(&self) -> bool {
        self.kind.as_str() == "tmpfs" || self.destination.as_str() == "/dev"
    }
}
