//! A line of /proc/PID/mountinfo: proc_pid_mountinfo(5).
use std::alloc::{AllocError, Global};
use vt_from::flags::{Flags, is_file_name};
use vt_from::words::{last_name, unescaped};

/// How a mount propagates: the group that it is a member of, the group that it receives from.
#[derive(Clone, Copy)]
pub struct Propagation {
    pub group: Option<u64>,
    pub master: Option<u64>,
    pub unbindable: bool,
}

/// How far a mount is built.
#[derive(Clone, Copy, PartialEq, Eq)]
pub enum Progress {
    Waiting,
    Built,
    /// It cannot be said.
    Left,
}

/// A mount of a table, with its texts as words of a script.
#[derive(Drop)]
pub struct Mount {
    /// Its table, by the place among the tables.
    pub table: usize,
    /// The number of its line, or 0 for a root that the table does not have.
    pub line: u64,
    /// The line.
    pub text: String,
    pub id: u64,
    pub parent: u64,
    /// The number of its filesystem, `MAJOR-MINOR`: a colon would part the layers of an overlay.
    pub device: String,
    /// The directory of the filesystem that it shows.
    pub root: String,
    /// The mount point, from the root of the process.
    pub point: String,
    pub flags: Flags,
    pub wanted: Propagation,
    /// The nearest group above its master with a member under the root of the process.
    pub from: Option<u64>,
    /// The type of its filesystem.
    pub kind: String,
    /// The layers of an overlay, between colons; empty where none are told.
    pub layers: String,
    pub has_upper: bool,
    /// The mount that it stands on, by its place among all mounts.
    pub stands_on: Option<usize>,
    pub is_parent: bool,
    pub progress: Progress,
    /// How it propagates so far.
    pub now: Propagation,
    pub is_settled: bool,
}

/// The type of a private mount.
pub const PRIVATE: Propagation = Propagation {
    group: None,
    master: None,
    unbindable: false,
};

// The fields of a line, as they stand there.
#[derive(Clone, Copy)]
struct Fields<'a> {
    id: u64,
    parent: u64,
    device: &'a str,
    root: &'a str,
    point: &'a str,
    options: &'a str,
    tags: &'a str,
    kind: &'a str,
    // The options of the filesystem.
    more: &'a str,
}

// The fields of a line, if it is one of a table of mounts.
fn fields_of(line: &str) -> Option<Fields<'_>> {
    let (id, rest) = line.split_once(' ')?;
    let (parent, rest) = rest.split_once(' ')?;
    let (device, rest) = rest.split_once(' ')?;
    let (root, rest) = rest.split_once(' ')?;
    let (point, rest) = rest.split_once(' ')?;
    let (front, back) = rest.split_once(" - ")?;
    let (options, tags) = front.split_once(' ').unwrap_or((front, ""));
    let (kind, back) = back.split_once(' ')?;
    let (_, more) = back.split_once(' ').unwrap_or((back, ""));
    let is_known = point.starts_with('/') && device.contains(':');
    is_known.then_some(Fields {
        id: id.parse().ok()?,
        parent: parent.parse().ok()?,
        device,
        root,
        point,
        options,
        tags,
        kind,
        more,
    })
}

// Whether a list between commas has this item.
fn has_item(list: &str, item: &str) -> bool {
    for other in list.split(',') {
        if other == item {
            return true;
        }
    }
    false
}

// The value of an item of a list between commas, as of `lowerdir=`.
fn value_in<'a>(list: &'a str, name: &str) -> Option<&'a str> {
    for item in list.split(',') {
        if let Some(value) = item.strip_prefix(name) {
            return Some(value);
        }
    }
    None
}

// The number of an optional field, as of `shared:`.
fn tag_in(tags: &str, name: &str) -> Option<u64> {
    for tag in tags.split(' ') {
        if let Some(number) = tag.strip_prefix(name) {
            return number.parse().ok();
        }
    }
    None
}

// How the optional fields say that a mount propagates.
fn propagation_of(tags: &str) -> Propagation {
    Propagation {
        group: tag_in(tags, "shared:"),
        master: tag_in(tags, "master:"),
        unbindable: tags == "unbindable",
    }
}

/// A line of a table, if it is one.
pub fn mount_of(
    alloc: Global,
    table: usize,
    line: u64,
    text: &str,
) -> Result<Option<Mount>, AllocError> {
    let Some(fields) = fields_of(text) else {
        return Ok(None);
    };
    let is_overlay = fields.kind == "overlay";
    let (major, minor) = fields.device.split_once(':').unwrap_or((fields.device, ""));
    let layers = value_in(fields.more, "lowerdir=").filter(|_| is_overlay);
    Ok(Some(Mount {
        table,
        line,
        text: String::from_str(alloc, text)?,
        id: fields.id,
        parent: fields.parent,
        device: format!(in alloc; "{major}-{minor}")?,
        root: unescaped(alloc, fields.root)?,
        point: unescaped(alloc, fields.point)?,
        flags: Flags {
            read_only: has_item(fields.options, "ro"),
            noexec: has_item(fields.options, "noexec"),
            nosymfollow: has_item(fields.options, "nosymfollow"),
        },
        wanted: propagation_of(fields.tags),
        from: tag_in(fields.tags, "propagate_from:"),
        kind: String::from_str(alloc, fields.kind)?,
        layers: unescaped(alloc, layers.unwrap_or_default())?,
        has_upper: value_in(fields.more, "upperdir=").is_some(),
        stands_on: None,
        is_parent: false,
        progress: Progress::Waiting,
        now: PRIVATE,
        is_settled: false,
    }))
}

impl Mount {
    /// Why it cannot be said, if so.
    pub fn unsayable(&self) -> Option<&'static str> {
        let root = self.root.as_str();
        if self.kind.as_str() == "nsfs" || !root.starts_with('/') {
            return Some("a namespace that is bound");
        }
        if root.ends_with("//deleted") {
            return Some("a root that was removed");
        }
        let is_named = is_file_name(last_name(self.point.as_str()))
            || is_file_name(last_name(root));
        (is_named && root != "/" && !self.is_parent).then_some("a file that is bound")
    }

    /// Whether it is waiting to be built.
    pub fn is_waiting(&self) -> bool {
        self.progress == Progress::Waiting
    }

    /// Whether it is built.
    pub fn is_built(&self) -> bool {
        self.progress == Progress::Built
    }
}
