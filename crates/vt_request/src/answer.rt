//! What a call answers.

use crate::task::TaskName;
use vt_cred::MountFlags;
use vt_spec::attributes::{Attr, Kind};

/// What stat(2) and lstat(2) tell of an object.
#[derive(Clone, Copy, Debug, PartialEq, Eq)]
pub struct StatLine {
    pub kind: Kind,
    pub attr: Attr,
    /// The bytes of a file's content, or of a link's text.
    pub size: usize,
    /// Whether a directory has the mark that hides what lies below it in an overlay.
    pub opaque: bool,
}

/// Where a mount stands, or where the tree begins that it shows.
#[derive(Debug, Drop, PartialEq, Eq)]
pub enum Spot {
    /// Nowhere any more: a directory on the way has lost its name.
    Gone,
    /// At the end of these names: from the root of the mount that it stands on, or of its filesystem.
    Reached(Vec<Vec<u8>>),
}

/// The propagation type of a mount, its groups by the numbers that they are printed with.
#[derive(Clone, Copy, Debug, PartialEq, Eq)]
pub enum TypeLine {
    Shared { group: usize, master: Option<usize> },
    Slave { master: usize },
    Private,
    Unbindable,
}

/// A line of the list of mounts: mountinfo of proc(5), in the product's form.
#[derive(Debug, Drop, PartialEq, Eq)]
pub struct MountLine {
    /// The place in the list of the mount that it stands on, from 1 on (0: that one is not in the list), and where it
    /// stands there. The root mount of a namespace has none.
    pub mount_point: Option<(usize, Spot)>,
    /// Whether its filesystem is an overlay.
    pub overlay: bool,
    /// Its filesystem, by where that first stands in the list, from 1 on.
    pub filesystem: usize,
    /// Where in its filesystem the tree begins that it shows.
    pub root: Spot,
    pub flags: MountFlags,
    pub kind: TypeLine,
}

/// A mount by its namespace and its place: the namespace by its creation, among those that did not end, the place as in
/// the list of the namespace's mounts. Both from 1 on.
#[derive(Clone, Copy, Debug, PartialEq, Eq)]
pub struct MountPlace {
    pub namespace: usize,
    pub place: usize,
}

/// A line of the list of peer groups, in the product's form.
#[derive(Debug, Drop, PartialEq, Eq)]
pub struct PeerLine {
    /// The group, by where it first stands among the types of all mounts, from 1 on.
    pub group: usize,
    /// The group from which it receives.
    pub master: Option<usize>,
    /// The mounts in the group.
    pub members: Vec<MountPlace>,
    /// The mounts that receive from the group and are in none.
    pub slaves: Vec<MountPlace>,
}

/// What a call that was granted tells, or a directive.
#[derive(Debug, Drop, PartialEq, Eq)]
pub enum Answer {
    /// That it was done.
    Done,
    /// The content of a file, or the text of a link.
    Bytes(Vec<u8>),
    /// The names in a directory.
    Names(Vec<Vec<u8>>),
    /// What an object is.
    Told(StatLine),
    /// The descriptor of a file that was opened.
    Opened(u8),
    /// The name of the child that was made.
    Child(TaskName),
    /// The mounts of the caller's namespace, in the order of their attachment.
    MountList(Vec<MountLine>),
    /// The peer groups of all namespaces.
    PeerList(Vec<PeerLine>),
    /// Whether tasks are sealed off from all others.
    YesNo(bool),
}
