//! Grants: each names all that the call acts on.

use vt_cred::{Caps, Cred, Mode, MountFlags};
use vt_location::{FilesystemId, Location, MountId, NamespaceId, NodeRef};
use vt_node::{Attr, NewNode};
use vt_request::{Access, TypeWord};

/// What a call is granted. It fits the world in which the call was judged, and no other.
#[derive(Debug, Drop)]
pub enum Grant {
    Look(LookGrant),
    Make(MakeGrant),
    Remove(RemoveGrant),
    Write(WriteGrant),
    Descriptor(DescriptorGrant),
    Task(TaskGrant),
    Mount(MountGrant),
    /// A new overlay is mounted: mount(2).
    Overlay(ToMountOverlay),
}

/// Something is read, and nothing changes.
#[derive(Debug, Drop)]
pub enum LookGrant {
    /// No effect; the answer is `ok`: execve(2), rename(2) of two names of one object.
    Nothing,
    /// getdents(2)
    List { directory: Location },
    /// stat(2), lstat(2)
    Stat { object: Location },
    /// read(2), readlink(2)
    Read { file: Location },
    /// pread(2)
    ReadPart(ToReadPart),
    /// mountinfo of proc(5)
    ListMounts,
}

/// pread(2)
#[derive(Clone, Copy, Debug, PartialEq, Eq)]
pub struct ToReadPart {
    pub file: Location,
    pub offset: usize,
    pub size: usize,
}

/// A directory gets a name.
#[derive(Debug, Drop)]
pub enum MakeGrant {
    /// mkdir(2), symlink(2), mknod(2), and open(2) with `O_CREAT` before write(2)
    Node(ToMake),
    /// link(2)
    Link(ToLink),
}

/// A new inode under a name of a directory.
#[derive(Debug, Drop)]
pub struct ToMake {
    pub directory: Location,
    pub name: Vec<u8>,
    pub node: NewNode,
}

/// A further name of an inode.
#[derive(Debug, Drop)]
pub struct ToLink {
    pub directory: Location,
    pub name: Vec<u8>,
    pub object: NodeRef,
}

/// A directory loses a name.
#[derive(Debug, Drop)]
pub enum RemoveGrant {
    /// unlink(2)
    Unlink(ToUnlink),
    /// rmdir(2)
    Directory(ToRemoveDirectory),
    /// rename(2). In a box, since it is larger than all others, which are handed on by value.
    Rename(Box<ToRename>),
}

/// The name of an inode that is no directory.
#[derive(Debug, Drop)]
pub struct ToUnlink {
    pub directory: Location,
    pub name: Vec<u8>,
    pub object: NodeRef,
}

/// The name of a directory: the mounts on it are detached.
#[derive(Debug, Drop)]
pub struct ToRemoveDirectory {
    pub parent: Location,
    pub name: Vec<u8>,
    pub directory: Location,
}

/// An object gets another name: what had that name loses it, and the mounts on it are detached.
#[derive(Debug, Drop)]
pub struct ToRename {
    pub from: Location,
    pub old: Vec<u8>,
    pub to: Location,
    pub new: Vec<u8>,
    pub object: Location,
    pub replaced: Option<Location>,
}

/// An object gets another content, owner or mode, or a directory another mark.
#[derive(Debug, Drop)]
pub enum WriteGrant {
    /// The whole content: write(2) after open(2) with `O_TRUNC`.
    Content { file: Location, bytes: Vec<u8> },
    /// pwrite(2)
    Part(ToWritePart),
    /// chmod(2), chown(2)
    Attr { object: Location, attr: Attr },
    /// setxattr(2) of `trusted.overlay.opaque`
    Mark { directory: Location, opaque: bool },
}

/// pwrite(2)
#[derive(Debug, Drop)]
pub struct ToWritePart {
    pub file: Location,
    pub offset: usize,
    pub bytes: Vec<u8>,
}

/// A file is opened or closed.
#[derive(Debug, Drop)]
pub enum DescriptorGrant {
    /// open(2)
    Open { file: Location, access: Access },
    /// open(2) with `O_CREAT`
    OpenNew(ToOpenNew),
    /// close(2)
    Close { descriptor: u8 },
}

/// A new file, opened without rights on itself.
#[derive(Debug, Drop)]
pub struct ToOpenNew {
    pub directory: Location,
    pub name: Vec<u8>,
    pub node: NewNode,
    pub access: Access,
}

/// The caller changes, or another task comes.
#[derive(Debug, Drop)]
pub enum TaskGrant {
    /// chdir(2)
    SetDirectory { directory: Location },
    /// chroot(2)
    SetRoot { root: Location },
    /// umask(2)
    SetUmask { umask: Mode },
    /// capset(2)
    DropCaps { caps: Caps },
    /// fork(2)
    Fork { cred: Cred },
    /// _exit(2)
    Exit,
    /// unshare(2) with `CLONE_NEWNS`
    Unshare,
    /// setns(2)
    EnterNamespace { namespace: NamespaceId },
}

/// Mounts come, go, move or change.
#[derive(Debug, Drop)]
pub enum MountGrant {
    Attach(Attachment),
    /// umount(2)
    Unmount { mount: MountId },
    /// umount(2) with `MNT_DETACH`
    UnmountLazily { mount: MountId },
    /// mount(2) with `MS_REMOUNT` and `MS_BIND`
    SetFlags { mount: MountId, flags: MountFlags },
    /// mount(2) with a propagation type, and `MS_REC`
    SetType(ToSetType),
    /// The mount becomes the root mount, and the old root mount stands at `put`: pivot_root(2).
    Pivot { new: MountId, put: Location },
}

/// Mounts that are attached, and where.
#[derive(Clone, Copy, Debug, PartialEq, Eq)]
pub enum Attachment {
    /// The mount of a new, empty filesystem: mount(2) of a tmpfs.
    Plain {
        destination: Location,
        flags: MountFlags,
    },
    /// A copy of the mount of a source, or of its tree: mount(2) with `MS_BIND`, and `MS_REC`.
    Bind(ToBind),
    /// A mount with its descendants: mount(2) with `MS_MOVE`.
    Move {
        mount: MountId,
        destination: Location,
    },
}

/// mount(2) with `MS_BIND`; if it is recursive, with `MS_REC`.
#[derive(Clone, Copy, Debug, PartialEq, Eq)]
pub struct ToBind {
    pub source: Location,
    pub destination: Location,
    pub recursive: bool,
}

/// mount(2) with a propagation type; if it is recursive, with `MS_REC`.
#[derive(Clone, Copy, Debug, PartialEq, Eq)]
pub struct ToSetType {
    pub mount: MountId,
    pub word: TypeWord,
    pub recursive: bool,
}

/// The mount of a new overlay: mount(2). The caller is its mounter.
#[derive(Debug, Drop)]
pub struct ToMountOverlay {
    pub destination: Location,
    /// The highest first.
    pub lowers: Vec<NewLayer>,
    /// The upper and the work directory.
    pub upper: Option<NewLayer>,
    pub work: Option<NewLayer>,
    pub flags: MountFlags,
}

/// A layer of a new overlay: a directory, and the filesystem of the mount on which it was found.
#[derive(Clone, Copy, Debug, PartialEq, Eq)]
pub struct NewLayer {
    pub filesystem: FilesystemId,
    pub directory: NodeRef,
}
