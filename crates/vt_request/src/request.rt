//! What a line of a script asks for.
ghost use Rattle.std.specs.Prelude.{◌≤◌, vec_len};
ghost use Rattle.vt_cred.specs.declared.credentials.TheConstants.{MAX_GROUPS};

use crate::task::TaskName;
use vt_cred::{Caps, MountFlags};
use vt_options::LayerOptions;
use vt_spec::attributes::Mode;

/// The capabilities that a call names.
#[derive(Clone, Copy, Debug, PartialEq, Eq)]
pub enum CapsWord {
    /// All that the caller holds.
    Held,
    Named(Caps),
}

/// What a file is opened for: `O_RDONLY`, `O_WRONLY` or `O_RDWR` of open(2).
#[derive(Clone, Copy, Debug, PartialEq, Eq)]
pub enum Access {
    Read,
    Write,
    ReadWrite,
}

impl Access {
    ghost use Rattle.std.specs.Prelude.{◌≡◌};
    ghost use Rattle.vt_request.specs.Requests.{access_of};
    ghost use Rattle.vt_spec.specs.Language.Calls.{opens_for_reading, opens_for_writing};

    /// Whether the file may be read.
    pub fn reads(self) -> bool
        ensures { result ≡ opens_for_reading (access_of self) }
    {
        self != Access::Write
    }

    /// Whether the file may be written.
    pub fn writes(self) -> bool
        ensures { result ≡ opens_for_writing (access_of self) }
    {
        self != Access::Read
    }
}

/// What open(2) does where the name is missing.
#[derive(Clone, Copy, Debug, PartialEq, Eq)]
pub enum Creation {
    /// Neither flag: the file has to be there.
    Never,
    /// `O_CREAT`: a missing file is made, and asks for this mode.
    OrCreate(Mode),
    /// `O_CREAT` and `O_EXCL`: the file is made, and must not be there yet.
    Exclusive(Mode),
}

/// A propagation type as mount(2) names it: `MS_SHARED`, `MS_SLAVE`, `MS_PRIVATE`, `MS_UNBINDABLE`.
#[derive(Clone, Copy, Debug, PartialEq, Eq)]
pub enum TypeWord {
    Shared,
    Slave,
    Private,
    Unbindable,
}

/// The credentials that fork(2) is given for the child.
#[derive(Debug, Drop, PartialEq, Eq)]
pub struct ForkWords {
    pub uid: u32,
    pub gid: u32,
    /// The groups beside the child's own, at most 32 of them.
    pub groups: Vec<u32>,
    pub caps: CapsWord,
    ghost few_groups: { vec_len groups ≤ MAX_GROUPS },
}

/// A call of a task. Its paths and other texts are lent; it owns the bytes that it writes.
#[derive(Debug, Drop)]
pub enum Call<'a> {
    Look(LookCall<'a>),
    Make(MakeCall<'a>),
    Remove(RemoveCall<'a>),
    Write(WriteCall<'a>),
    Descriptor(DescriptorCall<'a>),
    Task(TaskCall<'a>),
    Mount(MountCall<'a>),
}

/// A call that only looks.
#[derive(Debug, Drop)]
pub enum LookCall<'a> {
    /// The names in a directory: open(2) with `O_DIRECTORY`, then getdents(2).
    Ls {
        path: &'a [u8],
    },
    /// stat(2)
    Stat {
        path: &'a [u8],
    },
    /// lstat(2)
    Lstat {
        path: &'a [u8],
    },
    /// readlink(2)
    Readlink {
        path: &'a [u8],
    },
    /// The whole content of a file: open(2) with `O_RDONLY`, then read(2) to the end.
    Read {
        path: &'a [u8],
    },
    /// execve(2), as far as it asks for rights.
    Exec {
        path: &'a [u8],
    },
    /// pread(2)
    Pread {
        descriptor: u8,
        offset: u32,
        size: u32,
    },
    /// The mounts of the caller's namespace: mountinfo of proc(5).
    ListMounts,
}

/// A call that makes a name.
#[derive(Debug, Drop)]
pub enum MakeCall<'a> {
    /// mkdir(2)
    Mkdir { path: &'a [u8], mode: Option<Mode> },
    /// symlink(2): a link with this text at this path.
    Symlink { text: &'a [u8], path: &'a [u8] },
    /// mknod(2) of a whiteout, the character device 0/0.
    Whiteout { path: &'a [u8] },
    /// link(2)
    Link { old: &'a [u8], new: &'a [u8] },
}

/// A call that takes a name away.
#[derive(Debug, Drop)]
pub enum RemoveCall<'a> {
    /// unlink(2)
    Unlink { path: &'a [u8] },
    /// rmdir(2)
    Rmdir { path: &'a [u8] },
    /// rename(2)
    Rename { old: &'a [u8], new: &'a [u8] },
}

/// A call that sets the content, the owner or the mode of an object, or the mark of a directory.
#[derive(Debug, Drop)]
pub enum WriteCall<'a> {
    /// Sets the whole content of a file, and makes a missing one: open(2) with `O_WRONLY`,
    /// `O_CREAT` and `O_TRUNC`, then write(2).
    Write {
        path: &'a [u8],
        bytes: Vec<u8>,
    },
    /// pwrite(2)
    Pwrite {
        descriptor: u8,
        offset: u32,
        bytes: Vec<u8>,
    },
    /// chmod(2)
    Chmod {
        path: &'a [u8],
        mode: Mode,
    },
    /// chown(2): `None` keeps the user, or the group.
    Chown {
        path: &'a [u8],
        uid: Option<u32>,
        gid: Option<u32>,
    },
    /// setxattr(2) of `trusted.overlay.opaque`: a directory is marked, or no longer.
    Opaque {
        path: &'a [u8],
        mark: bool,
    },
}

/// A call that opens or closes a file.
#[derive(Debug, Drop)]
pub enum DescriptorCall<'a> {
    /// open(2)
    Open {
        path: &'a [u8],
        access: Access,
        creation: Creation,
    },
    /// close(2)
    Close {
        descriptor: u8,
    },
}

/// A call that changes the caller, or makes a task.
#[derive(Debug, Drop)]
pub enum TaskCall<'a> {
    /// chdir(2)
    Chdir { path: &'a [u8] },
    /// chroot(2)
    Chroot { path: &'a [u8] },
    /// umask(2)
    Umask { mode: Mode },
    /// Gives capabilities up: capset(2).
    Drop { caps: CapsWord },
    /// fork(2): with the caller's credentials, or with these.
    Fork { words: Option<ForkWords> },
    /// _exit(2)
    Exit,
    /// unshare(2) with `CLONE_NEWNS`
    Unshare,
    /// setns(2): the namespace of this task.
    Setns { task: TaskName },
}

/// A call that changes mounts.
#[derive(Debug, Drop)]
pub enum MountCall<'a> {
    /// mount(2) of a new, empty tmpfs
    Plain {
        path: &'a [u8],
        flags: MountFlags,
    },
    /// mount(2) of an overlay with these options, or with a text that is no list of options
    Overlay {
        path: &'a [u8],
        options: Result<LayerOptions<'a>, &'a [u8]>,
        flags: MountFlags,
    },
    /// mount(2) with `MS_BIND`, and `MS_REC`
    Bind {
        source: &'a [u8],
        path: &'a [u8],
        recursive: bool,
    },
    /// mount(2) with `MS_MOVE`
    Move {
        source: &'a [u8],
        path: &'a [u8],
    },
    /// umount(2)
    Umount {
        path: &'a [u8],
    },
    /// umount(2) with `MNT_DETACH`
    Lazy {
        path: &'a [u8],
    },
    /// mount(2) with `MS_REMOUNT` and `MS_BIND`
    Remount {
        path: &'a [u8],
        flags: MountFlags,
    },
    /// mount(2) with a propagation type, and `MS_REC`
    SetType {
        path: &'a [u8],
        word: TypeWord,
        recursive: bool,
    },
    /// pivot_root(2)
    Pivot {
        new: &'a [u8],
        put: &'a [u8],
    },
}

/// The most tasks that a directive names.
pub const MOST_NAMED_TASKS: usize = 64;

/// What a line asks of all namespaces together. It is no task's, and needs no right.
#[derive(Debug, Drop, PartialEq, Eq)]
pub enum Directive {
    /// The peer groups of all namespaces.
    Peers,
    /// Whether these tasks, [`MOST_NAMED_TASKS`] at most, are sealed off from all others. A name that stands twice
    /// counts once.
    Sealed { tasks: Vec<TaskName> },
}
