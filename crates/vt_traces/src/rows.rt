//! The calls of a trace by their names: what they do, and where their arguments stand.

/// What a call does.
#[derive(Clone, Copy, PartialEq, Eq)]
pub enum Verb {
    Mkdir,
    Unlink,
    Rmdir,
    Rename,
    Link,
    Symlink,
    Readlink,
    Stat,
    Lstat,
    Access,
    Open,
    Creat,
    Chdir,
    Fchdir,
    Getcwd,
    Chroot,
    Chmod,
    Chown,
    Umask,
    Exec,
    Mount,
    Umount,
    Pivot,
    Unshare,
    Setns,
    Fork,
    Close,
    Dup,
    /// The process is about to end, as another line tells.
    Exit,
    /// It changes no file, mount or task.
    Look,
}

/// Where a path stands among arguments: the descriptor of a directory, if one is given, and the text.
#[derive(Clone, Copy)]
pub struct At {
    pub directory: Option<usize>,
    pub text: usize,
}

/// How the paths of a call stand among its arguments.
#[derive(Clone, Copy)]
pub enum Form {
    /// They stand first.
    Plain,
    /// Each stands behind the descriptor of a directory.
    At,
    /// The path stands behind a text, which counts as the second.
    Behind,
    /// The same, with the descriptor of a directory between them.
    BehindAt,
}

/// A call of a trace: where its paths stand, and what follows them.
#[derive(Clone, Copy)]
pub struct Row {
    pub name: &'static str,
    pub verb: Verb,
    form: Form,
    pub rest: usize,
}

// A path that no descriptor stands before.
fn plain(text: usize) -> At {
    At {
        directory: None,
        text,
    }
}

// A path behind a descriptor.
fn behind(directory: usize) -> At {
    At {
        directory: Some(directory),
        text: directory.saturating_add(1),
    }
}

impl Row {
    /// Where the first path stands.
    pub fn first(self) -> At {
        match self.form {
            Form::Plain => plain(0),
            Form::At => behind(0),
            Form::Behind => plain(1),
            Form::BehindAt => behind(1),
        }
    }

    /// Where the second path or text stands.
    pub fn second(self) -> At {
        match self.form {
            Form::Plain => plain(1),
            Form::At => behind(2),
            Form::Behind | Form::BehindAt => plain(0),
        }
    }
}

// Calls on names.
static NAMES: [Row; 18] = [
    Row {
        name: "mkdir",
        verb: Verb::Mkdir,
        form: Form::Plain,
        rest: 1,
    },
    Row {
        name: "mkdirat",
        verb: Verb::Mkdir,
        form: Form::At,
        rest: 2,
    },
    Row {
        name: "rmdir",
        verb: Verb::Rmdir,
        form: Form::Plain,
        rest: 1,
    },
    Row {
        name: "unlink",
        verb: Verb::Unlink,
        form: Form::Plain,
        rest: 1,
    },
    Row {
        name: "unlinkat",
        verb: Verb::Unlink,
        form: Form::At,
        rest: 2,
    },
    Row {
        name: "rename",
        verb: Verb::Rename,
        form: Form::Plain,
        rest: 2,
    },
    Row {
        name: "renameat",
        verb: Verb::Rename,
        form: Form::At,
        rest: 4,
    },
    Row {
        name: "renameat2",
        verb: Verb::Rename,
        form: Form::At,
        rest: 4,
    },
    Row {
        name: "link",
        verb: Verb::Link,
        form: Form::Plain,
        rest: 2,
    },
    Row {
        name: "linkat",
        verb: Verb::Link,
        form: Form::At,
        rest: 4,
    },
    Row {
        name: "symlink",
        verb: Verb::Symlink,
        form: Form::Behind,
        rest: 2,
    },
    Row {
        name: "symlinkat",
        verb: Verb::Symlink,
        form: Form::BehindAt,
        rest: 3,
    },
    Row {
        name: "readlink",
        verb: Verb::Readlink,
        form: Form::Plain,
        rest: 1,
    },
    Row {
        name: "readlinkat",
        verb: Verb::Readlink,
        form: Form::At,
        rest: 2,
    },
    Row {
        name: "chdir",
        verb: Verb::Chdir,
        form: Form::Plain,
        rest: 1,
    },
    Row {
        name: "fchdir",
        verb: Verb::Fchdir,
        form: Form::Plain,
        rest: 1,
    },
    Row {
        name: "getcwd",
        verb: Verb::Getcwd,
        form: Form::Plain,
        rest: 1,
    },
    Row {
        name: "chroot",
        verb: Verb::Chroot,
        form: Form::Plain,
        rest: 1,
    },
];

// Calls on objects, and on descriptors.
static OBJECTS: [Row; 26] = [
    Row {
        name: "stat",
        verb: Verb::Stat,
        form: Form::Plain,
        rest: 2,
    },
    Row {
        name: "lstat",
        verb: Verb::Lstat,
        form: Form::Plain,
        rest: 2,
    },
    Row {
        name: "newfstatat",
        verb: Verb::Stat,
        form: Form::At,
        rest: 3,
    },
    Row {
        name: "statx",
        verb: Verb::Stat,
        form: Form::At,
        rest: 2,
    },
    Row {
        name: "access",
        verb: Verb::Access,
        form: Form::Plain,
        rest: 1,
    },
    Row {
        name: "faccessat",
        verb: Verb::Access,
        form: Form::At,
        rest: 2,
    },
    Row {
        name: "faccessat2",
        verb: Verb::Access,
        form: Form::At,
        rest: 2,
    },
    Row {
        name: "open",
        verb: Verb::Open,
        form: Form::Plain,
        rest: 1,
    },
    Row {
        name: "openat",
        verb: Verb::Open,
        form: Form::At,
        rest: 2,
    },
    Row {
        name: "creat",
        verb: Verb::Creat,
        form: Form::Plain,
        rest: 1,
    },
    Row {
        name: "chmod",
        verb: Verb::Chmod,
        form: Form::Plain,
        rest: 1,
    },
    Row {
        name: "fchmodat",
        verb: Verb::Chmod,
        form: Form::At,
        rest: 2,
    },
    Row {
        name: "chown",
        verb: Verb::Chown,
        form: Form::Plain,
        rest: 1,
    },
    Row {
        name: "fchownat",
        verb: Verb::Chown,
        form: Form::At,
        rest: 2,
    },
    Row {
        name: "umask",
        verb: Verb::Umask,
        form: Form::Plain,
        rest: 0,
    },
    Row {
        name: "execve",
        verb: Verb::Exec,
        form: Form::Plain,
        rest: 1,
    },
    Row {
        name: "execveat",
        verb: Verb::Exec,
        form: Form::At,
        rest: 4,
    },
    Row {
        name: "close",
        verb: Verb::Close,
        form: Form::Plain,
        rest: 0,
    },
    Row {
        name: "dup",
        verb: Verb::Dup,
        form: Form::Plain,
        rest: 0,
    },
    Row {
        name: "dup2",
        verb: Verb::Dup,
        form: Form::Plain,
        rest: 0,
    },
    Row {
        name: "dup3",
        verb: Verb::Dup,
        form: Form::Plain,
        rest: 0,
    },
    Row {
        name: "fcntl",
        verb: Verb::Dup,
        form: Form::Plain,
        rest: 0,
    },
    Row {
        name: "fstat",
        verb: Verb::Look,
        form: Form::Plain,
        rest: 0,
    },
    Row {
        name: "statfs",
        verb: Verb::Look,
        form: Form::Plain,
        rest: 0,
    },
    Row {
        name: "getxattr",
        verb: Verb::Look,
        form: Form::Plain,
        rest: 0,
    },
    Row {
        name: "lgetxattr",
        verb: Verb::Look,
        form: Form::Plain,
        rest: 0,
    },
];

// Calls of mounts and of processes.
static MOUNTS: [Row; 14] = [
    Row {
        name: "mount",
        verb: Verb::Mount,
        form: Form::Plain,
        rest: 3,
    },
    Row {
        name: "umount",
        verb: Verb::Umount,
        form: Form::Plain,
        rest: 1,
    },
    Row {
        name: "umount2",
        verb: Verb::Umount,
        form: Form::Plain,
        rest: 1,
    },
    Row {
        name: "pivot_root",
        verb: Verb::Pivot,
        form: Form::Plain,
        rest: 2,
    },
    Row {
        name: "unshare",
        verb: Verb::Unshare,
        form: Form::Plain,
        rest: 0,
    },
    Row {
        name: "setns",
        verb: Verb::Setns,
        form: Form::Plain,
        rest: 0,
    },
    Row {
        name: "clone",
        verb: Verb::Fork,
        form: Form::Plain,
        rest: 0,
    },
    Row {
        name: "clone3",
        verb: Verb::Fork,
        form: Form::Plain,
        rest: 0,
    },
    Row {
        name: "fork",
        verb: Verb::Fork,
        form: Form::Plain,
        rest: 0,
    },
    Row {
        name: "vfork",
        verb: Verb::Fork,
        form: Form::Plain,
        rest: 0,
    },
    Row {
        name: "exit",
        verb: Verb::Exit,
        form: Form::Plain,
        rest: 0,
    },
    Row {
        name: "exit_group",
        verb: Verb::Exit,
        form: Form::Plain,
        rest: 0,
    },
    Row {
        name: "inotify_add_watch",
        verb: Verb::Look,
        form: Form::Plain,
        rest: 0,
    },
    Row {
        name: "readahead",
        verb: Verb::Look,
        form: Form::Plain,
        rest: 0,
    },
];

// The row of this name among these.
fn row_in(rows: &'static [Row], name: &str) -> Option<Row> {
    for row in rows {
        if row.name == name {
            return Some(*row);
        }
    }
    None
}

fn names() -> &'static [Row] {
    &NAMES
}

fn objects() -> &'static [Row] {
    &OBJECTS
}

fn mounts() -> &'static [Row] {
    &MOUNTS
}

/// The call of this name, if it is known.
pub fn row_named(name: &str) -> Option<Row> {
    let found = row_in(objects(), name).or(row_in(mounts(), name));
    found.or(row_in(names(), name))
}
