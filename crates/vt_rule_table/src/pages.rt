//! Each rule with its meaning, the calls that it refuses, where it is written, and a script that shows it.
use vt_spec::errors::Rule;

/// A rule, as the pages have it.
pub struct RulePage {
    /// When it refuses a call.
    pub meaning: &'static str,
    /// The calls that it can refuse; none in this version where this is empty.
    pub calls: &'static [&'static str],
    /// The manual page that has it.
    pub manual: &'static str,
    /// Lines of a script, each beside its answer if that is not `ok`, of which the last is refused by the rule. Empty
    /// where no short one is.
    pub script: &'static str,
}

/// The rules, in the order in which they are checked.
pub static RULES: [Rule; 52] = [
    Rule::S1,
    Rule::S2,
    Rule::S3,
    Rule::S4,
    Rule::S5,
    Rule::S6,
    Rule::K1,
    Rule::W1,
    Rule::W2,
    Rule::W3,
    Rule::W4,
    Rule::W5,
    Rule::W6,
    Rule::W7,
    Rule::W8,
    Rule::W9,
    Rule::E1,
    Rule::E2,
    Rule::E3,
    Rule::E4,
    Rule::E5,
    Rule::E6,
    Rule::E7,
    Rule::E8,
    Rule::E9,
    Rule::F1,
    Rule::F2,
    Rule::F3,
    Rule::L1,
    Rule::P1,
    Rule::P2,
    Rule::C1,
    Rule::C2,
    Rule::C3,
    Rule::O1,
    Rule::O2,
    Rule::O3,
    Rule::O4,
    Rule::O5,
    Rule::B1,
    Rule::B2,
    Rule::M2,
    Rule::M3,
    Rule::M4,
    Rule::M5,
    Rule::M6,
    Rule::M7,
    Rule::M8,
    Rule::M9,
    Rule::M10,
    Rule::M11,
    Rule::M12,
];

/// The rules, in the order in which they are checked. Each name of the table itself costs its whole proof.
pub fn rules() -> &'static [Rule] {
    &RULES
}

// All calls, and those that are given a path.
const ALL: [&str; 40] = [
    "ls",
    "stat",
    "lstat",
    "readlink",
    "read",
    "write",
    "exec",
    "mkdir",
    "symlink",
    "whiteout",
    "link",
    "unlink",
    "rmdir",
    "rename",
    "chmod",
    "chown",
    "opaque",
    "open",
    "pread",
    "pwrite",
    "close",
    "chdir",
    "chroot",
    "umask",
    "drop",
    "fork",
    "exit",
    "unshare",
    "setns",
    "mount",
    "bind",
    "rbind",
    "move",
    "umount",
    "lazy",
    "remount",
    "type",
    "rtype",
    "mounts",
    "pivot_root",
];

const PATHS: [&str; 30] = [
    "ls",
    "stat",
    "lstat",
    "readlink",
    "read",
    "write",
    "exec",
    "mkdir",
    "symlink",
    "whiteout",
    "link",
    "unlink",
    "rmdir",
    "rename",
    "chmod",
    "chown",
    "opaque",
    "open",
    "chdir",
    "chroot",
    "mount",
    "bind",
    "rbind",
    "move",
    "umount",
    "lazy",
    "remount",
    "type",
    "rtype",
    "pivot_root",
];

static S1: RulePage = RulePage {
    meaning: "the line is not of the grammar",
    calls: &ALL,
    manual: "a choice of this machine; `vtree check` tells why",
    script: "t frob / => deny 22 EINVAL S1\n",
};

static S2: RulePage = RulePage {
    meaning: "no task has this name",
    calls: &ALL,
    manual: "a choice of this machine",
    script: "t fork => ok t.1\nt.2 ls / => deny 3 ESRCH S2\n! sealed t t.2 => deny 3 ESRCH S2\n",
};

static S3: RulePage = RulePage {
    meaning: "the task has 256 open descriptors",
    calls: &["open"],
    manual: "open(2), EMFILE",
    script: "",
};

static S4: RulePage = RulePage {
    meaning: "no open descriptor has this number, or it is not open for this",
    calls: &["pread", "pwrite", "close"],
    manual: "read(2), EBADF",
    script: "t close 0 => deny 9 EBADF S4\n",
};

static S5: RulePage = RulePage {
    meaning: "an allocation failed; the line has no effect",
    calls: &ALL,
    manual: "open(2), ENOMEM",
    script: "",
};

static S6: RulePage = RulePage {
    meaning: "the task has forked 64 times, or its name has 8 numbers",
    calls: &["fork"],
    manual: "a choice of this machine",
    script: "",
};

static K1: RulePage = RulePage {
    meaning: "a capability is missing",
    calls: &[
        "opaque",
        "fork",
        "chroot",
        "unshare",
        "setns",
        "mount",
        "bind",
        "rbind",
        "move",
        "umount",
        "lazy",
        "remount",
        "type",
        "rtype",
        "pivot_root",
    ],
    manual: "capabilities(7)",
    script: "t drop *\nt unshare => deny 1 EPERM K1\n",
};

static W1: RulePage = RulePage {
    meaning: "the path is empty",
    calls: &PATHS,
    manual: "path_resolution(7)",
    script: "t ls \\e => deny 2 ENOENT W1\n",
};

static W2: RulePage = RulePage {
    meaning: "the path has more than 4,095 bytes, or a name in it more than 255",
    calls: &PATHS,
    manual: "path_resolution(7), ENAMETOOLONG",
    script: "t ls /aaaaaaaaaaaaaaaaaaaaaaaaaaaaaaaaaaaaaaaaaaaaaaaaaaaaaaaaaaaaaaaaaaaaaaaaaaaaaaaaaaaaaaaaaaaaaaaaaaaaaaaaaaaaaaaaaaaaaaaaaaaaaaaaaaaaaaaaaaaaaaaaaaaaaaaaaaaaaaaaaaaaaaaaaaaaaaaaaaaaaaaaaaaaaaaaaaaaaaaaaaaaaaaaaaaaaaaaaaaaaaaaaaaaaaaaaaaaaaaaaaaaaaaaaaaaaaaa => deny 36 ENAMETOOLONG W2\n",
};

static W3: RulePage = RulePage {
    meaning: "a directory is needed, and there is none",
    calls: &PATHS,
    manual: "path_resolution(7)",
    script: "t write /f x\nt ls /f/g => deny 20 ENOTDIR W3\n",
};

static W4: RulePage = RulePage {
    meaning: "the caller may not search a directory on the way",
    calls: &PATHS,
    manual: "path_resolution(7)",
    script: "t mkdir /d 700\nt fork 1 1 - - => ok t.1\nt.1 stat /d/f => deny 13 EACCES W4\n",
};

static W5: RulePage = RulePage {
    meaning: "the mounter of an overlay may not search a directory on the way",
    calls: &PATHS,
    manual: "the kernel: Documentation/filesystems/overlayfs.rst",
    script: "t mkdir /l\nt mkdir /l/d 700\nt mkdir /k\nt mkdir /m\nt fork 1 1 - CAP_SYS_ADMIN => ok t.1\nt.1 mount overlay /m lowerdir=/l:/k\nt stat /m/d/f => deny 13 EACCES W5\n",
};

static W6: RulePage = RulePage {
    meaning: "a name is missing",
    calls: &PATHS,
    manual: "path_resolution(7)",
    script: "t read /no => deny 2 ENOENT W6\n",
};

static W7: RulePage = RulePage {
    meaning: "a path leads through more than 40 symlinks",
    calls: &PATHS,
    manual: "path_resolution(7), ELOOP",
    script: "t symlink a /a\nt read /a => deny 40 ELOOP W7\n",
};

static W8: RulePage = RulePage {
    meaning: "a directory on the way is removed, or no longer under the root of its mount",
    calls: &PATHS,
    manual: "path_resolution(7)",
    script: "t mkdir /d\nt chdir /d\nt rmdir /d\nt mkdir e => deny 2 ENOENT W8\n",
};

static W9: RulePage = RulePage {
    meaning: "a symlink that is followed is on a mount with nosymfollow, a flag of script version 2",
    calls: &PATHS,
    manual: "mount(8), nosymfollow",
    script: "",
};

static E1: RulePage = RulePage {
    meaning: "the name exists",
    calls: &["mkdir", "symlink", "whiteout", "link", "open"],
    manual: "mkdir(2)",
    script: "t mkdir /d\nt mkdir /d => deny 17 EEXIST E1\n",
};

static E2: RulePage = RulePage {
    meaning: "a directory where none may be",
    calls: &["read", "write", "unlink", "rename", "open"],
    manual: "open(2), EISDIR",
    script: "t mkdir /d\nt read /d => deny 21 EISDIR E2\n",
};

static E3: RulePage = RulePage {
    meaning: "no directory where one must be",
    calls: &["rmdir", "rename"],
    manual: "rmdir(2)",
    script: "t write /f x\nt rmdir /f => deny 20 ENOTDIR E3\n",
};

static E4: RulePage = RulePage {
    meaning: "the directory has entries",
    calls: &["rmdir", "rename"],
    manual: "rmdir(2)",
    script: "t mkdir /d\nt mkdir /d/e\nt rmdir /d => deny 39 ENOTEMPTY E4\n",
};

static E5: RulePage = RulePage {
    meaning: "a directory moved below itself, `rmdir` of `.`, `readlink` of no symlink",
    calls: &["readlink", "rmdir", "rename"],
    manual: "rename(2), readlink(2)",
    script: "t mkdir /d\nt rename /d /d/e => deny 22 EINVAL E5\n",
};

static E6: RulePage = RulePage {
    meaning: "the file would have more than 1,048,576 bytes",
    calls: &["write", "pwrite"],
    manual: "write(2), EFBIG",
    script: "t open /f rw create 644 => ok 0\nt pwrite 0 1048576 x => deny 27 EFBIG E6\n",
};

static E7: RulePage = RulePage {
    meaning: "a hard link to a directory",
    calls: &["link"],
    manual: "link(2)",
    script: "t mkdir /d\nt link /d /e => deny 1 EPERM E7\n",
};

static E8: RulePage = RulePage {
    meaning: "what is executed is no regular file",
    calls: &["exec"],
    manual: "execve(2)",
    script: "t mkdir /d\nt exec /d => deny 13 EACCES E8\n",
};

static E9: RulePage = RulePage {
    meaning: "a whiteout is opened",
    calls: &["read", "write", "open"],
    manual: "open(2), ENXIO; the kernel: Documentation/filesystems/overlayfs.rst",
    script: "t whiteout /w\nt read /w => deny 6 ENXIO E9\n",
};

static F1: RulePage = RulePage {
    meaning: "the mount is read-only",
    calls: &[
        "write", "mkdir", "symlink", "whiteout", "link", "unlink", "rmdir", "rename", "chmod",
        "chown", "opaque", "open",
    ],
    manual: "mount(2), MS_RDONLY",
    script: "t remount / ro\nt mkdir /d => deny 30 EROFS F1\n",
};

static F2: RulePage = RulePage {
    meaning: "the overlay has no upper layer",
    calls: &[
        "write", "mkdir", "symlink", "whiteout", "link", "unlink", "rmdir", "rename", "chmod",
        "chown", "opaque", "open",
    ],
    manual: "the kernel: Documentation/filesystems/overlayfs.rst",
    script: "t mkdir /l\nt mkdir /k\nt mkdir /m\nt mount overlay /m lowerdir=/l:/k\nt mkdir /m/d => deny 30 EROFS F2\n",
};

static F3: RulePage = RulePage {
    meaning: "the mount has `noexec`",
    calls: &["exec"],
    manual: "mount(2), MS_NOEXEC",
    script: "t write /f x\nt remount / rw,noexec\nt exec /f => deny 13 EACCES F3\n",
};

static L1: RulePage = RulePage {
    meaning: "the object is in a layer of an overlay in use",
    calls: &[
        "write", "mkdir", "symlink", "whiteout", "link", "unlink", "rmdir", "rename", "chmod",
        "chown", "opaque", "open", "pwrite",
    ],
    manual: "a choice of this machine",
    script: "t mkdir /l\nt mkdir /k\nt mkdir /m\nt mount overlay /m lowerdir=/l:/k\nt mkdir /l/d => deny 16 EBUSY L1\n",
};

static P1: RulePage = RulePage {
    meaning: "a mount stands on the directory; or `rename` from or to `.`, `..` or `/`, or `rmdir` of `/`",
    calls: &["rmdir", "rename"],
    manual: "rmdir(2), EBUSY",
    script: "t mkdir /d\nt mount plain /d\nt rmdir /d => deny 16 EBUSY P1\n",
};

static P2: RulePage = RulePage {
    meaning: "from one mount to another",
    calls: &["link", "rename"],
    manual: "rename(2), EXDEV",
    script: "t mkdir /d\nt mount plain /d\nt write /f x\nt rename /f /d/f => deny 18 EXDEV P2\n",
};

static C1: RulePage = RulePage {
    meaning: "the bits of the object refuse it to the caller",
    calls: &[
        "ls", "read", "write", "exec", "mkdir", "symlink", "whiteout", "link", "unlink", "rmdir",
        "rename", "open", "chdir", "chroot",
    ],
    manual: "path_resolution(7)",
    script: "t fork 1 1 - - => ok t.1\nt.1 mkdir /d => deny 13 EACCES C1\n",
};

static C2: RulePage = RulePage {
    meaning: "the caller does not own the object, or may not give it away",
    calls: &["chmod", "chown"],
    manual: "chmod(2), chown(2)",
    script: "t write /f x\nt fork 1 1 - - => ok t.1\nt.1 chmod /f 777 => deny 1 EPERM C2\n",
};

static C3: RulePage = RulePage {
    meaning: "the sticky bit of the directory, in which another owns the object",
    calls: &["unlink", "rmdir", "rename"],
    manual: "unlink(2), EPERM",
    script: "t chmod / 1777\nt write /f x\nt fork 1 1 - - => ok t.1\nt.1 unlink /f => deny 1 EPERM C3\n",
};

static O1: RulePage = RulePage {
    meaning: "a directory that a lower layer has is renamed",
    calls: &[],
    manual: "the kernel: Documentation/filesystems/overlayfs.rst",
    script: "",
};

static O2: RulePage = RulePage {
    meaning: "the options or layers are none of an overlay",
    calls: &["mount"],
    manual: "the kernel: Documentation/filesystems/overlayfs.rst",
    script: "t mkdir /l\nt mkdir /m\nt mount overlay /m lowerdir=/l => deny 22 EINVAL O2\n",
};

static O3: RulePage = RulePage {
    meaning: "a layer is in use by another overlay",
    calls: &[],
    manual: "the kernel: Documentation/filesystems/overlayfs.rst",
    script: "",
};

static O4: RulePage = RulePage {
    meaning: "a whiteout or an opaque directory through an overlay",
    calls: &[],
    manual: "a choice of this machine",
    script: "",
};

static O5: RulePage = RulePage {
    meaning: "layers that contain one another",
    calls: &["mount"],
    manual: "the kernel: Documentation/filesystems/overlayfs.rst",
    script: "t mkdir /l\nt mkdir /m\nt mount overlay /m lowerdir=/l:/l => deny 40 ELOOP O5\n",
};

static B1: RulePage = RulePage {
    meaning: "the bits of an object in a layer refuse it to the mounter",
    calls: &["ls", "read", "exec", "open", "chdir", "chroot"],
    manual: "the kernel: Documentation/filesystems/overlayfs.rst",
    script: "t mkdir /l\nt write /l/f x\nt chmod /l/f 600\nt mkdir /k\nt mkdir /m\nt fork 1 1 - CAP_SYS_ADMIN => ok t.1\nt.1 mount overlay /m lowerdir=/l:/k\nt read /m/f => deny 13 EACCES B1\n",
};

static B2: RulePage = RulePage {
    meaning: "the mounter may not give the copy its owner",
    calls: &[],
    manual: "the kernel: Documentation/filesystems/overlayfs.rst",
    script: "",
};

static M2: RulePage = RulePage {
    meaning: "the mount is not in the namespace of the caller",
    calls: &[
        "mount",
        "bind",
        "rbind",
        "move",
        "umount",
        "lazy",
        "remount",
        "type",
        "rtype",
        "pivot_root",
    ],
    manual: "mount(2), EINVAL",
    script: "t mkdir /d\nt mount plain /d\nt chdir /d\nt lazy /d\nt bind . / => deny 22 EINVAL M2\n",
};

static M3: RulePage = RulePage {
    meaning: "an unbindable mount is bound",
    calls: &["bind", "rbind"],
    manual: "mount_namespaces(7)",
    script: "t mkdir /d\nt type / unbindable\nt bind / /d => deny 22 EINVAL M3\n",
};

static M4: RulePage = RulePage {
    meaning: "a mount is moved that stands on a shared mount",
    calls: &["move"],
    manual: "mount_namespaces(7)",
    script: "t mkdir /d\nt mount plain /d\nt type / shared\nt mkdir /e\nt move /d /e => deny 22 EINVAL M4\n",
};

static M5: RulePage = RulePage {
    meaning: "a tree with an unbindable mount is moved onto a shared mount",
    calls: &["move"],
    manual: "mount_namespaces(7)",
    script: "t mkdir /d\nt mkdir /e\nt mount plain /d\nt mount plain /e\nt type /d unbindable\nt type /e shared\nt move /d /e => deny 22 EINVAL M5\n",
};

static M6: RulePage = RulePage {
    meaning: "a mount is moved to a location under itself",
    calls: &["move"],
    manual: "mount(2), ELOOP",
    script: "t mkdir /d\nt mount plain /d\nt mkdir /d/e\nt move /d /d/e => deny 40 ELOOP M6\n",
};

static M7: RulePage = RulePage {
    meaning: "the location is not the root of a mount",
    calls: &[
        "move",
        "umount",
        "lazy",
        "remount",
        "type",
        "rtype",
        "pivot_root",
    ],
    manual: "umount(2), EINVAL",
    script: "t mkdir /d\nt umount /d => deny 22 EINVAL M7\n",
};

static M8: RulePage = RulePage {
    meaning: "the mount is in use; or a file is open for writing through a mount that becomes `ro`",
    calls: &["umount", "remount"],
    manual: "umount(2), EBUSY",
    script: "t mkdir /d\nt mount plain /d\nt chdir /d\nt umount /d => deny 16 EBUSY M8\n",
};

static M9: RulePage = RulePage {
    meaning: "a namespace would have more than 4,096 mounts",
    calls: &["mount", "bind", "rbind", "move"],
    manual: "mount(2), ENOSPC",
    script: "",
};

static M10: RulePage = RulePage {
    meaning: "the mount is the root mount of its namespace",
    calls: &["move", "umount", "lazy"],
    manual: "a choice of this machine",
    script: "t lazy / => deny 22 EINVAL M10\n",
};

static M11: RulePage = RulePage {
    meaning: "NEW or PUT of `pivot_root`, a call of script version 2, is on the root mount",
    calls: &["pivot_root"],
    manual: "pivot_root(2), EBUSY",
    script: "",
};

static M12: RulePage = RulePage {
    meaning: "NEW of `pivot_root` is not below the root mount, PUT not under NEW, or a mount is shared",
    calls: &["pivot_root"],
    manual: "pivot_root(2), EINVAL",
    script: "",
};

/// The row of a rule.
pub fn page_of(rule: Rule) -> &'static RulePage {
    match rule {
        Rule::S1 => &S1,
        Rule::S2 => &S2,
        Rule::S3 => &S3,
        Rule::S4 => &S4,
        Rule::S5 => &S5,
        Rule::S6 => &S6,
        Rule::K1 => &K1,
        Rule::W1 => &W1,
        Rule::W2 => &W2,
        Rule::W3 => &W3,
        Rule::W4 => &W4,
        Rule::W5 => &W5,
        Rule::W6 => &W6,
        Rule::W7 => &W7,
        Rule::W8 => &W8,
        Rule::W9 => &W9,
        Rule::E1 => &E1,
        Rule::E2 => &E2,
        Rule::E3 => &E3,
        Rule::E4 => &E4,
        Rule::E5 => &E5,
        Rule::E6 => &E6,
        Rule::E7 => &E7,
        Rule::E8 => &E8,
        Rule::E9 => &E9,
        Rule::F1 => &F1,
        Rule::F2 => &F2,
        Rule::F3 => &F3,
        Rule::L1 => &L1,
        Rule::P1 => &P1,
        Rule::P2 => &P2,
        Rule::C1 => &C1,
        Rule::C2 => &C2,
        Rule::C3 => &C3,
        Rule::O1 => &O1,
        Rule::O2 => &O2,
        Rule::O3 => &O3,
        Rule::O4 => &O4,
        Rule::O5 => &O5,
        Rule::B1 => &B1,
        Rule::B2 => &B2,
        Rule::M2 => &M2,
        Rule::M3 => &M3,
        Rule::M4 => &M4,
        Rule::M5 => &M5,
        Rule::M6 => &M6,
        Rule::M7 => &M7,
        Rule::M8 => &M8,
        Rule::M9 => &M9,
        Rule::M10 => &M10,
        Rule::M11 => &M11,
        Rule::M12 => &M12,
    }
}
