//! The calls of a script, the words that each takes, and what is said of such a word.
//!
//! Whether a word is of a kind only the reader of lines decides: each kind has a line in which no other word can be at
//! fault, and the word is put into it.

use vt_line::version::Version;

/// What a word of a call may be.
#[derive(Clone, Copy)]
pub enum Kind {
    Access,
    Bytes,
    Capabilities,
    Creation,
    Descriptor,
    Filesystem,
    Flags,
    Groups,
    Identity,
    KeptIdentity,
    Mode,
    Offset,
    Options,
    Path,
    Propagation,
    Task,
    YesOrNo,
}

/// What is said of the words of a kind.
#[derive(Clone, Copy)]
pub struct KindWords {
    /// What stands before and after such a word in a line in which it alone can be at fault.
    pub before: &'static str,
    pub after: &'static str,
    /// What such a word is.
    pub said: &'static str,
    /// A word to write where one is missing, if there is one that says little.
    pub plain: &'static str,
    /// What one of several between commas is, if there can be several.
    pub part: &'static str,
    /// The words that there are, where they can be listed.
    pub choices: &'static [&'static str],
    /// Words of other systems, each with the one that stands for it here.
    pub synonyms: &'static [(&'static str, &'static str)],
}

/// A call and its words. Those that may be left out stand behind those that it needs, and are given all or none.
#[derive(Clone, Copy)]
pub struct CallWords {
    pub name: &'static str,
    pub usage: &'static str,
    pub words: &'static [Kind],
    /// How many of the words it needs.
    pub needed: usize,
}

impl CallWords {
    /// What the word at a place of a line, which is of this kind, is called: as in the usage, or by the words that
    /// stand there to choose from.
    pub fn name_at(&self, place: usize, kind: Kind) -> &'static str {
        match kind {
            Kind::Access => "`r`, `w` or `rw`",
            Kind::Creation => "`create` or `excl`",
            Kind::Filesystem => "`plain` or `overlay`",
            Kind::Task => "TASK",
            Kind::YesOrNo => "`yes` or `no`",
            _ => {
                let word = self.usage.split(' ').nth(place.saturating_sub(1));
                word.unwrap_or_default().trim_matches(['[', ']', '`'])
            }
        }
    }
}

/// The capabilities that are modelled.
pub static CAPABILITIES: [&str; 8] = [
    "CAP_CHOWN",
    "CAP_DAC_OVERRIDE",
    "CAP_DAC_READ_SEARCH",
    "CAP_FOWNER",
    "CAP_SETGID",
    "CAP_SETUID",
    "CAP_SYS_CHROOT",
    "CAP_SYS_ADMIN",
];

// The calls, those that version 2 alone has last.
static CALLS: [CallWords; 40] = [
    // Calls about one object.
    CallWords {
        name: "ls",
        usage: "`ls PATH`",
        words: &[Kind::Path],
        needed: 1,
    },
    CallWords {
        name: "stat",
        usage: "`stat PATH`",
        words: &[Kind::Path],
        needed: 1,
    },
    CallWords {
        name: "lstat",
        usage: "`lstat PATH`",
        words: &[Kind::Path],
        needed: 1,
    },
    CallWords {
        name: "readlink",
        usage: "`readlink PATH`",
        words: &[Kind::Path],
        needed: 1,
    },
    CallWords {
        name: "read",
        usage: "`read PATH`",
        words: &[Kind::Path],
        needed: 1,
    },
    CallWords {
        name: "write",
        usage: "`write PATH BYTES`",
        words: &[Kind::Path, Kind::Bytes],
        needed: 2,
    },
    CallWords {
        name: "exec",
        usage: "`exec PATH`",
        words: &[Kind::Path],
        needed: 1,
    },
    // Calls that make, move or remove objects, or change what is kept of them.
    CallWords {
        name: "mkdir",
        usage: "`mkdir PATH [MODE]`",
        words: &[Kind::Path, Kind::Mode],
        needed: 1,
    },
    CallWords {
        name: "symlink",
        usage: "`symlink TEXT PATH`",
        words: &[Kind::Path, Kind::Path],
        needed: 2,
    },
    CallWords {
        name: "whiteout",
        usage: "`whiteout PATH`",
        words: &[Kind::Path],
        needed: 1,
    },
    CallWords {
        name: "link",
        usage: "`link OLD NEW`",
        words: &[Kind::Path, Kind::Path],
        needed: 2,
    },
    CallWords {
        name: "unlink",
        usage: "`unlink PATH`",
        words: &[Kind::Path],
        needed: 1,
    },
    CallWords {
        name: "rmdir",
        usage: "`rmdir PATH`",
        words: &[Kind::Path],
        needed: 1,
    },
    CallWords {
        name: "rename",
        usage: "`rename OLD NEW`",
        words: &[Kind::Path, Kind::Path],
        needed: 2,
    },
    CallWords {
        name: "chmod",
        usage: "`chmod PATH MODE`",
        words: &[Kind::Path, Kind::Mode],
        needed: 2,
    },
    CallWords {
        name: "chown",
        usage: "`chown PATH UID GID`",
        words: &[Kind::Path, Kind::KeptIdentity, Kind::KeptIdentity],
        needed: 3,
    },
    CallWords {
        name: "opaque",
        usage: "`opaque PATH yes|no`",
        words: &[Kind::Path, Kind::YesOrNo],
        needed: 2,
    },
    // Calls about descriptors, and about a task itself.
    CallWords {
        name: "open",
        usage: "`open PATH r|w|rw [create MODE | excl MODE]`",
        words: &[Kind::Path, Kind::Access, Kind::Creation, Kind::Mode],
        needed: 2,
    },
    CallWords {
        name: "pread",
        usage: "`pread FD OFFSET SIZE`",
        words: &[Kind::Descriptor, Kind::Offset, Kind::Offset],
        needed: 3,
    },
    CallWords {
        name: "pwrite",
        usage: "`pwrite FD OFFSET BYTES`",
        words: &[Kind::Descriptor, Kind::Offset, Kind::Bytes],
        needed: 3,
    },
    CallWords {
        name: "close",
        usage: "`close FD`",
        words: &[Kind::Descriptor],
        needed: 1,
    },
    CallWords {
        name: "chdir",
        usage: "`chdir PATH`",
        words: &[Kind::Path],
        needed: 1,
    },
    CallWords {
        name: "chroot",
        usage: "`chroot PATH`",
        words: &[Kind::Path],
        needed: 1,
    },
    CallWords {
        name: "umask",
        usage: "`umask MODE`",
        words: &[Kind::Mode],
        needed: 1,
    },
    CallWords {
        name: "drop",
        usage: "`drop CAPS`",
        words: &[Kind::Capabilities],
        needed: 1,
    },
    CallWords {
        name: "fork",
        usage: "`fork [UID GID GROUPS CAPS]`",
        words: &[
            Kind::Identity,
            Kind::Identity,
            Kind::Groups,
            Kind::Capabilities,
        ],
        needed: 0,
    },
    CallWords {
        name: "exit",
        usage: "`exit`",
        words: &[],
        needed: 0,
    },
    CallWords {
        name: "unshare",
        usage: "`unshare`",
        words: &[],
        needed: 0,
    },
    CallWords {
        name: "setns",
        usage: "`setns TASK`",
        words: &[Kind::Task],
        needed: 1,
    },
    // Calls about mounts.
    CallWords {
        name: "mount",
        usage: "`mount plain PATH [FLAGS]`",
        words: &[Kind::Filesystem, Kind::Path, Kind::Flags],
        needed: 2,
    },
    CallWords {
        name: "bind",
        usage: "`bind SOURCE PATH`",
        words: &[Kind::Path, Kind::Path],
        needed: 2,
    },
    CallWords {
        name: "rbind",
        usage: "`rbind SOURCE PATH`",
        words: &[Kind::Path, Kind::Path],
        needed: 2,
    },
    CallWords {
        name: "move",
        usage: "`move SOURCE PATH`",
        words: &[Kind::Path, Kind::Path],
        needed: 2,
    },
    CallWords {
        name: "umount",
        usage: "`umount PATH`",
        words: &[Kind::Path],
        needed: 1,
    },
    CallWords {
        name: "lazy",
        usage: "`lazy PATH`",
        words: &[Kind::Path],
        needed: 1,
    },
    CallWords {
        name: "remount",
        usage: "`remount PATH FLAGS`",
        words: &[Kind::Path, Kind::Flags],
        needed: 2,
    },
    CallWords {
        name: "type",
        usage: "`type PATH TYPE`",
        words: &[Kind::Path, Kind::Propagation],
        needed: 2,
    },
    CallWords {
        name: "rtype",
        usage: "`rtype PATH TYPE`",
        words: &[Kind::Path, Kind::Propagation],
        needed: 2,
    },
    CallWords {
        name: "mounts",
        usage: "`mounts`",
        words: &[],
        needed: 0,
    },
    // Of version 2 alone.
    CallWords {
        name: "pivot_root",
        usage: "`pivot_root NEW PUT`",
        words: &[Kind::Path, Kind::Path],
        needed: 2,
    },
];

// How many calls version 1 has.
const OF_FIRST: usize = 39;

/// The mount of an overlay: the first argument says that it is one.
pub static MOUNT_OVERLAY: CallWords = CallWords {
    name: "mount",
    usage: "`mount overlay PATH OPTIONS [FLAGS]`",
    words: &[Kind::Filesystem, Kind::Path, Kind::Options, Kind::Flags],
    needed: 3,
};

// What is said of the words of each kind.
static ACCESS_WORDS: KindWords = KindWords {
    before: "t open / ",
    after: "",
    said: "a file is opened for `r`, `w` or `rw`",
    plain: "r",
    part: "",
    choices: &["r", "w", "rw"],
    synonyms: &[
        ("O_RDONLY", "r"),
        ("O_WRONLY", "w"),
        ("O_RDWR", "rw"),
        ("read", "r"),
        ("write", "w"),
        ("ro", "r"),
        ("wo", "w"),
        ("wr", "rw"),
        ("rb", "r"),
        ("wb", "w"),
        ("r+", "rw"),
    ],
};

static BYTES_WORDS: KindWords = KindWords {
    before: "t write / ",
    after: "",
    said: "BYTES is one word: a space in it is `\\x20`, and `\\e` is the empty text",
    plain: "\\e",
    part: "",
    choices: &[],
    synonyms: &[],
};

static CAPABILITIES_WORDS: KindWords = KindWords {
    before: "t drop ",
    after: "",
    said: "CAPS is `-` (none), `*` (all that the caller holds), or names between commas",
    plain: "-",
    part: "capability",
    choices: &[],
    synonyms: &[("ALL", "*"), ("all", "*"), ("none", "-")],
};

static CREATION_WORDS: KindWords = KindWords {
    before: "t open / r ",
    after: " 0",
    said: "`create MODE` makes a missing file, and `excl MODE` a file that must be missing",
    plain: "create",
    part: "",
    choices: &["create", "excl"],
    synonyms: &[
        ("O_CREAT", "create"),
        ("creat", "create"),
        ("O_EXCL", "excl"),
        ("O_CREAT|O_EXCL", "excl"),
    ],
};

static DESCRIPTOR_WORDS: KindWords = KindWords {
    before: "t close ",
    after: "",
    said: "FD is the number of a descriptor, at most 255",
    plain: "",
    part: "",
    choices: &[],
    synonyms: &[],
};

static FILESYSTEM_WORDS: KindWords = KindWords {
    before: "t mount ",
    after: " / rw",
    said: "`mount plain PATH` mounts a new filesystem, `mount overlay PATH OPTIONS` layers, \
           `bind SOURCE PATH` a tree that exists",
    plain: "plain",
    part: "",
    choices: &["plain", "overlay"],
    synonyms: &[("tmpfs", "plain"), ("overlayfs", "overlay")],
};

static GROUPS_WORDS: KindWords = KindWords {
    before: "t fork 0 0 ",
    after: " -",
    said: "GROUPS is `-` (none), or 1 to 32 groups between commas",
    plain: "-",
    part: "group",
    choices: &[],
    synonyms: &[("none", "-")],
};

static IDENTITY_WORDS: KindWords = KindWords {
    before: "t fork ",
    after: " 0 - -",
    said: "a user or group is a number, at most 4294967294",
    plain: "",
    part: "",
    choices: &[],
    synonyms: &[("root", "0")],
};

static KEPT_IDENTITY_WORDS: KindWords = KindWords {
    before: "t chown / ",
    after: " 0",
    said: "UID and GID are numbers, at most 4294967294; `-` leaves what is there, but not both",
    plain: "-",
    part: "",
    choices: &[],
    synonyms: &[("root", "0")],
};

static MODE_WORDS: KindWords = KindWords {
    before: "t umask ",
    after: "",
    said: "MODE is the whole mode, one to four octal digits, at most 1777: `u=rwx,go=rx` is 755, `u=rw,go=r` is 644",
    plain: "644",
    part: "",
    choices: &[],
    synonyms: &[],
};

static OFFSET_WORDS: KindWords = KindWords {
    before: "t pread 0 ",
    after: " 0",
    said: "OFFSET and SIZE are numbers, at most 4294967295",
    plain: "",
    part: "",
    choices: &[],
    synonyms: &[],
};

static OPTIONS_WORDS: KindWords = KindWords {
    before: "t mount overlay / ",
    after: "",
    said: "OPTIONS stand between commas, as `lowerdir=/high:/low` does",
    plain: "",
    part: "",
    choices: &[],
    synonyms: &[],
};

static PATH_WORDS: KindWords = KindWords {
    before: "t ls ",
    after: "",
    said: "",
    plain: "",
    part: "",
    choices: &[],
    synonyms: &[],
};

static PROPAGATION_WORDS: KindWords = KindWords {
    before: "t type / ",
    after: "",
    said: "TYPE is `shared`, `slave`, `private` or `unbindable`",
    plain: "",
    part: "",
    choices: &["shared", "slave", "private", "unbindable"],
    synonyms: &[],
};

static TASK_WORDS: KindWords = KindWords {
    before: "",
    after: " exit",
    said: "a task is `t`, or a child of a task, as `t.1` and `t.1.2`, numbered from 1 to 64",
    plain: "",
    part: "",
    choices: &[],
    synonyms: &[("root", "t")],
};

static YES_OR_NO_WORDS: KindWords = KindWords {
    before: "t opaque / ",
    after: "",
    said: "`opaque PATH yes` marks a directory, and `opaque PATH no` takes the mark away",
    plain: "",
    part: "",
    choices: &["yes", "no"],
    synonyms: &[
        ("y", "yes"),
        ("on", "yes"),
        ("true", "yes"),
        ("1", "yes"),
        ("n", "no"),
        ("off", "no"),
        ("false", "no"),
        ("0", "no"),
    ],
};

static FIRST_FLAGS_WORDS: KindWords = KindWords {
    before: "t remount / ",
    after: "",
    said: "FLAGS is `rw`, `ro`, `rw,noexec` or `ro,noexec`",
    plain: "rw",
    part: "",
    choices: &["rw", "ro", "rw,noexec", "ro,noexec"],
    synonyms: &[],
};

static SECOND_FLAGS_WORDS: KindWords = KindWords {
    before: "t remount / ",
    after: "",
    said: "FLAGS is `rw` or `ro`, then `,noexec` or nothing, then `,nosymfollow` or nothing",
    plain: "rw",
    part: "",
    choices: &[
        "rw",
        "ro",
        "rw,noexec",
        "ro,noexec",
        "rw,nosymfollow",
        "ro,nosymfollow",
        "rw,noexec,nosymfollow",
        "ro,noexec,nosymfollow",
    ],
    synonyms: &[],
};

impl Kind {
    /// What is said of its words, in a version of the language. Version 2 has one flag more.
    pub fn words(self, version: Version) -> &'static KindWords {
        match self {
            Kind::Access => &ACCESS_WORDS,
            Kind::Bytes => &BYTES_WORDS,
            Kind::Capabilities => &CAPABILITIES_WORDS,
            Kind::Creation => &CREATION_WORDS,
            Kind::Descriptor => &DESCRIPTOR_WORDS,
            Kind::Filesystem => &FILESYSTEM_WORDS,
            Kind::Flags => match version {
                Version::One => &FIRST_FLAGS_WORDS,
                Version::Two => &SECOND_FLAGS_WORDS,
            },
            Kind::Groups => &GROUPS_WORDS,
            Kind::Identity => &IDENTITY_WORDS,
            Kind::KeptIdentity => &KEPT_IDENTITY_WORDS,
            Kind::Mode => &MODE_WORDS,
            Kind::Offset => &OFFSET_WORDS,
            Kind::Options => &OPTIONS_WORDS,
            Kind::Path => &PATH_WORDS,
            Kind::Propagation => &PROPAGATION_WORDS,
            Kind::Task => &TASK_WORDS,
            Kind::YesOrNo => &YES_OR_NO_WORDS,
        }
    }
}

/// The directives of `!`, written as calls.
pub static PEERS: CallWords = CallWords {
    name: "peers",
    usage: "`! peers`",
    words: &[],
    needed: 0,
};

/// Further tasks may stand behind the first.
pub static SEALED: CallWords = CallWords {
    name: "sealed",
    usage: "`! sealed TASK ..`",
    words: &[Kind::Task],
    needed: 1,
};

/// The calls of a version of the language.
pub fn calls(version: Version) -> &'static [CallWords] {
    let all: &'static [CallWords] = &CALLS;
    match version {
        Version::One => all.get(..OF_FIRST).unwrap_or_default(),
        Version::Two => all,
    }
}

/// The words of the call of this name, in a version of the language.
pub fn call_named(version: Version, name: &str) -> Option<&'static CallWords> {
    for call in calls(version) {
        if call.name == name {
            return Some(call);
        }
    }
    None
}
