//! Flags of a mount, and names of files that are bound.

/// The flags of a mount that a script knows.
#[derive(Clone, Copy)]
pub struct Flags {
    pub read_only: bool,
    pub noexec: bool,
    pub nosymfollow: bool,
}

/// No flag.
pub const NO_FLAGS: Flags = Flags {
    read_only: false,
    noexec: false,
    nosymfollow: false,
};

impl Flags {
    /// The flags as a word of a script, or nothing where there are none.
    pub fn word(self) -> Option<&'static str> {
        match (self.read_only, self.noexec, self.nosymfollow) {
            (false, false, false) => None,
            (true, false, false) => Some("ro"),
            (false, true, false) => Some("rw,noexec"),
            (true, true, false) => Some("ro,noexec"),
            (false, false, true) => Some("rw,nosymfollow"),
            (true, false, true) => Some("ro,nosymfollow"),
            (false, true, true) => Some("rw,noexec,nosymfollow"),
            (true, true, true) => Some("ro,noexec,nosymfollow"),
        }
    }
}

// Names of files that runtimes bind.
static FILE_NAMES: [&str; 25] = [
    "hosts",
    "hostname",
    "localtime",
    "machine-id",
    "passwd",
    "group",
    "shadow",
    "termination-log",
    "null",
    "zero",
    "full",
    "random",
    "urandom",
    "tty",
    "console",
    "ptmx",
    "kcore",
    "keys",
    "timer_list",
    "timer_stats",
    "latency_stats",
    "sched_debug",
    "sysrq-trigger",
    "kmsg",
    "fuse",
];

// What names of files end with.
static FILE_ENDS: [&str; 12] = [
    ".conf", ".sock", ".json", ".yaml", ".yml", ".crt", ".key", ".pem", ".txt", ".log", ".env",
    ".sh",
];

/// Whether a name is taken for one of a file: neither a table of mounts nor a configuration says what is one.
pub fn is_file_name(name: &str) -> bool {
    for known in &FILE_NAMES {
        if name == *known {
            return true;
        }
    }
    for end in &FILE_ENDS {
        if name.ends_with(*end) {
            return true;
        }
    }
    false
}
