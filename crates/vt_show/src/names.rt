//! Names, paths and words as they are written: each byte as a word of a script spells it.
use vt_check::bytes::is_plain;
use vt_check::draft::Draft;
use vt_cred::{Caps, Flags, Kind, Mode, MountFlags};
use vt_request::{Access, MountPlace, TaskName, TypeLine};

/// What is shown of a thing that is reached no longer.
pub const GONE: &str = "(gone)";

// The capabilities with their names, in the order in which they are written.
static CAPABILITIES: [(Caps, &str); 8] = [
    (Caps::CAP_CHOWN, "CAP_CHOWN"),
    (Caps::CAP_DAC_OVERRIDE, "CAP_DAC_OVERRIDE"),
    (Caps::CAP_DAC_READ_SEARCH, "CAP_DAC_READ_SEARCH"),
    (Caps::CAP_FOWNER, "CAP_FOWNER"),
    (Caps::CAP_SETGID, "CAP_SETGID"),
    (Caps::CAP_SETUID, "CAP_SETUID"),
    (Caps::CAP_SYS_CHROOT, "CAP_SYS_CHROOT"),
    (Caps::CAP_SYS_ADMIN, "CAP_SYS_ADMIN"),
];

// The bits of a mode, each with its letter, up to the others' search bit.
static LETTERS: [(u16, char); 8] = [
    (0o400, 'r'),
    (0o200, 'w'),
    (0o100, 'x'),
    (0o40, 'r'),
    (0o20, 'w'),
    (0o10, 'x'),
    (0o4, 'r'),
    (0o2, 'w'),
];

/// Appends a name: each byte itself, or its escape.
pub fn push_name(text: &mut Draft, name: &[u8]) {
    for byte in name {
        if is_plain(*byte) {
            text.push_char(char::from(*byte));
        } else {
            text.push_escape(*byte);
        }
    }
}

/// A path, or that of the root where it has no names.
pub fn or_root(steps: &str) -> &str {
    if steps.is_empty() { "/" } else { steps }
}

/// Appends where a tree begins that a mount shows, between brackets; nothing where it is its filesystem's.
pub fn push_root(text: &mut Draft, root: &Option<String>) {
    let path = match root {
        Some(path) => path.as_str(),
        None => GONE,
    };
    if !path.is_empty() {
        text.push_char('[');
        text.push(path);
        text.push_char(']');
    }
}

/// Appends a mount, by its namespace and its place there.
pub fn push_mount(text: &mut Draft, place: MountPlace) {
    text.push_number(place.namespace as u64);
    text.push_char('.');
    text.push_number(place.place as u64);
}

/// Appends several mounts between commas, or that there is none.
pub fn push_mounts(text: &mut Draft, places: &[MountPlace]) {
    let mut is_first = true;
    for place in places {
        if !is_first {
            text.push_char(',');
        }
        push_mount(text, *place);
        is_first = false;
    }
    if places.is_empty() {
        text.push_char('-');
    }
}

/// Appends the numbers of groups between commas, or that there is none.
pub fn push_ids(text: &mut Draft, ids: &[u32]) {
    let mut is_first = true;
    for id in ids {
        if !is_first {
            text.push_char(',');
        }
        text.push_number(u64::from(*id));
        is_first = false;
    }
    if ids.is_empty() {
        text.push_char('-');
    }
}

/// The type of a filesystem.
pub fn filesystem_type(is_overlay: bool) -> &'static str {
    if is_overlay { "overlay" } else { "plain" }
}

/// Appends a filesystem; its type alone where it has no number.
pub fn push_filesystem(text: &mut Draft, is_overlay: bool, number: Option<usize>) {
    text.push(filesystem_type(is_overlay));
    if let Some(number) = number {
        text.push_char(':');
        text.push_number(number as u64);
    }
}

/// Appends a task.
pub fn push_task(text: &mut Draft, name: &TaskName) {
    text.push_char('t');
    for number in name.numbers() {
        text.push_char('.');
        text.push_number(u64::from(*number));
    }
}

/// What a file is open for.
pub fn access(access: Access) -> &'static str {
    match access {
        Access::Read => "r",
        Access::Write => "w",
        Access::ReadWrite => "rw",
    }
}

/// The kind of an object.
pub fn kind(kind: Kind) -> &'static str {
    match kind {
        Kind::Dir => "dir",
        Kind::File => "file",
        Kind::Symlink => "link",
        Kind::White => "white",
    }
}

/// Appends the flags of a mount between commas.
pub fn push_flags(text: &mut Draft, flags: MountFlags) {
    text.push(if flags.is_read_only() { "ro" } else { "rw" });
    if flags.is_noexec() {
        text.push(",noexec");
    }
    if flags.is_nosymfollow() {
        text.push(",nosymfollow");
    }
}

/// Appends the propagation type of a mount.
pub fn push_type(text: &mut Draft, kind: TypeLine) {
    let (word, number, master) = match kind {
        TypeLine::Shared { group, master } => ("shared:", Some(group), master),
        TypeLine::Slave { master } => ("slave:", Some(master), None),
        TypeLine::Private => ("private", None, None),
        TypeLine::Unbindable => ("unbindable", None, None),
    };
    text.push(word);
    if let Some(number) = number {
        text.push_number(number as u64);
    }
    if let Some(master) = master {
        text.push(",slave:");
        text.push_number(master as u64);
    }
}

/// Appends the capabilities of a task. Where the names of those that it has are longer than those of the others, the
/// others are told.
pub fn push_capabilities(text: &mut Draft, caps: Caps) {
    // How long the names are, each with a comma.
    let mut has: usize = 0;
    let mut lacks: usize = 0;
    for (one, name) in &CAPABILITIES {
        let length = name.len().saturating_add(1);
        if caps.contains(*one) {
            has = has.saturating_add(length);
        } else {
            lacks = lacks.saturating_add(length);
        }
    }
    if lacks == 0 {
        text.push("all");
        return;
    }
    if has == 0 {
        text.push_char('-');
        return;
    }
    let tells_has = has <= lacks;
    if !tells_has {
        text.push("all but ");
    }
    push_names(text, caps, tells_has);
}

/// Appends the names of capabilities between commas.
pub fn push_capability_names(text: &mut Draft, caps: Caps) {
    push_names(text, caps, true);
}

// Appends the names of the capabilities that are among these, or of those that are not.
fn push_names(text: &mut Draft, caps: Caps, are_among: bool) {
    let mut is_first = true;
    for (one, name) in &CAPABILITIES {
        if caps.contains(*one) == are_among {
            if !is_first {
                text.push_char(',');
            }
            text.push(*name);
            is_first = false;
        }
    }
}

/// Appends kind and mode of an object, as ls(1) writes them.
pub fn push_mode(text: &mut Draft, kind: Kind, mode: Mode) {
    let bits = mode.bits();
    text.push_char(match kind {
        Kind::Dir => 'd',
        Kind::File => '-',
        Kind::Symlink => 'l',
        Kind::White => 'c',
    });
    for (bit, letter) in &LETTERS {
        text.push_char(if bits & *bit == 0 { '-' } else { *letter });
    }
    // The letter of the others' search bit beside the sticky bit.
    text.push_char(match (bits & 0o1000 == 0, bits & 1 == 0) {
        (true, true) => '-',
        (true, false) => 'x',
        (false, true) => 'T',
        (false, false) => 't',
    });
}
