//! mount(2) and umount2(2) as calls of a script.
use crate::process::Why;
use crate::saying::Saying;
use crate::texts::has_flag;
use vt_from::flags::{Flags, is_file_name};
use vt_from::words::last_name;

// The flags of a mount that a script has, as a word behind a space, or nothing.
fn flags_of(list: &str) -> Flags {
    Flags {
        read_only: has_flag(list, "MS_RDONLY"),
        noexec: has_flag(list, "MS_NOEXEC"),
        nosymfollow: has_flag(list, "MS_NOSYMFOLLOW"),
    }
}

// The type that a change of propagation sets, if the flags are of one.
fn type_of(list: &str) -> Option<&'static str> {
    if has_flag(list, "MS_SHARED") {
        Some("shared")
    } else if has_flag(list, "MS_SLAVE") {
        Some("slave")
    } else if has_flag(list, "MS_PRIVATE") {
        Some("private")
    } else if has_flag(list, "MS_UNBINDABLE") {
        Some("unbindable")
    } else {
        None
    }
}

// A bind, if it is none of a file.
fn bound(saying: &Saying<'_>) -> Result<String, Why> {
    let (source, path) = (saying.first()?, saying.second()?);
    if is_file_name(last_name(source.as_str())) || is_file_name(last_name(path.as_str())) {
        return Err(Why::Kind("a file that is bound"));
    }
    let call = if saying.has("MS_REC") {
        "rbind"
    } else {
        "bind"
    };
    Ok(format!(in saying.alloc; "{call} {source} {path}")?)
}

// The layers of an overlay, as its options name them.
fn layers_in(options: &str) -> Option<&str> {
    if options.contains("upperdir=") {
        return None;
    }
    for option in options.split(',') {
        if option.starts_with("lowerdir=") {
            return Some(option);
        }
    }
    None
}

// A new filesystem: an overlay without an upper layer, or a plain one in the place of all others.
fn made(saying: &Saying<'_>) -> Result<String, Why> {
    let path = saying.second()?;
    let flags = flags_of(saying.rest(0)).word().unwrap_or_default();
    let mark = if flags.is_empty() { "" } else { " " };
    if saying.call.argument(2) != "\"overlay\"" {
        return Ok(format!(in saying.alloc; "mount plain {path}{mark}{flags}")?);
    }
    let options = saying.text(4)?;
    match layers_in(options.as_str()) {
        Some(layers) => Ok(format!(in saying.alloc; "mount overlay {path} {layers}{mark}{flags}")?),
        None => Err(Why::Kind("an overlay with an upper layer")),
    }
}

/// A call of mount(2).
pub fn mounted(saying: &Saying<'_>) -> Result<String, Why> {
    if saying.has("MS_REMOUNT") {
        let path = saying.second()?;
        let flags = flags_of(saying.rest(0)).word().unwrap_or("rw");
        return Ok(format!(in saying.alloc; "remount {path} {flags}")?);
    }
    if saying.has("MS_BIND") {
        return bound(saying);
    }
    if saying.has("MS_MOVE") {
        let (source, path) = (saying.first()?, saying.second()?);
        return Ok(format!(in saying.alloc; "move {source} {path}")?);
    }
    if let Some(kind) = type_of(saying.rest(0)) {
        let path = saying.second()?;
        let call = if saying.has("MS_REC") {
            "rtype"
        } else {
            "type"
        };
        return Ok(format!(in saying.alloc; "{call} {path} {kind}")?);
    }
    made(saying)
}

/// A call of umount2(2).
pub fn unmounted(saying: &Saying<'_>) -> Result<String, Why> {
    if saying.has("MNT_EXPIRE") {
        return Err(Why::Kind("a mount that expires"));
    }
    let path = saying.first()?;
    let call = if saying.has("MNT_DETACH") {
        "lazy"
    } else {
        "umount"
    };
    Ok(format!(in saying.alloc; "{call} {path}")?)
}
