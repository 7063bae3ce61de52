//! The process of a container, and what of its configuration is not modelled.
use crate::fields::{field, has_item, item, list, number, path_word, word};
use serde_json::Value;
use std::alloc::AllocError;
use vt_check::draft::Draft;
use vt_from::script::Script;
use vt_from::words::push_word;

// The capabilities that a script knows.
static CAPABILITIES: [&str; 8] = [
    "CAP_CHOWN",
    "CAP_DAC_OVERRIDE",
    "CAP_DAC_READ_SEARCH",
    "CAP_FOWNER",
    "CAP_SETGID",
    "CAP_SETUID",
    "CAP_SYS_CHROOT",
    "CAP_SYS_ADMIN",
];

// The most supplementary groups of a task.
const MOST_GROUPS: usize = 32;

// The capabilities of the process that a script knows, or `-`.
fn push_capabilities(word: &mut Draft, held: &[Value]) {
    let begin = word.len();
    for name in &CAPABILITIES {
        if has_item(held, *name) {
            if word.len() > begin {
                word.push_char(',');
            }
            word.push(*name);
        }
    }
    if word.len() == begin {
        word.push_char('-');
    }
}

// The supplementary groups of the process, or `-`.
fn push_groups(word: &mut Draft, groups: &[Value]) {
    for (place, group) in groups.iter().enumerate() {
        if place >= MOST_GROUPS {
            break;
        }
        if place > 0 {
            word.push_char(',');
        }
        word.push_number(group.as_u64().unwrap_or_default());
    }
    if groups.is_empty() {
        word.push_char('-');
    }
}

/// Starts the process with its user, groups and capabilities, its umask and its working directory, and lists the mounts.
pub fn enter(script: &mut Script, config: &Value) -> Result<(), AllocError> {
    let alloc = script.alloc();
    let mut words = Draft::new(alloc);
    words.push_number(number(config, "/process/user/uid").unwrap_or_default());
    words.push_char(' ');
    words.push_number(number(config, "/process/user/gid").unwrap_or_default());
    words.push_char(' ');
    push_groups(&mut words, list(config, "/process/user/additionalGids"));
    words.push_char(' ');
    push_capabilities(&mut words, list(config, "/process/capabilities/effective"));
    let words = words.end()?;
    script.say(
        "# finalizeNamespace: process.user, process.capabilities.effective; t.1.1 is the process",
        &[],
    );
    script.say("t.1 fork {}", &[words.as_str()]);
    let directory = path_word(alloc, field(config, "/process/cwd"))?;
    script.say("t.1.1 chdir {}", &[directory.as_str()]);
    if let Some(umask) = number(config, "/process/user/umask") {
        let mut mode = Draft::new(alloc);
        mode.push_octal((umask & 0o777) as u16, 3);
        let mode = mode.end()?;
        script.say("t.1.1 umask {}", &[mode.as_str()]);
    }
    script.say("t.1.1 mounts", &[]);
    Ok(())
}

// Tells of the items of a list that are not modelled, by a field of each.
fn tell_list(
    script: &mut Script,
    kind: &'static str,
    items: &[Value],
    name: &str,
) -> Result<(), AllocError> {
    for value in items {
        let what = word(script.alloc(), field(value, name))?;
        script.skip(kind, what.as_str());
    }
    Ok(())
}

// Tells of the capabilities that a script does not know.
fn tell_capabilities(script: &mut Script, held: &[Value]) -> Result<(), AllocError> {
    let mut what = Draft::new(script.alloc());
    for value in held {
        if !CAPABILITIES.contains(&item(value)) {
            what.push_after(",", "");
            push_word(&mut what, item(value).as_bytes());
        }
    }
    let what = what.end()?;
    if !what.is_empty() {
        script.skip("capabilities", what.as_str());
    }
    Ok(())
}

/// Tells what of a configuration is not modelled.
pub fn tell_missing(script: &mut Script, config: &Value) -> Result<(), AllocError> {
    let alloc = script.alloc();
    for namespace in list(config, "/linux/namespaces") {
        let kind = word(alloc, field(namespace, "/type"))?;
        let path = word(alloc, field(namespace, "/path"))?;
        if kind.as_str() != "mount" {
            script.skip("a namespace of another type", kind.as_str());
        } else if !path.is_empty() {
            script.skip("a mount namespace that is entered", path.as_str());
        }
    }
    tell_list(script, "a device", list(config, "/linux/devices"), "/path")?;
    tell_list(
        script,
        "a hook",
        list(config, "/hooks/createRuntime"),
        "/path",
    )?;
    tell_list(
        script,
        "a hook",
        list(config, "/hooks/createContainer"),
        "/path",
    )?;
    tell_list(script, "a hook", list(config, "/hooks/prestart"), "/path")?;
    tell_capabilities(script, list(config, "/process/capabilities/effective"))
}
