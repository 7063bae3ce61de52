//! The root of a container, as runc makes it: libcontainer/rootfs_linux.go.
use crate::bundle::Bundle;
use crate::entry::{Entry, TypeChange, type_change};
use crate::fields::{field, is_true, item, list, path_word};
use crate::folders::holder;
use crate::saying::{say_three, say_two};
use serde_json::Value;
use std::alloc::AllocError;
use vt_from::flags::{Flags, NO_FLAGS, is_file_name};
use vt_from::folders::Folders;
use vt_from::script::Script;
use vt_from::words::{below, joined, last_name};

// How all mounts change where `rootfsPropagation` says nothing.
const RECURSIVE_SLAVE: TypeChange = TypeChange {
    call: "rtype",
    word: "slave",
};

// The mount of the host that has the root: a source that is bound onto itself, or its root mount.
fn parent_of<'a>(bundle: &'a Bundle) -> &'a str {
    let mut found = "/";
    for entry in &bundle.entries {
        let source = entry.source.as_str();
        let is_above = below(bundle.root.as_str(), source).is_some();
        if entry.is_propagated() && is_above && source.len() >= found.len() {
            found = source;
        }
    }
    found
}

/// Forks the container's task, and prepares its root.
pub fn prepare_root(script: &mut Script, config: &Value, bundle: &Bundle) {
    script.say("t fork", &[]);
    if bundle.is_unshared {
        script.say("# linux.namespaces: mount", &[]);
        script.say("t.1 unshare", &[]);
    }
    let change = type_change(field(config, "/linux/rootfsPropagation")).unwrap_or(RECURSIVE_SLAVE);
    let root = bundle.root.as_str();
    script.say(
        "# prepareRoot: linux.rootfsPropagation, a recursive slave where there is none",
        &[],
    );
    say_two(script, "t.1 {} / {}", change.call, change.word);
    script.say("# rootfsParentMountPrivate", &[]);
    script.say("t.1 type {} private", &[parent_of(bundle)]);
    script.say("# prepareRoot: root.path", &[]);
    say_two(script, "t.1 rbind {} {}", root, root);
}

/// Mounts an entry, and makes the directories that are to be on it.
pub fn mount_entry(
    script: &mut Script,
    root: &str,
    place: usize,
    entry: &Entry,
    folders: &Folders,
) -> Result<(), AllocError> {
    let alloc = script.alloc();
    let path = joined(alloc, root, entry.destination.as_str())?;
    let path = path.as_str();
    let destination = entry.destination.as_str();
    let said = format!(in alloc; "mounts[{place}] {destination}")?;
    if entry.is_of_file() {
        script.skip("a file that is bound", said.as_str());
        return Ok(());
    }
    script.say("# mountToRootfs: {}", &[said.as_str()]);
    if !entry.missing.is_empty() {
        script.skip("options", entry.missing.as_str());
    }
    match entry.bind {
        Some(call) => say_three(script, "t.1 {} {} {}", call, entry.source.as_str(), path),
        None => mount_new(script, entry, path),
    }
    for change in &entry.changes {
        say_three(script, "t.1 {} {} {}", change.call, path, change.word);
    }
    for folder in folders.all.keys() {
        script.say("t.1 mkdir {}", &[folder.as_str()]);
    }
    let mut flags = entry.flags;
    flags.read_only &= !entry.is_late();
    if let Some(word) = flags.word() {
        say_two(script, "t.1 remount {} {}", path, word);
    }
    Ok(())
}

// Mounts a new filesystem.
fn mount_new(script: &mut Script, entry: &Entry, path: &str) {
    if entry.kind.as_str() != "overlay" {
        script.say("t.1 mount plain {}", &[path]);
    } else if entry.layers.is_empty() {
        script.skip(
            "an upper layer, a plain filesystem stands for the overlay",
            path,
        );
        script.say("t.1 mount plain {}", &[path]);
    } else {
        say_two(
            script,
            "t.1 mount overlay {} lowerdir={}",
            path,
            entry.layers.as_str(),
        );
    }
}

// A directory of the root, by which the way leads out of it and back to what stands on it.
fn directory_in(bundle: &Bundle) -> &str {
    for path in bundle.wanted.all.keys() {
        if path.as_str() != "/" {
            return path.as_str();
        }
    }
    "/"
}

/// Makes the container's root its root, and the old one goes.
pub fn change_root(script: &mut Script, config: &Value, bundle: &Bundle) {
    let root = bundle.root.as_str();
    if !bundle.is_unshared {
        script.say(
            "# prepareRootfs: no mount namespace of its own, so no pivot",
            &[],
        );
        script.say("t.1 chroot {}", &[root]);
        script.say("t.1 chdir /", &[]);
        return;
    }
    script.say(
        "# pivotRoot: runc goes back to the old root by a descriptor; here the way is through a directory",
        &[],
    );
    script.say("t.1 chdir {}", &[root]);
    script.say("t.1 pivot_root . .", &[]);
    let first = directory_in(bundle).split('/').nth(1).unwrap_or_default();
    script.say("t.1 chdir /{}/..", &[first]);
    script.say("t.1 rtype . slave", &[]);
    script.say("t.1 lazy .", &[]);
    script.say("t.1 chdir /", &[]);
    if let Some(change) = type_change(field(config, "/linux/rootfsPropagation"))
        && change.word != "private"
    {
        script.say(
            "# prepareRootfs: linux.rootfsPropagation again, of the new root",
            &[],
        );
        say_two(script, "t.1 {} / {}", change.call, change.word);
    }
}

// The flags of the mount that has a path of the container.
fn flags_at(config: &Value, entries: &[Entry], path: &str) -> Flags {
    let is_read_only = is_true(config, "/root/readonly");
    match holder(entries, path) {
        Some(place) => match entries.get(place) {
            Some(entry) => entry.flags,
            None => NO_FLAGS,
        },
        None => Flags {
            read_only: is_read_only,
            ..NO_FLAGS
        },
    }
}

// Makes what is late read-only, and the root.
fn finalize(script: &mut Script, config: &Value, entries: &[Entry]) {
    for entry in entries {
        if entry.flags.read_only && entry.is_late() && entry.bind.is_none() {
            script.say("# finalizeRootfs: {}", &[entry.destination.as_str()]);
            let flags = entry.flags.word().unwrap_or("ro");
            say_two(
                script,
                "t.1 remount {} {}",
                entry.destination.as_str(),
                flags,
            );
        }
    }
    if is_true(config, "/root/readonly") {
        script.say("# finalizeRootfs: root.readonly", &[]);
        script.say("t.1 remount / ro", &[]);
    }
}

/// Makes paths read-only, and hides others.
pub fn finish_root(
    script: &mut Script,
    config: &Value,
    entries: &[Entry],
) -> Result<(), AllocError> {
    let alloc = script.alloc();
    finalize(script, config, entries);
    for value in list(config, "/linux/readonlyPaths") {
        let path = path_word(alloc, item(value))?;
        let path = path.as_str();
        if is_file_name(last_name(path)) {
            script.skip("a file that is bound", path);
            continue;
        }
        let flags = Flags {
            read_only: true,
            ..flags_at(config, entries, path)
        };
        script.say("# readonlyPath: linux.readonlyPaths", &[]);
        say_two(script, "t.1 rbind {} {}", path, path);
        say_two(
            script,
            "t.1 remount {} {}",
            path,
            flags.word().unwrap_or("ro"),
        );
    }
    for value in list(config, "/linux/maskedPaths") {
        let path = path_word(alloc, item(value))?;
        let path = path.as_str();
        if is_file_name(last_name(path)) {
            script.skip("a file that is bound", path);
        } else {
            script.say("# maskPath: linux.maskedPaths", &[]);
            script.say("t.1 mount plain {} ro", &[path]);
        }
    }
    Ok(())
}
