//! The script of a bundle: the host, then the steps of runc in their order.
use crate::entry::{Entry, entry_of};
use crate::fields::{field, list, path_word};
use crate::folders::{below_entry, want_entries, want_paths};
use crate::process::{enter, tell_missing};
use crate::root::{change_root, finish_root, mount_entry, prepare_root};
use crate::saying::say_two;
use serde_json::Value;
use std::alloc::{AllocError, Global};
use vt_from::folders::Folders;
use vt_from::script::{Script, Written};
use vt_from::words::joined;

// Where the bundle is, where its root is given by a relative path.
const BUNDLE: &str = "/bundle";

/// A configuration, as far as it is taken apart.
#[derive(Drop)]
pub struct Bundle {
    /// The root on the host.
    pub root: String,
    pub entries: Vec<Entry>,
    /// Paths of the container that have to be directories.
    pub wanted: Folders,
    /// Whether the container has a mount namespace of its own.
    pub is_unshared: bool,
}

// Whether the container has a mount namespace of its own.
fn is_unshared(config: &Value) -> bool {
    for namespace in list(config, "/linux/namespaces") {
        if field(namespace, "/type") == "mount" && field(namespace, "/path").is_empty() {
            return true;
        }
    }
    false
}

// A configuration, taken apart.
fn bundle_of(alloc: Global, config: &Value) -> Result<Bundle, AllocError> {
    let path = field(config, "/root/path");
    let root = path_word(alloc, path)?;
    let root = if path.starts_with('/') {
        root
    } else {
        joined(alloc, BUNDLE, root.as_str())?
    };
    let mut entries = Vec::new(alloc);
    for value in list(config, "/mounts") {
        entries.push(entry_of(alloc, value)?)?;
    }
    let mut paths = Folders::new(alloc);
    want_entries(&mut paths, entries.as_slice())?;
    want_paths(&mut paths, list(config, "/linux/readonlyPaths"))?;
    want_paths(&mut paths, list(config, "/linux/maskedPaths"))?;
    let directory = path_word(alloc, field(config, "/process/cwd"))?;
    paths.keep(directory.as_str())?;
    Ok(Bundle {
        root,
        entries,
        wanted: paths,
        is_unshared: is_unshared(config),
    })
}

// The directories that the host has to have: the root with what no mount has, and what is bound.
fn host_folders(alloc: Global, bundle: &Bundle) -> Result<Folders, AllocError> {
    let mut folders = Folders::new(alloc);
    folders.need(bundle.root.as_str())?;
    let entries = bundle.entries.as_slice();
    for path in below_entry(&bundle.wanted, entries, None, bundle.root.as_str())?
        .all
        .keys()
    {
        folders.need(path.as_str())?;
    }
    for entry in entries {
        if entry.bind.is_some() && !entry.is_of_file() {
            folders.need(entry.source.as_str())?;
        }
        for layer in entry.layers.as_str().split(':') {
            if layer.starts_with('/') {
                folders.need(layer)?;
            }
        }
    }
    Ok(folders)
}

// The host before the container is made.
fn write_host(script: &mut Script, bundle: &Bundle) -> Result<(), AllocError> {
    let alloc = script.alloc();
    script.say(
        "# The host: the bundle, and what is bound. systemd makes all mounts shared.",
        &[],
    );
    for folder in host_folders(alloc, bundle)?.all.keys() {
        script.say("t mkdir {}", &[folder.as_str()]);
    }
    for entry in &bundle.entries {
        if entry.is_propagated() && !entry.is_of_file() {
            let source = entry.source.as_str();
            script.say(
                "# What is bound as a slave or shared has to be on a mount that propagates.",
                &[],
            );
            say_two(script, "t bind {} {}", source, source);
        }
    }
    script.say("t rtype / shared", &[]);
    Ok(())
}

// The mounts of the container, in their order.
fn write_mounts(script: &mut Script, bundle: &Bundle) -> Result<(), AllocError> {
    for (place, entry) in bundle.entries.iter().enumerate() {
        let entries = bundle.entries.as_slice();
        let folders = below_entry(&bundle.wanted, entries, Some(place), bundle.root.as_str())?;
        mount_entry(script, bundle.root.as_str(), place, entry, &folders)?;
    }
    Ok(())
}

/// Why a text is no configuration.
#[derive(Drop)]
pub enum BundleFault {
    Memory,
    /// It is no JSON, and this is where and why, or it lacks a field.
    Form(String),
}

impl From<AllocError> for BundleFault {
    fn from(_error: AllocError) -> BundleFault {
        BundleFault::Memory
    }
}

/// The script of the text of a configuration.
pub fn script_of(alloc: Global, text: &str) -> Result<Written, BundleFault> {
    let config = match Value::from_str(alloc, text) {
        Ok(config) => config,
        Err(error) => return Err(BundleFault::Form(format!(in alloc; "{error}")?)),
    };
    if field(&config, "/root/path").is_empty() {
        let why = "it has no `root.path`: is it the config.json of a bundle?";
        return Err(BundleFault::Form(String::from_str(alloc, why)?));
    }
    Ok(script_of_config(alloc, &config)?)
}

// The script of a configuration.
fn script_of_config(alloc: Global, config: &Value) -> Result<Written, AllocError> {
    let mut script = Script::new(alloc, "oci", "run");
    let bundle = bundle_of(alloc, config)?;
    tell_missing(&mut script, config)?;
    write_host(&mut script, &bundle)?;
    prepare_root(&mut script, config, &bundle);
    write_mounts(&mut script, &bundle)?;
    change_root(&mut script, config, &bundle);
    finish_root(&mut script, config, bundle.entries.as_slice())?;
    enter(&mut script, config)?;
    script.end()
}
