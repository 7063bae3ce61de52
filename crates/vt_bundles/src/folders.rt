//! Which directories the host and the container have to have.
use crate::entry::Entry;
use crate::fields::{item, path_word};
use serde_json::Value;
use std::alloc::AllocError;
use vt_from::flags::is_file_name;
use vt_from::folders::Folders;
use vt_from::words::{below, joined, last_name};

/// Which entry's mount has a path of the container, before an entry: the one whose destination is nearest above. Where
/// there is none, the root has it.
pub fn holder(entries: &[Entry], path: &str) -> Option<usize> {
    let mut found: Option<usize> = None;
    let mut longest: usize = 0;
    for (place, entry) in entries.iter().enumerate() {
        let top = entry.destination.as_str();
        let is_above = matches!(below(path, top), Some(rest) if !rest.is_empty());
        if is_above && top.len() >= longest && !entry.is_of_file() {
            found = Some(place);
            longest = top.len();
        }
    }
    found
}

/// Destinations of directories have to be directories of the container.
pub fn want_entries(folders: &mut Folders, entries: &[Entry]) -> Result<(), AllocError> {
    for entry in entries {
        if !entry.is_of_file() {
            folders.keep(entry.destination.as_str())?;
        }
    }
    Ok(())
}

/// Paths of a list have to be directories of the container, if they are none of files.
pub fn want_paths(folders: &mut Folders, values: &[Value]) -> Result<(), AllocError> {
    let alloc = folders.alloc();
    for value in values {
        let path = path_word(alloc, item(value))?;
        if !is_file_name(last_name(path.as_str())) {
            folders.keep(path.as_str())?;
        }
    }
    Ok(())
}

/// Of these paths those that an entry's mount has, with the directories between.
pub fn below_entry(
    wanted: &Folders,
    entries: &[Entry],
    place: Option<usize>,
    root: &str,
) -> Result<Folders, AllocError> {
    let alloc = wanted.alloc();
    let mut found = Folders::new(alloc);
    let top = match place {
        Some(place) => match entries.get(place) {
            Some(entry) => entry.destination.as_str(),
            None => "/",
        },
        None => "/",
    };
    for path in wanted.all.keys() {
        if holder(entries, path.as_str()) == place
            && let Some(rest) = below(path.as_str(), top)
            && !rest.is_empty()
        {
            found.need(rest)?;
        }
    }
    let at = joined(alloc, root, top)?;
    let mut all = Folders::new(alloc);
    for rest in found.all.keys() {
        all.keep(joined(alloc, at.as_str(), rest.as_str())?.as_str())?;
    }
    Ok(all)
}
