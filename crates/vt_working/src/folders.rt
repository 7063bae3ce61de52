//! The scripts of folders.
use std::alloc::Global;
use std::fs::{self, DirEntry};
use std::io;
use std::rt::{Files, Runtime};

// What a script's name ends in.
const SCRIPT: &str = ".vt";

/// Whether a name is that of a folder.
pub fn is_folder<R: Files>(rt: &R, name: &str) -> bool {
    name != "-" && matches!(fs::metadata(rt, name), Ok(found) if found.is_dir())
}

// What was found of a folder, and the folders below it that are left to be looked at.
#[derive(Drop)]
struct Search {
    alloc: Global,
    scripts: Vec<String>,
    folders: Vec<String>,
}

impl Search {
    // Goes on by an entry of a folder. Symlinks to folders are not followed.
    fn take<R: Files>(&mut self, entry: &DirEntry<R>) -> io::Result<()> {
        let path = String::from_str(self.alloc, entry.path().as_str())?;
        if entry.file_type()?.is_dir() {
            self.folders.push(path)?;
        } else if path.ends_with(SCRIPT) {
            self.scripts.push(path)?;
        }
        Ok(())
    }

    // Goes on by all entries of a folder.
    fn read<R: Runtime + AllocGlobal>(&mut self, rt: &R, folder: &str) -> io::Result<()> {
        for entry in fs::read_dir(rt, folder)? {
            self.take(&entry?)?;
        }
        Ok(())
    }

    // Goes on by all entries of a folder and of the folders below it.
    fn read_all<R: Runtime + AllocGlobal>(&mut self, rt: &R, top: &str) -> io::Result<()> {
        self.read(rt, top)?;
        for _ in 0..u64::MAX {
            let Some(folder) = self.folders.pop() else {
                break;
            };
            self.read(rt, folder.as_str())?;
        }
        self.scripts.sort()?;
        Ok(())
    }
}

/// The names of the scripts in a folder and the folders below it, in order. Where it cannot be read, there is nothing, which
/// is said on the error output; so is it where it has none.
pub fn scripts_below<R: Runtime + AllocGlobal>(rt: &R, folder: &str) -> Option<Vec<String>> {
    let alloc = rt.alloc();
    let mut search = Search {
        alloc,
        scripts: Vec::new(alloc),
        folders: Vec::new(alloc),
    };
    match search.read_all(rt, folder) {
        Ok(()) if search.scripts.is_empty() => {
            let _ = eprintln!(rt; "vtree: {folder}: no name in it ends in {SCRIPT}");
            Some(search.scripts)
        }
        Ok(()) => Some(search.scripts),
        Err(cause) => {
            let _ = eprintln!(rt; "vtree: cannot read {folder}: {cause}");
            None
        }
    }
}
