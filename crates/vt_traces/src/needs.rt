//! What has to be there before a trace, so that its calls find what they found.
use std::alloc::{AllocError, Global};
use std::collections::BTreeMap;
use vt_from::script::Script;
use vt_from::words::owned;

/// What is needed at a path.
#[derive(Clone, Copy, PartialEq, Eq)]
pub enum Need {
    File,
    /// A file that may be executed.
    Program,
    Directory,
}

/// What has to be there at which paths, and what a trace has made itself.
#[derive(Drop)]
pub struct Needs {
    alloc: Global,
    wanted: BTreeMap<String, Need>,
    // How often a path was made: a directory may be, and then a mount on it.
    made: BTreeMap<String, u64>,
}

impl Needs {
    /// None.
    pub fn new(alloc: Global) -> Self {
        Needs {
            alloc,
            wanted: BTreeMap::new(alloc),
            made: BTreeMap::new(alloc),
        }
    }

    // Whether the trace has made a path, or a directory above it.
    fn is_made(&self, path: &str) -> bool {
        for (place, byte) in path.bytes().enumerate() {
            if byte == b'/'
                && self
                    .made
                    .contains_key(path.get(..place).unwrap_or_default())
            {
                return true;
            }
        }
        self.made.contains_key(path)
    }

    // Keeps what is needed at a path; a directory stays one, and a program stays a program.
    fn keep(&mut self, path: &str, need: Need) -> Result<(), AllocError> {
        let is_kept = match self.wanted.get(path) {
            Some(Need::Directory) => true,
            Some(Need::Program) => need == Need::File,
            _ => false,
        };
        if !is_kept {
            self.wanted.insert(owned(self.alloc, path)?, need)?;
        }
        Ok(())
    }

    // Needs the directories above a path.
    fn need_above(&mut self, path: &str) -> Result<(), AllocError> {
        for (place, byte) in path.bytes().enumerate() {
            if byte == b'/' && place > 0 {
                self.keep(path.get(..place).unwrap_or_default(), Need::Directory)?;
            }
        }
        Ok(())
    }

    /// This was at a path before the trace, unless that has made it.
    pub fn want(&mut self, path: &str, need: Need) -> Result<(), AllocError> {
        if path == "/" || self.is_made(path) {
            return Ok(());
        }
        self.need_above(path)?;
        self.keep(path, need)
    }

    /// The trace makes a path, in a directory that is there.
    pub fn make(&mut self, path: &str) -> Result<(), AllocError> {
        if !self.is_made(path) {
            self.need_above(path)?;
        }
        if let Some(count) = self.made.get_mut(path) {
            *count = count.saturating_add(1);
            return Ok(());
        }
        self.made.insert(owned(self.alloc, path)?, 1)?;
        Ok(())
    }

    /// The trace takes a path away, or a mount that hid it.
    pub fn forget(&mut self, path: &str) {
        match self.made.get_mut(path) {
            Some(count) if *count > 1 => *count = count.saturating_sub(1),
            _ => {
                self.made.remove(path);
            }
        }
    }

    /// Whether a path is known as one of a file.
    pub fn is_file(&self, path: &str) -> bool {
        matches!(
            self.wanted.get(path),
            Some(Need::File) | Some(Need::Program)
        )
    }

    /// Appends the lines that make what is needed.
    pub fn write(&self, script: &mut Script) {
        for (path, need) in &self.wanted {
            let path = path.as_str();
            match need {
                Need::Directory => script.say("t mkdir {}", &[path]),
                Need::File | Need::Program => script.say("t write {} \\e", &[path]),
            }
            if *need == Need::Program {
                script.say("t chmod {} 755", &[path]);
            }
        }
    }
}
