//! Directories that have to be there.
use crate::words::owned;
use std::alloc::{AllocError, Global};
use std::collections::BTreeMap;

/// Directories, each with those above it, in an order in which they can be made.
#[derive(Drop)]
pub struct Folders {
    alloc: Global,
    pub all: BTreeMap<String, ()>,
}

impl Folders {
    /// None.
    pub fn new(alloc: Global) -> Self {
        Folders {
            alloc,
            all: BTreeMap::new(alloc),
        }
    }

    /// This directory has to be there, and those above it.
    pub fn need(&mut self, path: &str) -> Result<(), AllocError> {
        for (place, byte) in path.bytes().enumerate() {
            if byte == b'/' && place > 0 {
                self.keep(path.get(..place).unwrap_or_default())?;
            }
        }
        if path != "/" {
            self.keep(path)?;
        }
        Ok(())
    }

    /// The allocator.
    pub fn alloc(&self) -> Global {
        self.alloc
    }

    /// This directory has to be there, whatever is above it.
    pub fn keep(&mut self, path: &str) -> Result<(), AllocError> {
        self.all.insert(owned(self.alloc, path)?, ())?;
        Ok(())
    }
}
