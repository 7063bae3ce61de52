//! A cache of names.
ghost use Rattle.std.specs.Prelude.{◌≡◌, ◌≤◌, [], IfOk, OnErr, OnOk, is_some, length};
ghost use Rattle.vt_names.specs.declared.kept.Kept.TheVariants.{All, Merged};
ghost use Rattle.vt_names.specs.NamesValue.{first_in_place, hits_after, kept_first, no_names, others_than, said};

use crate::kept::{Kept, KeptName, NameKey, forget_in, found_in, keep_in};
use lru::LruCache;
use std::alloc::{AllocError, Global};
use std::marker::Model;
use std::num::NonZeroUsize;
use vt_location::NodeRef;

/// What names of directories lead to, those that were asked for last first. Where there is no room for one more, the
/// one goes that was not asked for longest.
#[derive(Debug, Drop)]
pub struct Names {
    alloc: Global,
    kept: Kept,
    cache: Option<LruCache<NameKey, KeptName>>,
    hits: u64,
}

impl Model for Names {
    ghost use Rattle.vt_names.specs.NamesValue.{NamesValue};
    ghost use Rattle.vt_names.specs.Pairs.{AreByDigest, names_kept, pairs_in};

    ghost Value = { NamesValue };

    ghost view = { λ names. names_kept names.kept names.cache names.hits };

    ghost invariant = { λ names. AreByDigest (pairs_in names.cache) };
}

impl Names {
    /// An empty cache for names of all directories, at most so many; 0 keeps nothing.
    pub fn new(alloc: Global, capacity: usize) -> Result<Self, AllocError>
        ensures { IfOk result (λ names. names ≡ no_names All capacity) }
    {
        Names::keeping(alloc, Kept::All, capacity)
    }

    /// An empty cache for names of merged directories alone.
    pub fn of_merged(alloc: Global, capacity: usize) -> Result<Self, AllocError>
        ensures { IfOk result (λ names. names ≡ no_names Merged capacity) }
    {
        Names::keeping(alloc, Kept::Merged, capacity)
    }

    fn keeping(alloc: Global, kept: Kept, capacity: usize) -> Result<Self, AllocError>
        ensures { IfOk result (λ names. names ≡ no_names kept capacity) }
    {
        let cache = match NonZeroUsize::new(capacity) {
            Some(capacity) => Some(LruCache::new(alloc, capacity)?),
            None => None,
        };
        Ok(Names {
            alloc,
            kept,
            cache,
            hits: 0,
        })
    }

    /// Of which directories names are kept.
    pub fn kept(&self) -> Kept
        ensures { result ≡ self.now.kept }
    {
        self.kept
    }

    /// How many names are kept.
    pub fn held(&self) -> usize
        ensures count { result ≡ length self.now.entries }
        ensures bound { result ≤ self.now.capacity }
    {
        match &self.cache {
            Some(cache) => cache.len(),
            None => 0,
        }
    }

    /// How many looks were answered. It stays at 2^64 - 1.
    pub fn hits(&self) -> u64
        ensures { result ≡ self.now.hits }
    {
        self.hits
    }

    /// What is kept of a name: the node that it leads to, or that nothing has it. It does not allocate.
    pub fn look(&mut self, directory: NodeRef, name: &[u8]) -> Option<Option<NodeRef>>
        ensures answer { result ≡ said self.old.entries directory name.now }
        ensures hits { self.new.hits ≡ hits_after (is_some result) self.old.hits }
        ensures entries { self.new.entries ≡ first_in_place directory name.now self.old.entries }
        ensures capacity { self.new.capacity ≡ self.old.capacity }
        ensures kept { self.new.kept ≡ self.old.kept }
    {
        let found = self.found(directory, name);
        if found.is_some() {
            self.hits = self.hits.saturating_add(1);
        }
        found
    }

    // The same, without a count.
    fn found(&mut self, directory: NodeRef, name: &[u8]) -> Option<Option<NodeRef>>
        ensures answer { result ≡ said self.old.entries directory name.now }
        ensures names { self.new
            ≡ record self.old { entries = first_in_place directory name.now self.old.entries } }
    {
        match &mut self.cache {
            Some(cache) => found_in(cache, directory, name),
            None => None,
        }
    }

    /// Keeps what a name leads to, in the place of what is kept of it, or of another name of the directory with its
    /// digest.
    ///
    /// An error says that an allocation failed. To walks that is no failure: the world is asked again.
    pub fn keep(
        &mut self,
        directory: NodeRef,
        name: &[u8],
        node: Option<NodeRef>,
    ) -> Result<(), AllocError>
        ensures ok { OnOk result (self.new ≡ record self.old {
          entries = kept_first self.old.capacity
              (record { directory = directory; name = name.now; node = node }) self.old.entries;
        }) }
        ensures err { OnErr result (self.new ≡ self.old) }
    {
        let Some(cache) = &mut self.cache else {
            return Ok(());
        };
        let name = Vec::from_slice(self.alloc, name)?;
        keep_in(cache, directory, KeptName { name, node })
    }

    /// Forgets what is kept of a name, and of another name of the directory with its digest. It does not allocate.
    pub fn forget(&mut self, directory: NodeRef, name: &[u8])
        ensures { self.new
            ≡ record self.old { entries = others_than directory name.now self.old.entries } }
    {
        if let Some(cache) = &mut self.cache {
            forget_in(cache, directory, name);
        }
    }

    /// Forgets all names. It does not allocate.
    pub fn clear(&mut self)
        ensures { self.new ≡ record self.old { entries = [] } }
    {
        if let Some(cache) = &mut self.cache {
            cache.clear();
        }
    }
}
