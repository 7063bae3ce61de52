//! `Tally`: how often each of some keys was counted.
ghost use Rattle.std.specs.Prelude.{◌≡◌, ◌+◌, ◌-◌, ◌<◌, ◌≤◌, ◌^◌, OnOk, if◌then◌else◌, nat_lt};
ghost use Rattle.vt_store.specs.Tallies.{room, times};

use indexmap::IndexMap;
use std::alloc::{AllocError, Global};
use std::hash::Hash;

/// How often each of some keys was counted.
#[derive(Debug, Drop)]
pub(crate) struct Tally<K: Eq + Hash> {
    counts: IndexMap<K, u64>,
}

impl<K: Eq + Hash + Copy + Drop> Tally<K> {
    /// Nothing is counted. It does not allocate.
    pub(crate) fn new(alloc: Global) -> Self
        ensures { (q : K) → times K.eq q result ≡ 0 }
    {
        Tally {
            counts: IndexMap::new(alloc),
        }
    }

    /// Whether a key is counted.
    #[inline(always)]
    pub(crate) fn has(&self, key: &K) -> bool
        ensures { result ≡ nat_lt 0 (times K.eq key.now self.now) }
    {
        match self.counts.get(key) {
            Some(count) => *count > 0,
            None => false,
        }
    }

    /// Makes room for so many keys more.
    pub(crate) fn reserve(&mut self, more: usize) -> Result<(), AllocError>
        ensures same { (q : K) → times K.eq q self.new ≡ times K.eq q self.old }
        ensures ok { OnOk result (more ≤ room self.new) }
    {
        self.counts.reserve(more)
    }

    /// Counts a key once more, for a caller that has made room. It does not allocate.
    pub(crate) fn add(&mut self, key: K)
        requires room { 0 < room self.old }
        requires few { times K.eq key self.old + 1 < 2 ^ 64 }
        ensures times { (q : K) → times K.eq q self.new
            ≡ (if K.eq q key then times K.eq q self.old + 1 else times K.eq q self.old) }
        ensures room { room self.old ≤ room self.new + 1 }
    {
        if let Some(count) = self.counts.get_mut(&key) {
            *count += 1;
            return;
        }
        // It cannot fail: there is room.
        let _ = self.counts.insert(key, 1);
    }

    /// Takes back that a key was counted once; a count of 0 stays 0. It does not allocate.
    pub(crate) fn take(&mut self, key: &K)
        ensures { (q : K) → times K.eq q self.new
            ≡ (if K.eq q key.now then times K.eq q self.old - 1 else times K.eq q self.old) }
    {
        let Some(count) = self.counts.get_mut(key) else {
            return;
        };
        *count = count.saturating_sub(1);
        if *count == 0 {
            self.counts.swap_remove(key);
        }
    }
}
