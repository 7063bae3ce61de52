//! What is kept of names, and where.
ghost use Rattle.std.specs.Prelude.{◌≡◌, OnErr, OnOk};
ghost use Rattle.vt_names.specs.NamesValue.{digest, first_in_place, keeps, kept_first, others_than, said};
ghost use Rattle.vt_names.specs.Pairs.{AreByDigest, entries_of, key_of, said_by};

use lru::LruCache;
use std::alloc::AllocError;
use vt_location::NodeRef;

/// Of which directories names are kept.
#[derive(Clone, Copy, Debug, PartialEq, Eq)]
pub enum Kept {
    All,
    /// Of merged directories alone: a plain directory is asked in less time than a cache.
    Merged,
}

impl Kept {
    /// Whether names of a directory are kept, which is merged or not.
    pub fn has(self, is_merged: bool) -> bool
        ensures { result ≡ keeps self is_merged }
    {
        match self {
            Kept::All => true,
            Kept::Merged => is_merged,
        }
    }
}

// Where a name is kept: by its directory, and a digest of the name. A look-up needs no copy of the name then.
#[derive(Clone, Copy, Debug, PartialEq, Eq, Hash)]
pub(crate) struct NameKey {
    pub(crate) directory: NodeRef,
    pub(crate) digest: u64,
}

// What is kept there: the name, and the node that it leads to, or that nothing has it.
#[derive(Debug, Drop)]
pub(crate) struct KeptName {
    pub(crate) name: Vec<u8>,
    pub(crate) node: Option<NodeRef>,
}

// A digest of a name: of names with up to seven bytes no two have the same.
fn digest(name: &[u8]) -> u64
    ensures { result ≡ digest name.now }
{
    let mut sum = 0_u64;
    let mut rest = name;
    while let [byte, others @ ..] = rest {
        sum = sum.wrapping_mul(263).wrapping_add(u64::from(*byte));
        rest = others;
    }
    sum
}

impl NameKey {
    // Where a name of a directory is kept.
    pub(crate) fn new(directory: NodeRef, name: &[u8]) -> Self
        ensures { result ≡ key_of directory name.now }
    {
        NameKey {
            directory,
            digest: digest(name),
        }
    }
}

impl KeptName {
    // What a name leads to, if this is what is kept of it, and not of another with its digest.
    fn said_of(&self, name: &[u8]) -> Option<Option<NodeRef>>
        ensures { result ≡ said_by name.now self.now }
    {
        if self.name.as_slice() == name {
            Some(self.node)
        } else {
            None
        }
    }
}

// What is kept of a name. It was asked for last then, or what is in its place was.
pub(crate) fn found_in(
    cache: &mut LruCache<NameKey, KeptName>,
    directory: NodeRef,
    name: &[u8],
) -> Option<Option<NodeRef>>
    requires { AreByDigest cache.old.entries }
    ensures answer { result ≡ said (entries_of cache.old.entries) directory name.now }
    ensures entries { entries_of cache.new.entries ≡ first_in_place directory name.now (entries_of cache.old.entries) }
    ensures capacity { cache.new.cap ≡ cache.old.cap }
    ensures digests { AreByDigest cache.new.entries }
{
    prove!(cache.len() <= cache.cap().get());
    let key = NameKey::new(directory, name);
    match cache.get(&key) {
        Some(kept) => kept.said_of(name),
        None => None,
    }
}

// Keeps what a name leads to, in its place.
pub(crate) fn keep_in(
    cache: &mut LruCache<NameKey, KeptName>,
    directory: NodeRef,
    kept: KeptName,
) -> Result<(), AllocError>
    requires { AreByDigest cache.old.entries }
    ensures ok { OnOk result (entries_of cache.new.entries ≡ kept_first cache.old.cap
        (record { directory = directory; name = kept.name.items; node = kept.node }) (entries_of cache.old.entries)) }
    ensures err { OnErr result (cache.new ≡ cache.old) }
    ensures capacity { cache.new.cap ≡ cache.old.cap }
    ensures digests { AreByDigest cache.new.entries }
{
    prove!(cache.len() <= cache.cap().get());
    let key = NameKey::new(directory, kept.name.as_slice());
    cache.put(key, kept)?;
    Ok(())
}

// Forgets what is in the place of a name.
pub(crate) fn forget_in(cache: &mut LruCache<NameKey, KeptName>, directory: NodeRef, name: &[u8])
    requires { AreByDigest cache.old.entries }
    ensures entries { entries_of cache.new.entries ≡ others_than directory name.now (entries_of cache.old.entries) }
    ensures capacity { cache.new.cap ≡ cache.old.cap }
    ensures digests { AreByDigest cache.new.entries }
{
    prove!(cache.len() <= cache.cap().get());
    cache.pop(&NameKey::new(directory, name));
}
