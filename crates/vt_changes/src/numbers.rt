//! Change numbers by what has them: what is not kept has 0.
ghost use Rattle.std.specs.Prelude.{◌≡◌, ◌+◌, ◌<◌, ◌≤◌};
ghost use Rattle.indexmap.specs.IndexMap.{insert_entry, spare};
ghost use Rattle.vt_spec.specs.Machine.Filesystems.{raised};
ghost use Rattle.vt_changes.specs.Kept.{number_by};

use indexmap::{Equivalent, IndexMap};
use std::hash::Hash;

/// A change number.
pub(crate) fn number_of<K: Eq + Hash, Q: Equivalent<K>>(numbers: &IndexMap<K, u64>, key: Q) -> u64
    ensures { result ≡ number_by (Q.equivalent key) numbers.now.entries }
{
    match numbers.get(key) {
        Some(number) => *number,
        None => 0,
    }
}

/// Raises a change number by one, for which there is room; the largest one stays.
pub(crate) fn raise<K: Eq + Hash + Drop>(numbers: &mut IndexMap<K, u64>, key: K)
    requires { 0 < spare numbers.old }
    ensures entries { numbers.new.entries ≡ insert_entry K.eq numbers.old.entries key
        (raised (number_by (K.eq key) numbers.old.entries)) }
    ensures room { spare numbers.old ≤ spare numbers.new + 1 }
{
    let next = number_of(numbers, &key).saturating_add(1);
    let _last = numbers.insert(key, next).unwrap();
}
