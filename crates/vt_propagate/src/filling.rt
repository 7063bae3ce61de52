//! How many mounts namespaces get when a tree of mounts is attached: ENOSPC of mount(2).
ghost use Rattle.std.specs.Prelude.{◌≡◌, ◌<◌, ◌+◌, if◌then◌else◌, IfOk, List};
ghost use Rattle.std.specs.Prelude.{None, OnOk, Some, false, length, map, nat_eq, true, unwrap_or, ℕ};
ghost use Rattle.std.specs.List.{list_any};
ghost use Rattle.std.specs.HashMap.{get};
ghost use Rattle.vt_spec.specs.Lists.{holds_of};
ghost use Rattle.vt_spec.specs.Machine.Attach.{Copies, attached_by, has_too_many, parts_of};
ghost use Rattle.vt_spec.specs.Machine.Mounts as meant;
ghost use Rattle.vt_spec.specs.Machine.World.{World};
ghost use Rattle.vt_spec.specs.Machine.Invariants.{NamespaceInvariants};
ghost use Rattle.vt_location.specs.declared.numbers.NamespaceId.{NamespaceId};
ghost use Rattle.vt_location.specs.MountValue.{mount_of};
ghost use Rattle.vt_mount.specs.MountsValue.{mounts_in};
ghost use Rattle.vt_propagate.specs.Filling.{GrowsBy, MovesFrom, is_overfilled, leaving, parts_in};
ghost use Rattle.vt_mount.specs.Indexes.{same_namespace};

use std::alloc::{AllocError, Global};
use std::collections::HashMap;
use vt_location::{Mount, NamespaceId};
use vt_mount::Mounts;

// How many mounts a namespace may have (profile).
const MOST_MOUNTS: u64 = 4096;

/// How many mounts a tree has that is attached, and the namespace that they leave, if they move.
#[derive(Clone, Copy, Debug, PartialEq, Eq)]
pub struct Load {
    pub count: usize,
    pub leaves: Option<NamespaceId>,
}

/// Whether a namespace has more than 4,096 mounts once a tree of mounts is attached at these parts: ENOSPC of mount(2).
pub fn overfills(
    alloc: Global,
    mounts: &Mounts,
    parts: &[Mount],
    load: Load,
) -> Result<bool, AllocError>
    ensures added { IfOk result (λ too_many. (world : World ℕ) (new : Copies ℕ) (place : meant.Location ℕ)
        (tree : List (meant.Mount ℕ))
        → mounts_in mounts.now ≡ world.mounts → NamespaceInvariants nat_eq world
        → map mount_of parts.now ≡ parts_of nat_eq world place → length tree ≡ load.count → load.leaves ≡ None
        → too_many ≡ has_too_many nat_eq (attached_by nat_eq world new place false tree)) }
    ensures moved { IfOk result (λ too_many. (world : World ℕ) (new : Copies ℕ) (place : meant.Location ℕ)
        (tree : List (meant.Mount ℕ))
        → mounts_in mounts.now ≡ world.mounts → NamespaceInvariants nat_eq world
        → map mount_of parts.now ≡ parts_of nat_eq world place → length tree ≡ load.count
        → MovesFrom world load.leaves tree
        → too_many ≡ has_too_many nat_eq (attached_by nat_eq world new place true tree)) }
    ensures more { IfOk result (λ too_many. (world after : World ℕ)
        → mounts_in mounts.now ≡ world.mounts → NamespaceInvariants nat_eq world → load.leaves ≡ None
        → GrowsBy world after (map mount_of parts.now) load.count → too_many ≡ has_too_many nat_eq after) }
{
    if !can_overfill(mounts, parts, load) {
        return Ok(false);
    }
    let counts = counts_of(alloc, parts)?;
    Ok(is_one_overfilled(mounts, parts, &counts, load))
}

/// Whether each namespace has room for a tree of so many mounts on each of its mounts. Such a tree overfills none then,
/// wherever it is attached and whatever receives it. `false` tells nothing: namespaces may have had more mounts before.
pub fn has_room_everywhere(mounts: &Mounts, count: usize) -> bool
    ensures { result ≡ true → (world : World ℕ) (new : Copies ℕ) (place : meant.Location ℕ)
        (tree : List (meant.Mount ℕ))
        → mounts_in mounts.now ≡ world.mounts → length tree ≡ count
        → has_too_many nat_eq (attached_by nat_eq world new place false tree) ≡ false }
{
    let most = mounts.most_in_namespace() as u64;
    most.saturating_add(most.saturating_mul(count as u64)) <= MOST_MOUNTS
}

// Whether the namespace of a part has too many mounts if all parts are in it: else they need not be counted.
fn can_overfill(mounts: &Mounts, parts: &[Mount], load: Load) -> bool
    ensures { result ≡ list_any (λ part. is_overfilled (mounts_in mounts.now) load
        (λ namespace. length parts.now) part.namespace) parts.now }
{
    let most = parts.len() as u64;
    parts
        .iter()
        .any(|part| can_exceed(mounts, part.namespace, most, load))
}

// Whether a namespace, if there is one, has too many mounts once so many parts are in it.
fn can_exceed(mounts: &Mounts, namespace: Option<NamespaceId>, parts: u64, load: Load) -> bool
    ensures { result ≡ is_overfilled (mounts_in mounts.now) load (λ one. parts) namespace }
{
    match namespace {
        Some(namespace) => exceeds(mounts, namespace, parts, load),
        None => false,
    }
}

// How many parts are in each namespace.
fn counts_of(alloc: Global, parts: &[Mount]) -> Result<HashMap<NamespaceId, u64>, AllocError>
    ensures { IfOk result (λ counts. (namespace : NamespaceId)
        → unwrap_or (get same_namespace counts namespace) 0 ≡ parts_in parts.now namespace) }
{
    let mut counts = HashMap::new(alloc);
    for part in parts {
        count_one(&mut counts, part.namespace)?;
    }
    Ok(counts)
}

// Counts one more for a namespace, if there is one.
fn count_one(
    counts: &mut HashMap<NamespaceId, u64>,
    namespace: Option<NamespaceId>,
) -> Result<(), AllocError>
    requires { (one : NamespaceId) → unwrap_or (get same_namespace counts.old one) 0 < u64.MAX }
    ensures { OnOk result ((one : NamespaceId) → unwrap_or (get same_namespace counts.new one) 0
        ≡ unwrap_or (get same_namespace counts.old one) 0 +
        (if holds_of (same_namespace one) namespace then 1 else 0)) }
{
    if let Some(namespace) = namespace {
        let count = counts.get(&namespace).copied().unwrap_or(0);
        counts.insert(namespace, count + 1)?;
    }
    Ok(())
}

// Whether the namespace of a part has too many mounts then.
fn is_one_overfilled(
    mounts: &Mounts,
    parts: &[Mount],
    counts: &HashMap<NamespaceId, u64>,
    load: Load,
) -> bool
    ensures { result ≡ list_any (λ part. is_overfilled (mounts_in mounts.now) load
        (λ namespace. unwrap_or (get same_namespace counts.now namespace) 0) part.namespace) parts.now }
{
    parts
        .iter()
        .any(|part| is_overfilled(mounts, counts, part.namespace, load))
}

// Whether a namespace has too many mounts then.
fn is_overfilled(
    mounts: &Mounts,
    counts: &HashMap<NamespaceId, u64>,
    namespace: Option<NamespaceId>,
    load: Load,
) -> bool
    ensures { result ≡ is_overfilled (mounts_in mounts.now) load
        (λ namespace. unwrap_or (get same_namespace counts.now namespace) 0) namespace }
{
    let Some(namespace) = namespace else {
        return false;
    };
    let parts = counts.get(&namespace).copied().unwrap_or(0);
    exceeds(mounts, namespace, parts, load)
}

// Whether a namespace has too many mounts once so many parts are in it.
fn exceeds(mounts: &Mounts, namespace: NamespaceId, parts: u64, load: Load) -> bool
    ensures { result ≡ is_overfilled (mounts_in mounts.now) load (λ one. parts) (Some namespace) }
{
    let more = parts.saturating_mul(load.count as u64);
    let had = mounts.attached_in(namespace).len();
    let stay = had.saturating_sub(leaving(load, namespace)) as u64;
    stay.saturating_add(more) > MOST_MOUNTS
}

// How many mounts leave a namespace.
fn leaving(load: Load, namespace: NamespaceId) -> usize
    ensures { result ≡ leaving load namespace }
{
    match load.leaves {
        Some(left) if namespace == left => load.count,
        _ => 0,
    }
}
