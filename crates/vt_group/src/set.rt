//! One set of mounts or groups, as a list in ascending order. It does not allocate while it has at most one.
//!
//! Mounts mostly leave in the order in which they came.
ghost use Rattle.std.specs.Prelude.{◌≡◌, ◌<◌, ◌≤◌, false, true, get_or, length, IsSome, IsTrue, OnOk, IfOk, ◌∷◌, []};
ghost use Rattle.std.specs.List.{list_any};
ghost use Rattle.vt_location.specs.Numbers.{same_id};
ghost use Rattle.vt_location.specs.declared.numbers.GroupId.{GroupId as GroupNumber};
ghost use Rattle.vt_location.specs.declared.numbers.MountId.{MountId as MountNumber};
ghost use Rattle.vt_deque.specs.SliceDeque.{items};
ghost use Rattle.vt_group.specs.ByNumber.{value_at};
ghost use Rattle.vt_group.specs.Sets.{elements, same_group};

use crate::by_number::ByNumber;
use crate::id::Id;
use std::alloc::{AllocError, Global};
use std::hash::Hash;
use std::slice;
use vt_deque::SliceDeque;
use vt_location::{GroupId, MountId, Propagation};

/// For how many a list has room at first.
const FEW: usize = 4;

/// What a set may have.
pub trait Element: Id + Eq + Hash + Copy + Clone + Drop {
    /// A list of this one alone.
    fn alone(&self) -> &[Self]
        ensures { result.now ≡ self.now ∷ [] };
}

impl Element for MountId {
    fn alone(&self) -> &[MountId] {
        slice::from_ref(self)
    }
}

impl Element for GroupId {
    fn alone(&self) -> &[GroupId] {
        slice::from_ref(self)
    }
}

/// A set, as a list in ascending order.
#[derive(Debug, Drop)]
pub(crate) enum Set<T> {
    /// At most one.
    One(Option<T>),
    Many(SliceDeque<T>),
}

impl<T: Element> Set<T> {
    /// What is in the set.
    pub(crate) fn as_slice(&self) -> &[T]
        ensures { result.now ≡ elements self.now }
    {
        match self {
            Set::One(Some(only)) => only.alone(),
            Set::One(None) => &[],
            Set::Many(many) => many.as_slice(),
        }
    }

    /// Whether nothing is in the set.
    pub(crate) fn is_empty(&self) -> bool
        ensures { IsTrue result → elements self.now ≡ [] }
    {
        match self {
            Set::One(only) => only.is_none(),
            Set::Many(many) => many.is_empty(),
        }
    }

    /// Adds one, unless it is in the set.
    pub(crate) fn insert(&mut self, alloc: Global, one: T) -> Result<(), AllocError>
        ensures there { OnOk result (list_any (T.eq one) (elements self.new) ≡ true) }
        ensures kept { (other : T) → list_any (T.eq other) (elements self.old) ≡ true
            → list_any (T.eq other) (elements self.new) ≡ true }
    {
        match self {
            Set::One(None) => {
                *self = Set::One(Some(one));
                Ok(())
            }
            Set::One(Some(only)) if *only == one => Ok(()),
            Set::One(Some(only)) => {
                *self = Set::Many(pair(alloc, *only, one)?);
                Ok(())
            }
            Set::Many(many) => add(many, one),
        }
    }

    /// Takes one out, and returns whether it was there. It does not allocate.
    pub(crate) fn remove(&mut self, one: &T) -> bool
        ensures { (other : T) → T.eq one.now other ≡ false → list_any (T.eq other) (elements self.old) ≡ true
            → list_any (T.eq other) (elements self.new) ≡ true }
    {
        match self {
            Set::One(Some(only)) if *only == *one => {
                *self = Set::One(None);
                true
            }
            Set::One(_) => false,
            Set::Many(many) => take_out(many, one),
        }
    }
}

// A list of two.
fn pair<T: Element>(alloc: Global, first: T, second: T) -> Result<SliceDeque<T>, AllocError>
    ensures there { IfOk result (λ list. list_any (T.eq second) (items list) ≡ true) }
    ensures kept { IfOk result (λ list. (other : T) → list_any (T.eq other) (first ∷ []) ≡ true
        → list_any (T.eq other) (items list) ≡ true) }
{
    let mut list = SliceDeque::with_capacity(alloc, FEW)?;
    list.push(first)?;
    add(&mut list, second)?;
    Ok(list)
}

// Adds one to a list at its place, unless it is there. Mostly it comes after all others.
fn add<T: Element>(list: &mut SliceDeque<T>, one: T) -> Result<(), AllocError>
    ensures there { OnOk result (list_any (T.eq one) (items list.new) ≡ true) }
    ensures kept { (other : T) → list_any (T.eq other) (items list.old) ≡ true
        → list_any (T.eq other) (items list.new) ≡ true }
{
    let place = place_of(list.as_slice(), &one);
    if is_at(list.as_slice(), place, &one) {
        return Ok(());
    }
    list.insert(place, one)?;
    Ok(())
}

// Takes one out of a list, and returns whether it was there.
fn take_out<T: Element>(list: &mut SliceDeque<T>, one: &T) -> bool
    ensures { (other : T) → T.eq one.now other ≡ false → list_any (T.eq other) (items list.old) ≡ true
        → list_any (T.eq other) (items list.new) ≡ true }
{
    let place = place_of(list.as_slice(), one);
    if !is_at(list.as_slice(), place, one) {
        return false;
    }
    list.remove(place);
    true
}

// Where one stands in a list, or is to be inserted.
#[inline]
fn place_of<T: Element>(list: &[T], one: &T) -> usize
    ensures { result ≤ length list.now }
{
    let number = one.number();
    match list.last() {
        Some(last) if last.number() < number => list.len(),
        Some(last) if last.number() == number => list.len() - 1,
        _ => list.partition_point(|other| other.number() < number),
    }
}

// Whether one stands at a place of a list.
#[inline]
fn is_at<T: Element>(list: &[T], place: usize, one: &T) -> bool
    ensures within { result ≡ true → place < length list.now }
    ensures there { result ≡ true → (d : T) → T.eq (get_or list.now place d) one.now ≡ true }
{
    if place >= list.len() {
        return false;
    }
    list[place] == *one
}

/// Takes out the mounts that have no type. It does not allocate.
pub(crate) fn keep_typed(set: &mut Set<MountId>, types: &ByNumber<MountId, Propagation>)
    ensures { (mount : MountNumber) → IsSome (value_at types.now mount.count)
        → list_any (same_id mount) (elements set.old) ≡ true → list_any (same_id mount) (elements set.new) ≡ true }
{
    match set {
        Set::One(Some(only)) if types.has(*only) => {}
        Set::One(_) => *set = Set::One(None),
        Set::Many(many) => many.retain(|mount| types.has(*mount)),
    }
}

/// Takes out the groups that have no master. It does not allocate.
pub(crate) fn keep_lower(set: &mut Set<GroupId>, above: &ByNumber<GroupId, GroupId>)
    ensures { (lower : GroupNumber) → IsSome (value_at above.now lower.count)
        → list_any (same_group lower) (elements set.old) ≡ true
        → list_any (same_group lower) (elements set.new) ≡ true }
{
    match set {
        Set::One(Some(only)) if above.has(*only) => {}
        Set::One(_) => *set = Set::One(None),
        Set::Many(many) => many.retain(|lower| above.has(*lower)),
    }
}
