//! A list in one piece, behind room for items that have left it at the front.
ghost use Rattle.std.specs.Prelude.{◌≡◌, ◌==◌, ◌+◌, ◌-◌, ◌++◌, ◌∷◌, ◌<◌, ◌≤◌, [], IfErr, IfOk, IsOk, OnErr, OnOk, if◌then◌else◌, drop, is_ok, length, option_copied, option_to_list, slice_get, slice_index_or, take, vec_capacity, vec_len, Some};
ghost use Rattle.std.specs.Fn.{CalledAt};
ghost use Rattle.std.specs.List.{insert, remove};
ghost use Rattle.std.specs.List.Retain.{IsFiltered};

use std::alloc::{AllocError, AllocFailed, Global};

/// A list whose items lie side by side. A removal moves the items before it or those behind it, whichever are fewer.
#[derive(Debug, Drop)]
pub struct SliceDeque<T> {
    // The items, behind those that have left at the front.
    list: Vec<T>,
    // Where the first item is: 0 if there are none, so that the last of `list` is an item.
    start: usize,
    ghost live: { start ≤ vec_len list - 1 },
}

impl<T: Copy> SliceDeque<T> {
    ghost use Rattle.vt_deque.specs.SliceDeque.{items, room};

    /// An empty list, with room for so many items.
    pub fn with_capacity(alloc: Global, capacity: usize) -> Result<Self, AllocError>
        ensures items { IfOk result (λ deque. items deque ≡ []) }
        ensures room { IfOk result (λ deque. capacity ≤ room deque) }
    {
        let list = Vec::with_capacity(alloc, capacity)?;
        Ok(SliceDeque { list, start: 0 })
    }

    /// The items, in order.
    #[inline(always)]
    pub fn as_slice(&self) -> &[T]
        ensures { result.now ≡ items self.now }
    {
        &self.list[self.start..]
    }

    /// How many items there are.
    #[inline(always)]
    pub fn len(&self) -> usize
        ensures { result ≡ length (items self.now) }
    {
        self.list.len() - self.start
    }

    /// Whether there are no items.
    #[inline(always)]
    pub fn is_empty(&self) -> bool
        ensures { result ≡ (length (items self.now) == 0) }
    {
        self.list.is_empty()
    }

    /// The last item, if there is one.
    #[inline(always)]
    pub fn last(&self) -> Option<&T>
        ensures { option_copied result ≡ slice_get (items self.now) (length (items self.now) - 1) }
    {
        self.list.last()
    }

    /// Makes room for so many more items. It may move all of them, but what that costs is constant on average, for each
    /// item that is put in.
    #[inline]
    pub fn reserve(&mut self, additional: usize) -> Result<(), AllocError>
        ensures items { items self.new ≡ items self.old }
        ensures ok { OnOk result (additional ≤ room self.new) }
        ensures room { room self.old ≤ room self.new }
        ensures succeeds { additional ≤ room self.old → IsOk result }
    {
        if additional <= self.list.capacity() - self.list.len() {
            return Ok(());
        }
        self.grow(additional)
    }

    // Makes room where there is too little of it.
    #[cold]
    #[inline(never)]
    fn grow(&mut self, additional: usize) -> Result<(), AllocError>
        ensures items { items self.new ≡ items self.old }
        ensures ok { OnOk result (additional ≤ room self.new) }
        ensures room { room self.old ≤ room self.new }
    {
        // It moves no more items than have left, and memory stays within twice what the items need.
        if self.len() <= self.start {
            self.drop_front();
        }
        self.list.reserve(additional)
    }

    // Moves the items to the front.
    fn drop_front(&mut self)
        ensures items { items self.new ≡ items self.old }
        ensures start { self.new.start ≡ 0 }
        ensures room { room self.old ≤ room self.new }
    {
        let len = self.len();
        self.list.copy_within(self.start.., 0);
        self.list.truncate(len);
        self.start = 0;
    }

    /// Puts an item behind the others.
    #[inline]
    pub fn push(&mut self, one: T) -> Result<(), AllocFailed<T>>
        ensures items { items self.new ≡ (if is_ok result then items self.old ++ one ∷ [] else items self.old) }
        ensures value_returned { IfErr result (λ refused. refused.value ≡ one) }
        ensures room { room self.old ≤ room self.new + 1 }
        ensures succeeds { 0 < room self.old → IsOk result }
    {
        self.list.push(one)
    }

    /// Puts an item at a place, before the one that is there.
    pub fn insert(&mut self, place: usize, one: T) -> Result<(), AllocFailed<T>>
        requires { place ≤ length (items self.old) }
        ensures items { items self.new ≡ (if is_ok result then insert (items self.old) place one else items self.old) }
        ensures value_returned { IfErr result (λ refused. refused.value ≡ one) }
        ensures room { room self.old ≤ room self.new + 1 }
        ensures succeeds { 0 < room self.old → IsOk result }
    {
        self.list.insert(self.start + place, one)
    }

    /// Removes the last item, if there is one.
    #[inline]
    pub fn pop(&mut self) -> Option<T>
        ensures items { items self.old ≡ items self.new ++ option_to_list result }
        ensures rest { items self.new ≡ take (length (items self.old) - 1) (items self.old) }
        ensures value { (d : T) → 0 < length (items self.old)
            → result ≡ Some (slice_index_or (items self.old) (length (items self.old) - 1) d) }
        ensures room { room self.old ≤ room self.new }
    {
        let last = self.list.pop();
        self.start = drop_dead(&mut self.list, self.start);
        last
    }

    /// Removes the item at a place.
    pub fn remove(&mut self, place: usize) -> T
        requires { place < length (items self.old) }
        ensures value { result ≡ slice_index_or (items self.old) place result }
        ensures items { items self.new ≡ remove (items self.old) place }
        ensures room { room self.old ≤ room self.new }
    {
        if place < self.len() - place {
            self.remove_in_front(place)
        } else {
            self.list.remove(self.start + place)
        }
    }

    /// Removes the items that a test refuses, each of which it is asked once, in order.
    pub fn retain<F: FnMut(&T) -> bool>(&mut self, test: F)
        requires { F.IsAlwaysCallable test }
        ensures { IsFiltered (CalledAt F.FnMut) test (items self.old) (items self.new) }
    {
        self.drop_front();
        self.list.retain(test);
    }

    // Removes the item at a place, and moves those before it.
    fn remove_in_front(&mut self, place: usize) -> T
        requires { place < length (items self.old) }
        ensures value { result ≡ slice_index_or (items self.old) place result }
        ensures items { items self.new ≡ remove (items self.old) place }
        ensures room { room self.old ≤ room self.new }
    {
        let at = self.start + place;
        let one = self.list[at];
        self.list.copy_within(self.start..at, self.start + 1);
        self.start = drop_dead(&mut self.list, self.start + 1);
        one
    }
}

// Drops the items that have left, if no others are there. Returns where the first item is from then on.
#[inline(always)]
fn drop_dead<T: Copy>(list: &mut Vec<T>, start: usize) -> usize
    requires { start ≤ vec_len list.old }
    ensures live { result ≤ vec_len list.new - 1 }
    ensures items { drop result list.new.items ≡ drop start list.old.items }
    ensures len { vec_len list.new ≤ vec_len list.old }
    ensures capacity { vec_capacity list.new ≡ vec_capacity list.old }
{
    if start < list.len() {
        return start;
    }
    list.clear();
    0
}
