//! Lists in the order of their elements.
#![tactic(auto, unfolding(crate::specs::Rising::held))]

ghost use Rattle.std.specs.Prelude.{Bool, None, Some, ◌≡◌, ◌==◌, ◌+◌, ◌-◌, ◌++◌, ◌∷◌, ◌<◌, ◌≤◌, [], IfOk, IsTrue, OnErr, OnOk, false, filter, length, not, option_to_list, slice_index_or, true};
ghost use Rattle.vt_deque.specs.SliceDeque.{items, room};
ghost use Rattle.vt_mount.specs.Rising.{HasRoom, IsOrder, held, inserted, precedes, rises};
ghost use Rattle.vt_mount.specs.Orders.{numbers_order};

use std::alloc::{AllocError, Global};
use std::slice;
use vt_deque::SliceDeque;
use vt_location::MountId;

/// Elements of which one comes before the other, unless they are equal.
pub(crate) trait Ordered: Eq + Copy + Drop {
    /// Whether one comes before another.
    ghost before: { Self → Self → Bool };

    /// Whether this one comes before that one.
    fn is_before(&self, other: &Self) -> bool
        ensures { result ≡ before self.now other.now };

    /// A list of this one alone.
    fn alone(&self) -> &[Self]
        ensures { result.now ≡ self.now ∷ [] };

    ghost order: { IsOrder before Self.eq };
}

impl Ordered for MountId {
    ghost before = { precedes };

    #[inline(always)]
    fn is_before(&self, other: &MountId) -> bool {
        self.count < other.count
    }

    #[inline(always)]
    fn alone(&self) -> &[MountId] {
        slice::from_ref(self)
    }

    ghost order = { numbers_order };
}

// For how many a list has room when it is made.
const FIRST_ROOM: usize = 32;

/// Elements in ascending order, so that one is found by a binary search. A single one needs no allocation.
#[derive(Debug, Drop)]
pub(crate) struct Ascending<T: Ordered> {
    one: Option<T>,
    // All, from when there were two or room for two.
    many: Option<SliceDeque<T>>,
    // For how many more there is room.
    reserved: usize,
    ghost rising: { IsTrue (rises T.before (held one many)) },
    ghost room: { HasRoom one many reserved },
}

impl<T: Ordered> Ascending<T> {
    /// No elements.
    pub(crate) fn new() -> Self
        ensures items { held result.one result.many ≡ [] }
        ensures reserved { result.reserved ≡ 0 }
    {
        Ascending {
            one: None,
            many: None,
            reserved: 0,
        }
    }

    /// A single element. It does not allocate.
    pub(crate) fn of(element: T) -> Self
        ensures { held result.one result.many ≡ element ∷ [] }
    {
        Ascending {
            one: Some(element),
            many: None,
            reserved: 0,
        }
    }

    /// The elements, in order.
    pub(crate) fn as_slice(&self) -> &[T]
        ensures value { result.now ≡ held self.now.one self.now.many }
        ensures rising { rises T.before result.now ≡ true }
    {
        match (&self.many, &self.one) {
            (Some(list), _) => list.as_slice(),
            (None, Some(one)) => one.alone(),
            (None, None) => &[],
        }
    }

    /// Whether there are none.
    pub(crate) fn is_empty(&self) -> bool
        ensures { result ≡ (length (held self.now.one self.now.many) == 0) }
    {
        match &self.many {
            Some(list) => list.is_empty(),
            None => self.one.is_none(),
        }
    }

    /// Reserves room for one more, beside the room that is reserved already.
    #[inline(always)]
    pub(crate) fn reserve_one(&mut self, alloc: Global) -> Result<(), AllocError>
        ensures same { held self.new.one self.new.many ≡ held self.old.one self.old.many }
        ensures ok { OnOk result (self.new.reserved ≡ self.old.reserved + 1) }
    {
        self.make_room(alloc)?;
        self.reserved += 1;
        Ok(())
    }

    // Makes room for one more.
    fn make_room(&mut self, alloc: Global) -> Result<(), AllocError>
        ensures same { held self.new.one self.new.many ≡ held self.old.one self.old.many }
        ensures reserved { self.new.reserved ≡ self.old.reserved }
        ensures ok { OnOk result (HasRoom self.new.one self.new.many (self.old.reserved + 1)) }
    {
        let Some(list) = &mut self.many else {
            return self.spread(alloc);
        };
        list.reserve(self.reserved + 1)
    }

    // Makes room for one more where no list was needed up to now.
    fn spread(&mut self, alloc: Global) -> Result<(), AllocError>
        requires { self.old.many ≡ None }
        ensures same { held self.new.one self.new.many ≡ held self.old.one self.old.many }
        ensures reserved { self.new.reserved ≡ self.old.reserved }
        ensures ok { OnOk result (HasRoom self.new.one self.new.many (self.old.reserved + 1)) }
    {
        if self.reserved == 0 && self.one.is_none() {
            return Ok(());
        }
        let list = list_of(alloc, self.one, self.reserved + 1)?;
        self.many = Some(list);
        Ok(())
    }

    /// Adds one.
    pub(crate) fn add(&mut self, alloc: Global, element: T) -> Result<(), AllocError>
        ensures ok { OnOk result (held self.new.one self.new.many ≡ inserted T.before element (held self.old.one self.old.many)) }
        ensures err { OnErr result (held self.new.one self.new.many ≡ held self.old.one self.old.many) }
    {
        self.reserve_one(alloc)?;
        self.insert(element);
        Ok(())
    }

    /// Inserts one, for which room is reserved. It does not allocate.
    #[inline(always)]
    pub(crate) fn insert(&mut self, element: T)
        requires { 0 < self.old.reserved }
        ensures items { held self.new.one self.new.many ≡ inserted T.before element (held self.old.one self.old.many) }
        ensures reserved { self.new.reserved + 1 ≡ self.old.reserved }
    {
        self.reserved -= 1;
        let Some(list) = &mut self.many else {
            self.one = Some(element);
            return;
        };
        insert_into(list, element);
    }

    /// Gives up the room that is reserved.
    pub(crate) fn release(&mut self)
        ensures { held self.new.one self.new.many ≡ held self.old.one self.old.many }
    {
        self.reserved = 0;
    }

    /// Removes one. It does not allocate.
    #[inline]
    pub(crate) fn remove(&mut self, element: T)
        ensures items { held self.new.one self.new.many ≡ filter (λ other. not (T.eq other element)) (held self.old.one self.old.many) }
        ensures reserved { self.new.reserved ≡ self.old.reserved }
    {
        let Some(list) = &mut self.many else {
            if self.one == Some(element) {
                self.one = None;
            }
            return;
        };
        remove_from(list, element);
    }
}

// A list of one element, if any, with room for so many more.
fn list_of<T: Ordered>(
    alloc: Global,
    one: Option<T>,
    more: usize,
) -> Result<SliceDeque<T>, AllocError>
    requires { more < 3 }
    ensures items { IfOk result (λ list. items list ≡ option_to_list one) }
    ensures room { IfOk result (λ list. more ≤ room list) }
{
    let mut list = SliceDeque::with_capacity(alloc, FIRST_ROOM)?;
    let Some(element) = one else {
        return Ok(list);
    };
    list.push(element)?;
    Ok(list)
}

// Inserts one into a list in which there is room.
fn insert_into<T: Ordered>(list: &mut SliceDeque<T>, element: T)
    requires rising { rises T.before (items list.old) ≡ true }
    requires room { 0 < room list.old }
    ensures items { items list.new ≡ inserted T.before element (items list.old) }
    ensures room { room list.old ≤ room list.new + 1 }
{
    // Neither fails: there is room. Mostly it comes after all others.
    if goes_last(list, element) {
        let _ = list.push(element);
    } else {
        let place = list
            .as_slice()
            .partition_point(|other| !element.is_before(other));
        let _ = list.insert(place, element);
    }
}

// Whether an element comes before none of a list.
fn goes_last<T: Ordered>(list: &SliceDeque<T>, element: T) -> bool
    requires { rises T.before (items list.now) ≡ true }
    ensures { result ≡ true → inserted T.before element (items list.now) ≡ items list.now ++ element ∷ [] }
{
    match list.last() {
        Some(last) => !element.is_before(last),
        None => true,
    }
}

// Removes one from a list. Mostly it is the last. It is a call of its own, so that `remove` of a single one stays small.
#[inline(never)]
fn remove_from<T: Ordered>(list: &mut SliceDeque<T>, element: T)
    requires { rises T.before (items list.old) ≡ true }
    ensures items { items list.new ≡ filter (λ other. not (T.eq other element)) (items list.old) }
    ensures rising { rises T.before (items list.new) ≡ true }
    ensures room { room list.old ≤ room list.new }
{
    pop_if_last(list, element);
    if reaches(list, element) {
        remove_within(list, element);
    }
}

// Removes the last of a list, if it is this one.
fn pop_if_last<T: Ordered>(list: &mut SliceDeque<T>, element: T)
    requires { rises T.before (items list.old) ≡ true }
    ensures others { filter (λ other. not (T.eq other element)) (items list.new)
        ≡ filter (λ other. not (T.eq other element)) (items list.old) }
    ensures rising { rises T.before (items list.new) ≡ true }
    ensures room { room list.old ≤ room list.new }
{
    if ends_with(list, element) {
        list.pop();
    }
}

// Whether an element is the last of a list.
fn ends_with<T: Ordered>(list: &SliceDeque<T>, element: T) -> bool
    ensures inside { result ≡ true → 0 < length (items list.now) }
    ensures last { result ≡ true
        → (d : T) → T.eq (slice_index_or (items list.now) (length (items list.now) - 1) d) element ≡ true }
{
    match list.last() {
        Some(last) => *last == element,
        None => false,
    }
}

// Whether the last of a list is this element, or one behind it.
fn reaches<T: Ordered>(list: &SliceDeque<T>, element: T) -> bool
    requires { rises T.before (items list.now) ≡ true }
    ensures { result ≡ false → filter (λ other. not (T.eq other element)) (items list.now) ≡ items list.now }
{
    match list.last() {
        Some(last) => !last.is_before(&element),
        None => false,
    }
}

// Removes one from a list, wherever it is. It is a call of its own, so that `remove_from` stays small.
#[inline(never)]
fn remove_within<T: Ordered>(list: &mut SliceDeque<T>, element: T)
    requires { rises T.before (items list.old) ≡ true }
    ensures items { items list.new ≡ filter (λ other. not (T.eq other element)) (items list.old) }
    ensures rising { rises T.before (items list.new) ≡ true }
    ensures room { room list.old ≤ room list.new }
{
    let place = list
        .as_slice()
        .partition_point(|other| other.is_before(&element));
    while is_at(list.as_slice(), place, element) {
        list.remove(place);
    }
}

// Whether an element is the one at a place of a list.
fn is_at<T: Ordered>(list: &[T], place: usize, element: T) -> bool
    ensures within { result ≡ true → place < length list.now }
    ensures found { (d : T) → place < length list.now → result ≡ T.eq (slice_index_or list.now place d) element }
{
    match list.get(place) {
        Some(other) => *other == element,
        None => false,
    }
}
