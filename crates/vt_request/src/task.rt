//! The names of tasks.
ghost use Rattle.std.specs.Prelude.{◌≡◌, ◌≤◌, ◌<◌, ◌++◌, ◌∷◌, [], length, nat_eq, All, IfOk, IsOk};
ghost use Rattle.std.specs.Cmp.{partial_equiv_from_equiv};
ghost use Rattle.std.specs.Cmp.Lexicographic.{pointwise, nat_list_eq_equiv};
ghost use Rattle.vt_request.specs.declared.task.TheConstants.{INLINE_NUMBERS};

use smallvec::SmallVec;
use std::alloc::{AllocError, Global};
use std::marker::Model;

/// How many numbers a name may have without allocating. No task has a name of more.
pub const INLINE_NUMBERS: usize = 8;

/// The name of a task: the numbers of its line of descent, each from 1 to 64.
///
/// The first task has none. A name of at most [`INLINE_NUMBERS`] does not allocate.
#[derive(Debug, Drop)]
pub struct TaskName {
    numbers: SmallVec<u8, INLINE_NUMBERS>,
}

impl Model for TaskName {
    ghost use Rattle.std.specs.Prelude.{ℕ, ◌≤◌, List, All};
    ghost use Rattle.vt_request.specs.declared.task.TheConstants.{INLINE_NUMBERS};

    ghost Value = { List ℕ };

    ghost view = { λ name. name.numbers.items };

    ghost invariant = { λ name. All (λ k. (1 ≤ k) × (k ≤ 64)) name.numbers.items
        × (INLINE_NUMBERS ≤ name.numbers.capacity) };
}

impl TaskName {
    /// The first task's name, which has no number.
    pub fn new(alloc: Global) -> Self
        ensures { result ≡ [] }
    {
        TaskName {
            numbers: SmallVec::new(alloc),
        }
    }

    /// The numbers, from the first task's child down.
    pub fn numbers(&self) -> &[u8]
        ensures value { result.now ≡ self.now }
        ensures limits { All (λ k. (1 ≤ k) × (k ≤ 64)) result.now }
    {
        self.numbers.as_slice()
    }

    /// The name of this task's child of a number. Only one of more than [`INLINE_NUMBERS`] can fail.
    #[inline(always)]
    pub fn into_child(mut self, number: u8) -> Result<TaskName, AllocError>
        requires some_child { 1 ≤ number }
        requires limit { number ≤ 64 }
        ensures ok { IfOk result (λ name. name ≡ self ++ number ∷ []) }
        ensures inline { length self < INLINE_NUMBERS → IsOk result }
    {
        self.numbers.push(number)?;
        Ok(self)
    }

    /// The name of this task's child of a number.
    pub fn child(&self, number: u8) -> Result<TaskName, AllocError>
        requires some_child { 1 ≤ number }
        requires limit { number ≤ 64 }
        ensures { IfOk result (λ name. name ≡ self.now ++ number ∷ []) }
    {
        self.clone()?.into_child(number)
    }
}

impl Clone for TaskName {
    ghost is_clone = { λ name copy. copy ≡ name };

    fn clone(&self) -> Result<TaskName, AllocError> {
        let alloc = *self.numbers.allocator();
        Ok(TaskName {
            numbers: SmallVec::from_slice(alloc, self.numbers.as_slice())?,
        })
    }
}

impl PartialEq for TaskName {
    ghost eq = { pointwise nat_eq };

    ghost laws = { partial_equiv_from_equiv nat_list_eq_equiv };

    fn eq(&self, other: &TaskName) -> bool {
        self.numbers() == other.numbers()
    }
}

impl Eq for TaskName {
    ghost laws = { nat_list_eq_equiv };
}
