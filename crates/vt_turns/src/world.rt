//! The trait `TakesTurns`.
ghost use Rattle.std.specs.Prelude.{◌≡◌, IfErr, IfOk, ℕ, nat_eq};
ghost use Rattle.vt_spec.specs.declared.errors.Rule.TheVariants.{S5};
ghost use Rattle.vt_spec.specs.Errors.{denial};
ghost use Rattle.vt_spec.specs.Machine.Turns.{filesystem_change_of};
ghost use Rattle.vt_spec.specs.Machine.World.{World};
ghost use Rattle.vt_location.specs.Numbers.{filesystem_number};
ghost use Rattle.vt_request.specs.Requests.{call_of, directive_of};
ghost use Rattle.vt_answers.specs.Counters.{Counters, CountsFew, opening_counters};
ghost use Rattle.vt_answers.specs.Ends.{Directs};
ghost use Rattle.vt_answers.specs.Numbers.{IsOpened};
ghost use Rattle.vt_turns.specs.Ends.{EndsDated, IsReady};
ghost use Rattle.vt_turns.specs.Going.{AreWords, call_begins, numbers_in};
ghost use Rattle.vt_turns.specs.ProgressValue.{words_meant};

use crate::progress::Numbers;
use std::alloc::{AllocError, Global};
use vt_location::FilesystemId;
use vt_request::{Answer, Call, Directive, TaskName};
use vt_spec::errors::Deny;

/// A world with change numbers, whose tasks make calls in turns.
pub trait TakesTurns {
    // the world that the definitions see, with all change numbers
    ghost world: { Self → World ℕ };

    // how many numbers were given out, and tasks born
    ghost counters: { Self → Counters };

    /// The world before the first call.
    ///
    /// S5 (ENOMEM): an allocation failed.
    fn opening(alloc: Global) -> Result<Self, Deny>
        ensures opened { IfOk result (λ opened. IsOpened (world opened)) }
        ensures ready { IfOk result (λ opened. IsReady (world opened)) }
        ensures counts { IfOk result (λ opened. counters opened ≡ opening_counters) }
        ensures memory { IfErr result (λ deny. deny ≡ denial S5) };

    /// What allocates for the world.
    fn alloc(&self) -> Global;

    /// Does a call of a task, or refuses it by the first rule that fails and changes nothing.
    ///
    /// S2 (ESRCH): there is no such task. S5 (ENOMEM): an allocation failed, or a count of uses is full. The other
    /// rules are those of the call, in its order.
    fn call(&mut self, name: &TaskName, call: Call<'_>) -> Result<Answer, Deny>
        ensures ends { EndsDated world self.old name.now (call_of call.entry) result self.new }
        ensures counts { CountsFew (counters self.old) (counters self.new) };

    /// What a directive tells. It is nobody's call, and changes nothing.
    ///
    /// S2 (ESRCH): it names a task that does not exist. S5 (ENOMEM): an allocation failed; a list alone takes memory.
    fn direct(&self, directive: &Directive) -> Result<Answer, Deny>
        ensures { Directs (world self.now) (directive_of directive.now) result };

    /// The change numbers of a task and of its namespace, if the task exists.
    fn numbers_of(&self, name: &TaskName) -> Option<Numbers>
        ensures { result ≡ numbers_in (world self.now) name.now };

    /// The change number of a filesystem; where there is none, the largest one.
    fn change_of(&self, filesystem: FilesystemId) -> u64
        ensures { result ≡ filesystem_change_of nat_eq (world self.now) (filesystem_number filesystem) };

    /// Whether the rules that the first turn of a task's call checks let it pass; `false` where there is no such task.
    fn may_begin(&self, name: &TaskName, call: &Call<'_>) -> bool
        ensures { result ≡ call_begins (world self.now) name.now (call_of call.now) };

    /// For each word of a task's call, the filesystems that it meets. The last is not among them if its step fails: the
    /// call's last turn walks it. There are none where there is no such task.
    fn words(&self, name: &TaskName, call: &Call<'_>) -> Result<Vec<Vec<FilesystemId>>, AllocError>
        ensures { IfOk result (λ words. AreWords (world self.now) name.now (call_of call.now) (words_meant words)) };

    /// Frees the world.
    fn end(self);
}
