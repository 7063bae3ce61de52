//! The trait `Calls`.
ghost use Rattle.std.specs.Prelude.{◌≡◌, IfErr, IfOk, OnOk, ℕ};
ghost use Rattle.vt_spec.specs.declared.errors.Rule.TheVariants.{S5};
ghost use Rattle.vt_spec.specs.Errors.{denial};
ghost use Rattle.vt_spec.specs.Machine.World.{World};
ghost use Rattle.vt_request.specs.Requests.{call_of, directive_of};
ghost use Rattle.vt_answers.specs.Counters.{Counters, CountsFew, opening_counters};
ghost use Rattle.vt_answers.specs.Ends.{Directs, Ends, change_after};
ghost use Rattle.vt_answers.specs.Numbers.{IsOpened};

use std::alloc::Global;
use vt_request::{Answer, Call, Directive, TaskName};
use vt_spec::errors::Deny;

/// A world whose tasks make calls, and of which directives ask.
pub trait Calls {
    // the world that the definitions see
    ghost world: { Self → World ℕ };

    // how many numbers were given out, and tasks born
    ghost counters: { Self → Counters };

    /// The world before the first call.
    ///
    /// S5 (ENOMEM): an allocation failed.
    fn opening(alloc: Global) -> Result<Self, Deny>
        ensures opened { IfOk result (λ opened. IsOpened (world opened)) }
        ensures counts { IfOk result (λ opened. counters opened ≡ opening_counters) }
        ensures memory { IfErr result (λ deny. deny ≡ denial S5) };

    /// Does a call of a task, or refuses it by the first rule that fails and changes nothing.
    ///
    /// S2 (ESRCH): there is no such task. S5 (ENOMEM): an allocation failed, a count of uses is full, or the call would
    /// mount an overlay with an upper layer, which the grammar of scripts does not have yet. The other rules are those of
    /// the call, in its order.
    fn call(&mut self, name: &TaskName, call: Call<'_>) -> Result<Answer, Deny>
        ensures ends { Ends world self.old name.now (call_of call.entry) result self.new }
        ensures change { OnOk result
            ((world self.new).change ≡ change_after (call_of call.entry) (world self.old).change) }
        ensures counts { CountsFew (counters self.old) (counters self.new) };

    /// What a directive tells. It is nobody's call, and changes nothing.
    ///
    /// S2 (ESRCH): it names a task that does not exist. S5 (ENOMEM): an allocation failed; a list alone takes memory.
    fn direct(&self, directive: &Directive) -> Result<Answer, Deny>
        ensures { Directs (world self.now) (directive_of directive.now) result };

    /// Frees the world. Crates above end worlds by this call, so that one crate proves the drop of a world.
    fn end(self);

    /// Forgets the world without freeing it: the system frees it faster where the program is about to end.
    fn forget(self);
}
