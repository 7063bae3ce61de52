//! A call in two steps, for whoever has to prepare for a change that is granted: it is judged, and then its permit is
//! spent or given up.
ghost use Rattle.std.specs.Prelude.{◌≡◌, ◌≤◌, Err, IfErr, IfOk, OnOk, length};
ghost use Rattle.vt_spec.specs.Language.Calls as spec;
ghost use Rattle.vt_spec.specs.Machine.Filesystems.{raised};
ghost use Rattle.vt_request.specs.Requests.{call_of};
ghost use Rattle.vt_answers.specs.Ends.{Ends};
ghost use Rattle.vt_calls.specs.Counting.{CountsForTasks};
ghost use Rattle.vt_calls.specs.KernelValue.{kernel_world};
ghost use Rattle.vt_calls.specs.Permitted.{IsPermitted, MayBeSpent};

use crate::applying::apply;
use crate::calls::{Kernel, permit_of};
use vt_policy::Permit;
use vt_request::{Answer, Call, TaskName};
use vt_spec::errors::Deny;

impl Kernel {
    /// The permit of a call of a task, which is to be spent before the world changes, or given up. It changes nothing.
    ///
    /// S2 (ESRCH): there is no such task. S5 (ENOMEM): an allocation failed. The other rules are those of the call, in
    /// its order.
    pub fn permit(&self, name: &TaskName, call: Call<'_>) -> Result<Permit, Deny>
        ensures ok { IfOk result (λ permit.
            IsPermitted self.now.world self.now.change name.now (call_of call.entry) permit) }
        ensures err { IfErr result (λ deny.
            Ends kernel_world self.now name.now (call_of call.entry) (Err deny) self.now) }
        ensures born { length self.now.world.tasks ≤ self.now.world.births }
    {
        permit_of(&self.world, self.change, name, call)
    }

    /// Spends the permit of a call that does not only look: what it grants is applied, and the world's change number
    /// rises.
    ///
    /// S5 (ENOMEM): an allocation failed, or a count of uses is full; nothing has changed, and the permit is spent.
    pub fn spend(&mut self, name: &TaskName, permit: Permit) -> Result<Answer, Deny>
        requires { MayBeSpent self.old.world self.old.change name.now permit }
        ensures ends { (call : spec.Call) → IsPermitted self.old.world self.old.change name.now call permit
            → Ends kernel_world self.old name.now call result self.new }
        ensures change { OnOk result (self.new.change ≡ raised self.old.change) }
        ensures counts { CountsForTasks self.old.world self.new.world }
    {
        let after = self.change.saturating_add(1);
        let answer = apply(&mut self.world, self.change, name, permit);
        if answer.is_ok() {
            self.change = after;
            return answer;
        }
        answer
    }

    /// Gives up a permit: nothing is changed.
    pub fn give_up(&self, permit: Permit)
        requires { permit.change ≡ self.now.change }
    {
        let _grant = permit.spend(self.change);
    }
}
