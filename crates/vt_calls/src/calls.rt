//! The calls of tasks.
ghost use Rattle.std.specs.Prelude.{◌≡◌, ◌≤◌, Err, IfErr, IfOk, length};
ghost use Rattle.vt_request.specs.Requests.{call_of, directive_of};
ghost use Rattle.vt_answers.specs.Counters.{CountsFew};
ghost use Rattle.vt_answers.specs.Ends.{Directs, change_after};
ghost use Rattle.vt_world.specs.Held.{IsHeld};
ghost use Rattle.vt_world.specs.WorldValue.{world_of};
ghost use Rattle.vt_calls.specs.Counting.{counters_of, kernel_counters};
ghost use Rattle.vt_calls.specs.KernelValue.{kernel_world};
ghost use Rattle.vt_calls.specs.Meets.{Ends};
ghost use Rattle.vt_calls.specs.Permitted.{IsPermitted};

mod steps;

use crate::applying::apply;
use std::alloc::Global;
use std::marker::Model;
use std::mem;
use vt_answers::Calls;
use vt_ns::World;
use vt_policy::{Permit, judge};
use vt_request::{Answer, Call, Directive, TaskName};
use vt_spec::errors::{Deny, Rule};

/// A world that answers calls, and its change number.
#[derive(Debug, Drop)]
pub struct Kernel {
    world: World,
    change: u64,
}

impl Model for Kernel {
    ghost use Rattle.vt_calls.specs.KernelValue.{KernelValue};

    ghost Value = { KernelValue };

    ghost view = { λ kernel. record { world = kernel.world; change = kernel.change } };
}

impl Kernel {
    /// The world as it is now, to look at.
    pub fn world(&self) -> &World
        ensures { result.now ≡ self.now.world }
    {
        &self.world
    }
}

impl Calls for Kernel {
    ghost world = { kernel_world };

    ghost counters = { kernel_counters };

    fn opening(alloc: Global) -> Result<Kernel, Deny> {
        Ok(Kernel {
            world: World::new(alloc)?,
            change: 0,
        })
    }

    #[inline(always)]
    fn call(&mut self, name: &TaskName, call: Call<'_>) -> Result<Answer, Deny> {
        let after = change_after(&call, self.change);
        // By `?` the answer would be moved more often.
        let answer = judged_call(&mut self.world, self.change, name, call);
        if answer.is_ok() {
            self.change = after;
            return answer;
        }
        answer
    }

    fn direct(&self, directive: &Directive) -> Result<Answer, Deny> {
        directed(&self.world, directive)
    }

    fn end(self) {}

    fn forget(self) {
        mem::forget(self);
    }
}

// What a directive tells of a world.
fn directed(world: &World, directive: &Directive) -> Result<Answer, Deny>
    ensures { Directs (world_of world.now) (directive_of directive.now) result }
{
    match directive {
        Directive::Peers => Ok(Answer::PeerList(world.peers()?)),
        Directive::Sealed { tasks } => Ok(Answer::YesNo(world.sealed(tasks)?)),
    }
}

// The world's change number once a call has succeeded; the largest one stays.
fn change_after(call: &Call<'_>, change: u64) -> u64
    ensures { result ≡ change_after (call_of call.now) change }
{
    if call.only_looks() || change == u64::MAX {
        return change;
    }
    change + 1
}

// Judges a call in the world of this change number, and spends its permit.
#[inline(always)]
fn judged_call(
    world: &mut World,
    change: u64,
    name: &TaskName,
    call: Call<'_>,
) -> Result<Answer, Deny>
    ensures ends { Ends world.old name.now (call_of call.entry) result world.new }
    ensures counts { CountsFew (counters_of world.old) (counters_of world.new) }
    ensures held { IsHeld world.old }
{
    match permit_of(world, change, name, call) {
        Ok(permit) => apply(world, change, name, permit),
        Err(deny) => Err(deny),
    }
}

// The permit of a call in the world of this change number. S2 (ESRCH): there is no such task. The other rules are those
// of the call.
#[inline(always)]
fn permit_of(world: &World, change: u64, name: &TaskName, call: Call<'_>) -> Result<Permit, Deny>
    ensures ok { IfOk result (λ permit. IsPermitted world.now change name.now (call_of call.entry) permit) }
    ensures err { IfErr result (λ deny. Ends world.now name.now (call_of call.entry) (Err deny) world.now) }
    ensures held { IsHeld world.now }
    ensures born { length world.now.tasks ≤ world.now.births }
{
    let Some(task) = world.task(name) else {
        return Err(Rule::S2.denial());
    };
    judge(world.alloc(), world, change, task, call)
}
