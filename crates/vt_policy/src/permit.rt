//! Permits: what `judge` hands to a caller to be spent.
ghost use Rattle.std.specs.Prelude.{◌≡◌, nat_eq, IfOk};
ghost use Rattle.vt_spec.specs.Machine.Judge.{judge};
ghost use Rattle.vt_permits.specs.Memory.{JudgesAlike, JudgesByReceivers};
ghost use Rattle.vt_request.specs.Kinds.{kind_of};
ghost use Rattle.vt_request.specs.Requests.{call_of};
ghost use Rattle.vt_tasks.specs.TaskValue.{task_of};
ghost use Rattle.vt_policy.specs.Allocating.{IsJudgedWithMemory};
ghost use Rattle.vt_policy.specs.PermitValue.{grant_in};

use crate::judging::granted;
use std::alloc::Global;
use std::marker::Model;
use vt_layers::LookAtLayers;
use vt_permits::Grant;
use vt_request::{Call, CallKind};
use vt_spec::errors::Deny;
use vt_tasks::Task;

/// What one call is granted, in the world that has this change number. `judge` alone makes one. It is not `Drop`, so
/// whoever has one must spend it.
#[derive(Debug)]
pub struct Permit {
    grant: Grant,
    call: CallKind,
    change: u64,
}

impl Model for Permit {
    ghost use Rattle.vt_policy.specs.PermitValue.{PermitValue};

    ghost Value = { PermitValue };

    ghost view = { λ p. record { grant = p.grant; call = p.call; change = p.change } };
}

impl Permit {
    /// What is granted, to look at.
    pub fn grant(&self) -> &Grant
        ensures { result.now ≡ self.now.grant }
    {
        &self.grant
    }

    /// Spends it in the world of this change number: the grant is to be applied there.
    pub fn spend(self, change: u64) -> Grant
        requires { self.change ≡ change }
        ensures { result ≡ self.grant }
    {
        prove!(self.change == change);
        let Permit {
            grant,
            call: _call,
            change: _change,
        } = self;
        grant
    }
}

/// Judges a call of a task in the world, which has this change number: the permit that it is given, or the first rule
/// that refuses it, in the policy's order. It changes nothing.
///
/// S5 (ENOMEM): an allocation failed, of a call whose judgement allocates. The other rules are those of the call.
pub fn judge<L: LookAtLayers>(
    alloc: Global,
    world: &L,
    change: u64,
    who: &Task,
    call: Call<'_>,
) -> Result<Permit, Deny>
    ensures judged { JudgesByReceivers (call_of call.entry) (task_of who.now)
        (judge nat_eq (L.looks world.now) (L.overfills world.now) (task_of who.now) (call_of call.entry))
        (grant_in result) }
    ensures memory { ¬ IsJudgedWithMemory (call_of call.entry) → JudgesAlike (task_of who.now)
        (judge nat_eq (L.looks world.now) (L.overfills world.now) (task_of who.now) (call_of call.entry))
        (grant_in result) }
    ensures named { IfOk result (λ permit. kind_of (call_of call.entry) ≡ permit.call) }
    ensures change { IfOk result (λ permit. permit.change ≡ change) }
{
    let kind = call.kind();
    match granted(alloc, world, who, call) {
        Ok(grant) => Ok(Permit {
            grant,
            call: kind,
            change,
        }),
        Err(deny) => Err(deny),
    }
}
