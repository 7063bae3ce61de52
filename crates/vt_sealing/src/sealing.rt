//! `Sealing`: what is looked at to tell whether tasks are sealed off.
ghost use Rattle.std.specs.List.{list_any};
ghost use Rattle.std.specs.Prelude.{◌≡◌, ◌↔◌, ◌&&◌, false, nat_eq, ℕ, IfErr, IfOk, IsOk};
ghost use Rattle.vt_spec.specs.declared.errors.Rule.TheVariants.{S2};
ghost use Rattle.vt_spec.specs.Errors.{denial};
ghost use Rattle.vt_spec.specs.Machine.Sealed.{holds_all_tasks, no_outsider_on_mounts, no_such_task, sealed, shares_no_events};
ghost use Rattle.vt_spec.specs.Machine.World.{World};
ghost use Rattle.vt_store.specs.StoreValue.{StandOnLayers};
ghost use Rattle.vt_sealing.specs.Seen.{IsShown, world_seen};

use vt_group::Groups;
use vt_mount::Mounts;
use vt_request::TaskName;
use vt_spec::errors::{Deny, Rule};
use vt_store::Store;
use vt_tasks::Tasks;

/// The names of tasks, the members, and all tasks, mounts, peer groups and filesystems. The other tasks are outsiders.
#[derive(Clone, Copy)]
pub struct Sealing<'a> {
    pub names: &'a [TaskName],
    pub tasks: &'a Tasks,
    pub mounts: &'a Mounts,
    pub groups: &'a Groups,
    pub store: &'a Store,
}

impl Sealing<'_> {
    /// Whether the members are sealed off. Overlays must stand on layers that are there, as in every world. It does not
    /// allocate.
    ///
    /// S2 (ESRCH): there is no task of one of the names.
    pub fn answer(&self) -> Result<bool, Deny>
        requires { StandOnLayers self.now.store.now }
        ensures ok { (world : World ℕ) → IsShown world self.now
            → IfOk result (λ is_sealed. is_sealed ≡ sealed nat_eq world self.now.names.now) }
        ensures err { IfErr result (λ deny. deny ≡ denial S2) }
        ensures there { (world : World ℕ) → IsShown world self.now
            → IsOk result ↔ (list_any (no_such_task world) self.now.names.now ≡ false) }
    {
        if self.lacks_a_member() {
            return Err(Rule::S2.denial());
        }
        Ok(self.is_sealed())
    }

    // Whether the members are sealed off.
    fn is_sealed(&self) -> bool
        requires { StandOnLayers self.now.store.now }
        ensures { (world : World ℕ) → IsShown world self.now → result ≡ sealed nat_eq world self.now.names.now }
    {
        self.are_mounts_apart() && self.has_no_open_filesystem()
    }

    // Whether no outsider is in a namespace of members, or on a mount there, and these mounts share no events with
    // others.
    fn are_mounts_apart(&self) -> bool
        ensures { result ≡ (holds_all_tasks nat_eq (world_seen self.now) self.now.names.now
            && shares_no_events nat_eq (world_seen self.now) self.now.names.now
            && no_outsider_on_mounts nat_eq (world_seen self.now) self.now.names.now) }
    {
        self.are_namespaces_apart() && self.no_outsider_on_mounts()
    }

    // Whether no outsider is in a namespace of members, and the mounts there share no events with others.
    fn are_namespaces_apart(&self) -> bool
        ensures { result ≡ (holds_all_tasks nat_eq (world_seen self.now) self.now.names.now
            && shares_no_events nat_eq (world_seen self.now) self.now.names.now) }
    {
        self.holds_all_tasks() && self.shares_no_events()
    }
}
