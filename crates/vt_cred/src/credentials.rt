//! What a task acts as: credentials(7).
ghost use Rattle.std.specs.Prelude.{◌≡◌, ◌≤◌, ◌↔◌, [], length, vec_len, IsTrue, IfOk};
ghost use Rattle.vt_spec.specs.Rights.{has_all, is_member, without, all_capabilities};
ghost use Rattle.vt_cred.specs.Caps.{capability_bits};
ghost use Rattle.vt_cred.specs.Access.{HasCapability, IsInGroup, IsWithout};

use crate::capabilities::Caps;
use bitflags::Flags;
use std::alloc::{AllocError, Global};
use std::marker::Model;

/// The most groups that a task has beside its own.
pub const MAX_GROUPS: usize = 32;

/// What a task acts as: its user, its group, its supplementary groups and its capabilities.
#[derive(Debug, Drop)]
pub struct Cred {
    uid: u32,
    gid: u32,
    groups: Vec<u32>,
    caps: Caps,
}

impl Model for Cred {
    ghost use Rattle.std.specs.Prelude.{◌≤◌, vec_len};
    ghost use Rattle.vt_spec.specs.Rights.{Credentials};
    ghost use Rattle.vt_cred.specs.Caps.{capability_bits};
    ghost use Rattle.vt_cred.specs.declared.credentials.TheConstants.{MAX_GROUPS};

    ghost Value = { Credentials };

    ghost view = { λ cred. record {
      uid = cred.uid;
      gid = cred.gid;
      groups = cred.groups.items;
      capabilities = capability_bits cred.caps;
    } };

    ghost invariant = { λ cred. vec_len cred.groups ≤ MAX_GROUPS };
}

impl Clone for Cred {
    ghost is_clone = { λ cred copy. copy ≡ cred };

    fn clone(&self) -> Result<Cred, AllocError> {
        Ok(Cred {
            uid: self.uid,
            gid: self.gid,
            groups: self.groups.clone()?,
            caps: self.caps,
        })
    }
}

impl Cred {
    /// The credentials of these parts.
    pub fn new(uid: u32, gid: u32, groups: Vec<u32>, caps: Caps) -> Self
        requires { vec_len groups ≤ MAX_GROUPS }
        ensures { result
            ≡ record { uid = uid; gid = gid; groups = groups.items; capabilities = capability_bits caps } }
    {
        Cred {
            uid,
            gid,
            groups,
            caps,
        }
    }

    /// User and group 0 with no supplementary groups and all capabilities, as the first task has them.
    pub fn root(alloc: Global) -> Self
        ensures { result ≡ record { uid = 0; gid = 0; groups = []; capabilities = all_capabilities } }
    {
        Cred {
            uid: 0,
            gid: 0,
            groups: Vec::new(alloc),
            caps: Caps::all(),
        }
    }

    /// The user.
    pub fn uid(&self) -> u32
        ensures { result ≡ self.now.uid }
    {
        self.uid
    }

    /// The task's own group.
    pub fn gid(&self) -> u32
        ensures { result ≡ self.now.gid }
    {
        self.gid
    }

    /// The groups beside the task's own, in the order that they were given.
    pub fn groups(&self) -> &[u32]
        ensures value { result.now ≡ self.now.groups }
        ensures limit { length result.now ≤ MAX_GROUPS }
    {
        &self.groups
    }

    /// The capabilities that are left.
    pub fn caps(&self) -> Caps
        ensures { capability_bits result ≡ self.now.capabilities }
    {
        self.caps
    }

    /// Whether the task has all of these capabilities.
    pub fn has(&self, wanted: Caps) -> bool
        ensures value { result ≡ has_all self.now.capabilities (capability_bits wanted) }
        ensures meaning { IsTrue result ↔ HasCapability self.now (capability_bits wanted) }
    {
        self.caps.contains(wanted)
    }

    /// Whether the group is the task's own, or one of its supplementary groups.
    pub fn is_member(&self, gid: u32) -> bool
        ensures value { result ≡ is_member self.now gid }
        ensures meaning { IsTrue result ↔ IsInGroup self.now gid }
    {
        self.gid == gid || self.groups.contains(&gid)
    }

    /// Drops capabilities for good. One that is not held is no fault.
    pub fn drop_caps(&mut self, dropped: Caps)
        ensures value { self.new
            ≡ record self.old { capabilities = without self.old.capabilities (capability_bits dropped) } }
        ensures meaning { IsWithout self.old.capabilities (capability_bits dropped) self.new.capabilities }
    {
        self.caps = self.caps.without(dropped);
    }
}
