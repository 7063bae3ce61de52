//! Tasks enter namespaces: setns(2).
ghost use Rattle.std.specs.Prelude.{◌≡◌, IsOk, OnErr, OnOk, option_map};
ghost use Rattle.vt_location.specs.Locations.{location_of};
ghost use Rattle.vt_location.specs.Numbers.{namespace_number};
ghost use Rattle.vt_mount.specs.MountsValue.{mounts_in};
ghost use Rattle.vt_spec.specs.Machine.Permits.Permit.{ToEnterNamespace};
ghost use Rattle.vt_ns.specs.Entering.{HasRoomToEnter, namespace_root};
ghost use Rattle.vt_mounting.specs.Detach.Events.{Becomes, Permits};
ghost use Rattle.vt_ns.specs.Counting.{CountsNothing};

use crate::forking::{count_task, has_room, has_room_for_task, hold_once_more};
use crate::world::World;
use std::alloc::AllocError;
use vt_location::{Location, NamespaceId};
use vt_mount::Mounts;
use vt_mounting::detach::ending::leave_namespace;
use vt_mounting::detach::uses::leave;
use vt_request::TaskName;

impl World {
    /// Moves a task to a namespace, with its root and its working directory at the root of that one: setns(2). The
    /// namespace that it leaves ends with its last task.
    ///
    /// It does not allocate: an error says that the root or the namespace has 2^64 - 2 uses.
    pub fn enter_namespace(
        &mut self,
        name: &TaskName,
        namespace: NamespaceId,
    ) -> Result<(), AllocError>
        requires { Permits self.old name.now (ToEnterNamespace (namespace_number namespace)) }
        ensures ok { OnOk result (Becomes self.old name.now (ToEnterNamespace (namespace_number namespace)) self.new) }
        ensures room { HasRoomToEnter self.old namespace.count → IsOk result }
        ensures counts { OnOk result (CountsNothing self.old self.new) }
        ensures err { OnErr result (self.new ≡ self.old) }
    {
        let root = namespace_root(&self.mounts, namespace).unwrap();
        if !has_room(2, &self.mounts, &self.store, root)
            || !has_room_for_task(&self.namespaces, namespace)
        {
            return Err(AllocError);
        }
        let mounts = &mut self.mounts;
        let store = &mut self.store;
        hold_once_more(mounts, store, root, false);
        hold_once_more(mounts, store, root, false);
        count_task(&mut self.namespaces, namespace);
        if let Some(left) = self.tasks.enter(name, namespace, root) {
            leave(mounts, store, left.root, false);
            leave(mounts, store, left.directory, false);
            let groups = &mut self.groups;
            leave_namespace(mounts, groups, store, &mut self.namespaces, left.namespace);
        }
        Ok(())
    }
}

// The root of the topmost mount over the root of a namespace's root mount.
fn namespace_root(mounts: &Mounts, namespace: NamespaceId) -> Option<Location>
    ensures { option_map location_of result ≡ namespace_root (namespace_number namespace) (mounts_in mounts.now) }
{
    for id in mounts.attached_in(namespace) {
        let number = *id;
        if let Some(mount) = mounts.get(number) {
            if mount.mount_point.is_none() {
                return Some(mounts.topmost(mount.root_location()));
            }
        }
    }
    None
}
