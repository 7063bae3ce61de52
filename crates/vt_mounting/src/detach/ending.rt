//! Namespaces that tasks leave, and that end with their last: mount_namespaces(7).
ghost use Rattle.std.specs.Prelude.{◌≡◌};
ghost use Rattle.vt_location.specs.Numbers.{namespace_number};
ghost use Rattle.vt_mounting.specs.Detach.NamespacesLeft.{MountsAreLeft, NamespaceIsLeft, namespace_entry, with_one_task_less};
ghost use Rattle.vt_mounting.specs.Detach.Stored.{CountNoUses, OverlaysLeft, kept};
ghost use Rattle.vt_world.specs.WorldValue.{entries_of};

use crate::detach::detaching::detach;
use indexmap::IndexMap;
use vt_group::Groups;
use vt_location::NamespaceId;
use vt_mount::Mounts;
use vt_retype::leave;
use vt_store::Store;
use vt_world::namespaces::Namespace;

/// One task less of a namespace. With its last it goes, and its mounts are detached: they leave their groups at once,
/// and the slaves of a group that ends get its master. It does not allocate.
pub fn leave_namespace(
    mounts: &mut Mounts,
    groups: &mut Groups,
    store: &mut Store,
    namespaces: &mut IndexMap<NamespaceId, Namespace>,
    id: NamespaceId,
)
    requires { CountNoUses store.old }
    ensures namespaces { entries_of namespaces.new.entries
        ≡ with_one_task_less id.count (entries_of namespaces.old.entries) }
    ensures mounts { MountsAreLeft (namespace_number id) (namespace_entry id.count (entries_of namespaces.old.entries))
        (kept mounts.old store.old) groups.old (kept mounts.new store.new) groups.new }
    ensures overlays { OverlaysLeft store.old.overlays store.new.overlays }
{
    let Some(namespace) = namespaces.get_mut(&id) else {
        return;
    };
    if namespace.tasks > 1 {
        namespace.tasks -= 1;
        return;
    }
    namespaces.shift_remove(&id);
    end_namespace(mounts, groups, store, id);
}

// The mounts of a namespace are detached and leave their groups, the last one first.
fn end_namespace(mounts: &mut Mounts, groups: &mut Groups, store: &mut Store, id: NamespaceId)
    requires { CountNoUses store.old }
    ensures left { NamespaceIsLeft (namespace_number id) (kept mounts.old store.old) groups.old
        (kept mounts.new store.new) groups.new }
    ensures overlays { OverlaysLeft store.old.overlays store.new.overlays }
{
    while let Some(last) = mounts.attached_in(id).last() {
        let mount = *last;
        detach(mounts, store, mount);
        leave(mounts, groups, mount);
    }
}
