//! The mounts of each namespace, and the most that one has had: mount_namespaces(7).
ghost use Rattle.std.specs.Prelude.{◌≡◌, ◌+◌, ◌-◌, ◌<◌, ◌≤◌, [], filter, if◌then◌else◌, length, not, OnErr, OnOk};
ghost use Rattle.vt_location.specs.Numbers.{same_id};
ghost use Rattle.vt_location.specs.declared.numbers.NamespaceId.{NamespaceId};
ghost use Rattle.vt_mount.specs.Listed.{NoneHasMore, listed, reserved, same_namespace};
ghost use Rattle.vt_mount.specs.Rising.{inserted, precedes};

use crate::lists::ListsBy;
use std::alloc::{AllocError, Global};
use vt_location::{MountId, NamespaceId};

/// The mounts of each namespace, in the order of their numbers.
#[derive(Debug, Drop)]
pub(crate) struct MountsByNamespace {
    lists: ListsBy<NamespaceId, MountId>,
    // The most mounts that a namespace has had since the first.
    most: usize,
    ghost bounded: { NoneHasMore lists most },
}

impl MountsByNamespace {
    /// No mounts. It does not allocate.
    pub(crate) fn new(alloc: Global) -> Self
        ensures { (q : NamespaceId) → listed same_namespace q result.lists ≡ [] }
    {
        MountsByNamespace {
            lists: ListsBy::new(alloc),
            most: 0,
        }
    }

    /// The mounts of a namespace, which is likely the one that changed last.
    pub(crate) fn get(&self, namespace: NamespaceId) -> &[MountId]
        ensures { result.now ≡ listed same_namespace namespace self.now.lists }
    {
        self.lists.get_again(&namespace)
    }

    /// The most mounts that a namespace has had: none has more.
    pub(crate) fn most(&self) -> usize
        ensures { NoneHasMore self.now.lists result }
    {
        self.most
    }

    /// Reserves room for one more mount, beside the room that is reserved already.
    pub(crate) fn reserve(&mut self, namespace: NamespaceId) -> Result<(), AllocError>
        ensures same { (q : NamespaceId)
            → listed same_namespace q self.new.lists ≡ listed same_namespace q self.old.lists }
        ensures ok { OnOk result ((q : NamespaceId) → reserved same_namespace q self.new.lists
            ≡ (if same_namespace q namespace then reserved same_namespace q self.old.lists + 1
            else reserved same_namespace q self.old.lists)) }
    {
        self.lists.reserve(namespace)
    }

    /// Gives up the room that is reserved in a namespace. It does not allocate.
    pub(crate) fn release(&mut self, namespace: NamespaceId)
        ensures { (q : NamespaceId)
            → listed same_namespace q self.new.lists ≡ listed same_namespace q self.old.lists }
    {
        self.lists.release(&namespace);
    }

    /// Adds a mount, in the order of numbers.
    pub(crate) fn add(&mut self, namespace: NamespaceId, mount: MountId) -> Result<(), AllocError>
        ensures ok { OnOk result ((q : NamespaceId) → listed same_namespace q self.new.lists
            ≡ (if same_namespace q namespace then inserted precedes mount (listed same_namespace q self.old.lists)
            else listed same_namespace q self.old.lists)) }
        ensures err { OnErr result ((q : NamespaceId)
            → listed same_namespace q self.new.lists ≡ listed same_namespace q self.old.lists) }
    {
        self.lists.add_again(namespace, mount)?;
        let count = self.lists.get_again(&namespace).len();
        self.most = self.most.max(count);
        Ok(())
    }

    /// Inserts a mount, for which room is reserved, in the order of numbers. It does not allocate.
    pub(crate) fn put_in(&mut self, namespace: NamespaceId, mount: MountId)
        requires { 0 < reserved same_namespace namespace self.old.lists }
        ensures inserted { (q : NamespaceId) → listed same_namespace q self.new.lists
            ≡ (if same_namespace q namespace then inserted precedes mount (listed same_namespace q self.old.lists)
            else listed same_namespace q self.old.lists) }
        ensures reserved { (q : NamespaceId) → reserved same_namespace q self.new.lists
            ≡ (if same_namespace q namespace then reserved same_namespace q self.old.lists - 1
            else reserved same_namespace q self.old.lists) }
    {
        self.lists.put_in(&namespace, mount);
        let count = self.lists.get_again(&namespace).len();
        self.most = self.most.max(count);
    }

    /// Removes a mount. It does not allocate.
    pub(crate) fn remove(&mut self, namespace: NamespaceId, mount: MountId)
        ensures { (q : NamespaceId) → listed same_namespace q self.new.lists
            ≡ (if same_namespace q namespace then filter (λ other. not (same_id other mount))
            (listed same_namespace q self.old.lists) else listed same_namespace q self.old.lists) }
    {
        self.lists.remove_again(&namespace, mount);
    }
}
