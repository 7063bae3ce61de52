//! The lists of mounts by namespace, parent and mount point.
ghost use Rattle.std.specs.Prelude.{◌≡◌, ◌&&◌, ◌++◌, ◌∷◌, [], List, nat_lt, option_to_list, true, OnErr, OnOk, ◌^◌};
ghost use Rattle.vt_location.specs.declared.numbers.MountId.{MountId};
ghost use Rattle.vt_location.specs.declared.numbers.NamespaceId.{NamespaceId};
ghost use Rattle.vt_location.specs.declared.locations.Location.{Location};
ghost use Rattle.vt_mount.specs.Reserved.{Reserves};
ghost use Rattle.vt_mount.specs.Indexes.{count_at, count_left, count_put, has_small_point, is_at, is_in, is_on, listed_in, listed_on};
ghost use Rattle.vt_location.specs.Locations.{is_small_node};
ghost use Rattle.vt_mount.specs.Indexes.{put_in_place, relisted, same_namespace, same_place};
ghost use Rattle.vt_mount.specs.Moving.{is_small_point};
ghost use Rattle.vt_mount.specs.Indexes.{stood_at, stood_on, taken};
ghost use Rattle.vt_mount.specs.declared.standing.Standing.{Standing};
ghost use Rattle.vt_spec.specs.Lists.{holds_of};
ghost use Rattle.vt_location.specs.Numbers.{same_id};

use crate::lists::ListsBy;
use crate::namespaces::MountsByNamespace;
use crate::standing::Standing;
use std::alloc::{AllocError, Global};
use vt_location::{Location, Mount, MountId, NamespaceId, NodeRef};

/// The mounts by their namespace, and by the mount and the inode that they stand on.
#[derive(Debug, Drop)]
pub(crate) struct Indexes {
    pub(crate) by_namespace: MountsByNamespace,
    pub(crate) by_parent: ListsBy<MountId, MountId>,
    pub(crate) by_inode: ListsBy<NodeRef, Standing>,
}

// What is listed for a mount at a location.
#[inline(always)]
fn standing(place: Location, mount: MountId) -> Standing
    ensures { result ≡ record { parent = place.mount; mount = mount } }
{
    Standing {
        parent: place.mount,
        mount,
    }
}

impl Indexes {
    /// No mounts. It does not allocate.
    pub(crate) fn new(alloc: Global) -> Self
        ensures namespace { (q : NamespaceId) → listed_in result q ≡ [] }
        ensures parent { (q : MountId) → listed_on result q ≡ [] }
        ensures place { (q : Location) (one : MountId) → count_at result q one ≡ 0 }
    {
        Indexes {
            by_namespace: MountsByNamespace::new(alloc),
            by_parent: ListsBy::new(alloc),
            by_inode: ListsBy::new(alloc),
        }
    }

    /// Reserves room for a mount in a namespace and at a location, beside the room that is reserved there already. If it
    /// fails, some of that room may be reserved.
    pub(crate) fn reserve(
        &mut self,
        namespace: Option<NamespaceId>,
        place: Option<Location>,
    ) -> Result<(), AllocError>
        ensures namespace { (q : NamespaceId) → listed_in self.new q ≡ listed_in self.old q }
        ensures parent { (q : MountId) → listed_on self.new q ≡ listed_on self.old q }
        ensures place { (q : Location) (one : MountId) → count_at self.new q one ≡ count_at self.old q one }
        ensures ok { OnOk result ((namespaces : List NamespaceId) (places : List Location)
            → Reserves self.old namespaces places
            → Reserves self.new (option_to_list namespace ++ namespaces) (option_to_list place ++ places)) }
    {
        self.reserve_in(namespace)?;
        self.reserve_at(place)
    }

    // Reserves room for a mount in a namespace.
    fn reserve_in(&mut self, namespace: Option<NamespaceId>) -> Result<(), AllocError>
        ensures namespace { (q : NamespaceId) → listed_in self.new q ≡ listed_in self.old q }
        ensures parent { self.new.by_parent ≡ self.old.by_parent }
        ensures place { self.new.by_inode ≡ self.old.by_inode }
        ensures ok { OnOk result ((namespaces : List NamespaceId) (places : List Location)
            → Reserves self.old namespaces places
            → Reserves self.new (option_to_list namespace ++ namespaces) places) }
    {
        match namespace {
            Some(namespace) => self.by_namespace.reserve(namespace),
            None => Ok(()),
        }
    }

    // Reserves room for a mount at a location.
    fn reserve_at(&mut self, place: Option<Location>) -> Result<(), AllocError>
        ensures namespace { self.new.by_namespace ≡ self.old.by_namespace }
        ensures parent { (q : MountId) → listed_on self.new q ≡ listed_on self.old q }
        ensures place { (q : Location) (one : MountId) → count_at self.new q one ≡ count_at self.old q one }
        ensures ok { OnOk result ((namespaces : List NamespaceId) (places : List Location)
            → Reserves self.old namespaces places → Reserves self.new namespaces (option_to_list place ++ places)) }
    {
        let Some(place) = place else {
            return Ok(());
        };
        self.by_parent.reserve(place.mount)?;
        self.by_inode.reserve(place.node)
    }

    /// Gives up the room that is reserved in a namespace and at a location. It does not allocate.
    pub(crate) fn release(&mut self, namespace: Option<NamespaceId>, place: Option<Location>)
        ensures namespace { (q : NamespaceId) → listed_in self.new q ≡ listed_in self.old q }
        ensures parent { (q : MountId) → listed_on self.new q ≡ listed_on self.old q }
        ensures place { (q : Location) (one : MountId) → count_at self.new q one ≡ count_at self.old q one }
    {
        self.release_in(namespace);
        self.release_at(place);
    }

    // Gives up the room that is reserved in a namespace.
    fn release_in(&mut self, namespace: Option<NamespaceId>)
        ensures namespace { (q : NamespaceId) → listed_in self.new q ≡ listed_in self.old q }
        ensures parent { self.new.by_parent ≡ self.old.by_parent }
        ensures place { self.new.by_inode ≡ self.old.by_inode }
    {
        if let Some(namespace) = namespace {
            self.by_namespace.release(namespace);
        }
    }

    // Gives up the room that is reserved at a location.
    fn release_at(&mut self, place: Option<Location>)
        ensures namespace { self.new.by_namespace ≡ self.old.by_namespace }
        ensures parent { (q : MountId) → listed_on self.new q ≡ listed_on self.old q }
        ensures place { (q : Location) (one : MountId) → count_at self.new q one ≡ count_at self.old q one }
    {
        if let Some(place) = place {
            self.by_parent.release(&place.mount);
            self.by_inode.release(&place.node);
        }
    }

    /// Adds a mount to its lists. If an allocation fails, it may be in some of them.
    pub(crate) fn add(&mut self, mount: &Mount) -> Result<(), AllocError>
        ensures slot { OnOk result (has_small_point mount.now ≡ true) }
        ensures namespace_ok { OnOk result ((q : NamespaceId) → listed_in self.new q
            ≡ put_in_place (is_in q mount.now) mount.now.number (listed_in self.old q)) }
        ensures parent_ok { OnOk result ((q : MountId) → listed_on self.new q
            ≡ put_in_place (is_on q mount.now) mount.now.number (listed_on self.old q)) }
        ensures place_ok { OnOk result ((q : Location) (one : MountId) → count_at self.new q one
            ≡ count_put (is_at q mount.now && same_id one mount.now.number) (count_at self.old q one)) }
        // without the mount, the lists are as they were
        ensures namespace_rest { (q : NamespaceId) → taken (is_in q mount.now) mount.now.number (listed_in self.new q)
            ≡ taken (is_in q mount.now) mount.now.number (listed_in self.old q) }
        ensures parent_rest { (q : MountId) → taken (is_on q mount.now) mount.now.number (listed_on self.new q)
            ≡ taken (is_on q mount.now) mount.now.number (listed_on self.old q) }
        ensures place_rest { (q : Location) (one : MountId)
            → count_left (is_at q mount.now && same_id one mount.now.number) (count_at self.new q one)
            ≡ count_left (is_at q mount.now && same_id one mount.now.number) (count_at self.old q one) }
    {
        self.add_in(mount.namespace, mount.number)?;
        self.add_at(mount.mount_point, mount.number)
    }

    // Adds a mount to the list of its namespace.
    fn add_in(&mut self, namespace: Option<NamespaceId>, mount: MountId) -> Result<(), AllocError>
        ensures namespace_ok { OnOk result ((q : NamespaceId) → listed_in self.new q
            ≡ put_in_place (holds_of (same_namespace q) namespace) mount (listed_in self.old q)) }
        ensures namespace_err { OnErr result ((q : NamespaceId) → listed_in self.new q ≡ listed_in self.old q) }
        ensures parent { self.new.by_parent ≡ self.old.by_parent }
        ensures place { self.new.by_inode ≡ self.old.by_inode }
    {
        match namespace {
            Some(namespace) => self.by_namespace.add(namespace, mount),
            None => Ok(()),
        }
    }

    // Adds a mount to the lists of its mount point. If an allocation fails, it may be in some of them.
    fn add_at(&mut self, place: Option<Location>, mount: MountId) -> Result<(), AllocError>
        ensures slot { is_small_point place ≡ true }
        ensures namespace { self.new.by_namespace ≡ self.old.by_namespace }
        ensures parent_ok { OnOk result ((q : MountId) → listed_on self.new q
            ≡ put_in_place (stood_on q place) mount (listed_on self.old q)) }
        ensures place_ok { OnOk result ((q : Location) (one : MountId) → count_at self.new q one
            ≡ count_put (stood_at q place && same_id one mount) (count_at self.old q one)) }
        ensures parent_rest { (q : MountId) → taken (stood_on q place) mount (listed_on self.new q)
            ≡ taken (stood_on q place) mount (listed_on self.old q) }
        ensures place_rest { (q : Location) (one : MountId)
            → count_left (stood_at q place && same_id one mount) (count_at self.new q one)
            ≡ count_left (stood_at q place && same_id one mount) (count_at self.old q one) }
    {
        let Some(place) = place else {
            return Ok(());
        };
        self.by_parent.add_again(place.mount, mount)?;
        self.by_inode.add(place.node, standing(place, mount))
    }

    /// Adds a mount to its lists, in which room is reserved. It does not allocate.
    pub(crate) fn enter(&mut self, mount: &Mount)
        requires { Reserves self.old (option_to_list mount.now.namespace) (option_to_list mount.now.mount_point) }
        ensures slot { has_small_point mount.now ≡ true }
        ensures namespace { (q : NamespaceId) → listed_in self.new q
            ≡ put_in_place (is_in q mount.now) mount.now.number (listed_in self.old q) }
        ensures parent { (q : MountId) → listed_on self.new q
            ≡ put_in_place (is_on q mount.now) mount.now.number (listed_on self.old q) }
        ensures place { (q : Location) (one : MountId) → count_at self.new q one
            ≡ count_put (is_at q mount.now && same_id one mount.now.number) (count_at self.old q one) }
        ensures reserves { (namespaces : List NamespaceId) (places : List Location)
            → Reserves self.old (option_to_list mount.now.namespace ++ namespaces)
            (option_to_list mount.now.mount_point ++ places) → Reserves self.new namespaces places }
    {
        self.enter_in(mount.namespace, mount.number);
        if let Some(place) = mount.mount_point {
            self.put_in(place, mount.number);
        }
    }

    // Adds a mount to the list of its namespace, in which room is reserved.
    fn enter_in(&mut self, namespace: Option<NamespaceId>, mount: MountId)
        requires { Reserves self.old (option_to_list namespace) [] }
        ensures namespace { (q : NamespaceId) → listed_in self.new q
            ≡ put_in_place (holds_of (same_namespace q) namespace) mount (listed_in self.old q) }
        ensures parent { self.new.by_parent ≡ self.old.by_parent }
        ensures place { self.new.by_inode ≡ self.old.by_inode }
        ensures reserves { (namespaces : List NamespaceId) (places : List Location)
            → Reserves self.old (option_to_list namespace ++ namespaces) places → Reserves self.new namespaces places }
    {
        if let Some(namespace) = namespace {
            self.by_namespace.put_in(namespace, mount);
        }
    }

    /// Removes a mount from the lists of its namespace and its mount point. It does not allocate.
    pub(crate) fn leave(
        &mut self,
        namespace: Option<NamespaceId>,
        place: Option<Location>,
        mount: MountId,
    )
        ensures namespace { (q : NamespaceId) → listed_in self.new q
            ≡ taken (holds_of (same_namespace q) namespace) mount (listed_in self.old q) }
        ensures parent { (q : MountId) → listed_on self.new q ≡ taken (stood_on q place) mount (listed_on self.old q) }
        ensures place { (q : Location) (one : MountId) → count_at self.new q one
            ≡ count_left (stood_at q place && same_id one mount) (count_at self.old q one) }
    {
        if let Some(namespace) = namespace {
            self.by_namespace.remove(namespace, mount);
        }
        if let Some(place) = place {
            self.by_parent.remove_again(&place.mount, mount);
            self.by_inode.remove(&place.node, standing(place, mount));
        }
    }

    /// Moves a mount from the lists of its old mount point to those of the new one, in the order of numbers.
    pub(crate) fn relist(
        &mut self,
        was: Option<Location>,
        place: Location,
        mount: MountId,
    ) -> Result<(), AllocError>
        ensures slot { is_small_node place.node ≡ true }
        ensures namespace { (q : NamespaceId) → listed_in self.new q ≡ listed_in self.old q }
        ensures parent_ok { OnOk result ((q : MountId) → listed_on self.new q
            ≡ relisted (stood_on q was) (same_id q place.mount) mount (listed_on self.old q)) }
        ensures place_ok { OnOk result ((q : Location) (one : MountId) → count_at self.new q one
            ≡ count_put (same_place q place && same_id one mount)
            (count_left (stood_at q was && same_id one mount) (count_at self.old q one))) }
        ensures parent_err { OnErr result ((q : MountId) → listed_on self.new q ≡ listed_on self.old q) }
        ensures place_err { OnErr result ((q : Location) (one : MountId) → count_at self.new q one ≡ count_at self.old q one) }
    {
        if self.reserve(None, Some(place)).is_err() {
            self.release(None, Some(place));
            return Err(AllocError);
        }
        self.shift(was, place, mount);
        self.drop_empty(was);
        Ok(())
    }

    /// The same where room is reserved there; the lists of the old mount point stay even if they are empty. It does not
    /// allocate.
    pub(crate) fn shift(&mut self, was: Option<Location>, place: Location, mount: MountId)
        requires { Reserves self.old [] (place ∷ []) }
        ensures slot { is_small_node place.node ≡ true }
        ensures namespace { (q : NamespaceId) → listed_in self.new q ≡ listed_in self.old q }
        ensures parent { (q : MountId) → listed_on self.new q
            ≡ relisted (stood_on q was) (same_id q place.mount) mount (listed_on self.old q) }
        ensures place { (q : Location) (one : MountId) → count_at self.new q one
            ≡ count_put (same_place q place && same_id one mount)
            (count_left (stood_at q was && same_id one mount) (count_at self.old q one)) }
        ensures reserves { (namespaces : List NamespaceId) (places : List Location)
            → Reserves self.old namespaces (place ∷ places) → Reserves self.new namespaces places }
    {
        self.take_out(was, mount);
        self.put_in(place, mount);
    }

    // Removes a mount from the lists of its old mount point, which stay even if they are empty.
    fn take_out(&mut self, was: Option<Location>, mount: MountId)
        ensures namespace { self.new.by_namespace ≡ self.old.by_namespace }
        ensures parent { (q : MountId) → listed_on self.new q ≡ taken (stood_on q was) mount (listed_on self.old q) }
        ensures place { (q : Location) (one : MountId) → count_at self.new q one
            ≡ count_left (stood_at q was && same_id one mount) (count_at self.old q one) }
        ensures reserves { (namespaces : List NamespaceId) (places : List Location)
            → Reserves self.old namespaces places → Reserves self.new namespaces places }
    {
        if let Some(was) = was {
            self.by_parent.take_out(&was.mount, mount);
            self.by_inode.take_out(&was.node, standing(was, mount));
        }
    }

    // Inserts a mount among those at a location, where room is reserved, in the order of numbers.
    fn put_in(&mut self, place: Location, mount: MountId)
        requires { Reserves self.old [] (place ∷ []) }
        ensures slot { is_small_node place.node ≡ true }
        ensures namespace { self.new.by_namespace ≡ self.old.by_namespace }
        ensures parent { (q : MountId)
            → listed_on self.new q ≡ put_in_place (same_id q place.mount) mount (listed_on self.old q) }
        ensures place { (q : Location) (one : MountId) → count_at self.new q one
            ≡ count_put (same_place q place && same_id one mount) (count_at self.old q one) }
        ensures reserves { (namespaces : List NamespaceId) (places : List Location)
            → Reserves self.old namespaces (place ∷ places) → Reserves self.new namespaces places }
    {
        self.by_parent.put_in(&place.mount, mount);
        self.by_inode.put_in(&place.node, standing(place, mount));
    }

    /// Drops the lists at a location that are empty.
    pub(crate) fn drop_empty(&mut self, was: Option<Location>)
        ensures namespace { self.new.by_namespace ≡ self.old.by_namespace }
        ensures parent { (q : MountId) → listed_on self.new q ≡ listed_on self.old q }
        ensures place { (q : Location) (one : MountId) → count_at self.new q one ≡ count_at self.old q one }
    {
        if let Some(was) = was {
            self.by_parent.drop_empty(&was.mount);
            self.by_inode.drop_empty(&was.node);
        }
    }

    /// Removes a mount from the lists of its mount point, and drops those that get empty. It does not allocate.
    pub(crate) fn lift(&mut self, was: Option<Location>, mount: MountId)
        ensures namespace { (q : NamespaceId) → listed_in self.new q ≡ listed_in self.old q }
        ensures parent { (q : MountId) → listed_on self.new q ≡ taken (stood_on q was) mount (listed_on self.old q) }
        ensures place { (q : Location) (one : MountId) → count_at self.new q one
            ≡ count_left (stood_at q was && same_id one mount) (count_at self.old q one) }
    {
        self.take_out(was, mount);
        self.drop_empty(was);
    }
}
