//! The traits `Look` and `LookAtMounts`.
ghost use Rattle.std.specs.Prelude.{◌≡◌, false, nat_eq, option_copied, option_map, Bool, IfErr, IfOk, IfSome, Ok, Option, Some, unwrap_or, ℕ};
ghost use Rattle.vt_spec.specs.declared.errors.Rule.TheVariants.{S5};
ghost use Rattle.vt_spec.specs.Errors.{denial, unless};
ghost use Rattle.vt_spec.specs.Language.Changes.{Change};
ghost use Rattle.vt_spec.specs.Machine.Looks.{Looks, mount_at, mounter_may, topmost};
ghost use Rattle.std.specs.List.{list_any};
ghost use Rattle.vt_spec.specs.Machine.Mounts as meant;
ghost use Rattle.vt_spec.specs.Machine.Mounts.{is_unbindable};
ghost use Rattle.vt_spec.specs.Machine.Permits.{Permit};
ghost use Rattle.vt_spec.specs.Machine.Rules.Conditions.{has_no_upper, is_mount_point_anywhere, is_mount_point_in, is_overlay_at};
ghost use Rattle.vt_spec.specs.Machine.Rules.Removing.{is_nonempty};
ghost use Rattle.vt_spec.specs.Machine.Walking.{is_lost};
ghost use Rattle.vt_spec.specs.Tree.{Node, entries_in, entry_named, parent_in};
ghost use Rattle.vt_location.specs.Fronts.{front};
ghost use Rattle.vt_cred.specs.Rights.{right_bits};
ghost use Rattle.vt_location.specs.Locations.{location_of, number_of};
ghost use Rattle.vt_location.specs.Numbers.{mount_number, namespace_number};
ghost use Rattle.vt_permits.specs.GrantValue.{attachment_permit};
ghost use Rattle.vt_looks.specs.Asking.{asked_at, asked_by};
ghost use Rattle.vt_looks.specs.Looking.{IsGround, StaysFound, is_at_or_below, is_only_below, mount_seen};

use crate::asked::Asked;
use vt_cred::Rights;
use vt_location::{FilesystemId, Location, Mount, MountId, NamespaceId, NodeRef};
use vt_node::Node;
use vt_permits::Attachment;
use vt_request::TaskName;
use vt_spec::errors::Deny;

/// What a walk keeps of the mount that it stands on, so as to ask for it once and not at each word.
#[derive(Clone, Copy, Debug)]
pub struct Ground {
    /// The filesystem that the mount shows.
    pub filesystem: FilesystemId,
    /// If so, no mount stands on it; `false` says nothing.
    pub is_bare: bool,
}

/// Where a walk comes to that enters the mounts over a location.
#[derive(Clone, Copy, Debug)]
pub struct Entered {
    /// The root of the topmost mount.
    pub root: Location,
    /// What a walk keeps of that mount.
    pub ground: Ground,
}

/// What a name of a directory leads to, and its real object, as `node` lends it.
#[derive(Clone, Copy, Debug)]
pub struct Entry<'a> {
    pub node: NodeRef,
    pub object: Option<&'a Node>,
}

/// What walks, and the rules of calls on files and tasks, look at in a world. No look changes it.
pub trait Look {
    // what the world shows
    ghost looks: { Self → Looks ℕ };

    // the object that is lent for a location: on an overlay the real one, in the tree of a layer
    ghost real: { Self → meant.Location ℕ → Option (Node ℕ) };

    /// The namespace of the task of this name, if there is such a task: setns(2).
    fn namespace_called(&self, name: &TaskName) -> Option<NamespaceId>
        ensures { option_map namespace_number result
            ≡ (looks self.now).namespace_called name.now };

    /// The mount of this number, if there is one.
    fn mount(&self, id: MountId) -> Option<Mount>
        ensures { mount_seen id result ≡ (looks self.now).mount (mount_number id) };

    /// How many mounts there are.
    fn mount_count(&self) -> usize
        ensures { result ≡ (looks self.now).mount_count };

    /// The root of the topmost mount over a location, or the location itself.
    fn topmost(&self, at: Location) -> Location
        ensures { location_of result ≡ topmost (looks self.now) (location_of at) };

    /// The root of the topmost mount over a location, and what a walk keeps of that mount. `None` says that no mount
    /// stands there.
    fn entered(&self, at: Location) -> Option<Entered>
        ensures root { unwrap_or (option_map (λ entered. location_of entered.root) result) (location_of at)
            ≡ topmost (looks self.now) (location_of at) }
        ensures ground { IfSome result (λ entered. IsGround (looks self.now) entered.root.mount entered.ground) };

    /// Whether a mount of this namespace stands on a directory, through whatever mount that is seen: EBUSY of rmdir(2).
    fn is_mount_point_in(&self, namespace: NamespaceId, at: Location) -> bool
        ensures { result ≡ is_mount_point_in nat_eq (looks self.now) (namespace_number namespace) (location_of at) };

    /// Whether a mount of any namespace stands on a directory: EBUSY of rename(2).
    fn is_mount_point_anywhere(&self, at: Location) -> bool
        ensures { result ≡ is_mount_point_anywhere (looks self.now) (location_of at) };

    /// The real object of the inode at a location: its kind, attributes and bytes are those of the inode. Entries,
    /// parent and emptiness are `entry`, `parent` and `is_nonempty`.
    fn node(&self, at: Location) -> Option<&Node>
        ensures { option_copied result ≡ real self.now (location_of at) };

    /// The entry of a name in the directory at a location, of which this is the real object.
    fn entry(&self, at: Location, object: &Node, name: &[u8]) -> Option<Entry<'_>>
        requires { real self.now (location_of at) ≡ Some object.now }
        ensures node { option_map (λ entry. number_of entry.node) result
            ≡ entry_named name.now (entries_in ((looks self.now).node (location_of at))) }
        ensures object { IfSome result (λ entry. option_copied entry.object
            ≡ real self.now (record { mount = mount_number at.mount; node = number_of entry.node })) }
        ensures found { IfSome result (λ entry. StaysFound (looks self.now) (location_of at)
            (record { mount = mount_number at.mount; node = number_of entry.node })) };

    /// Whether the directory at a location has entries: ENOTEMPTY of rmdir(2).
    fn is_nonempty(&self, at: Location) -> bool
        ensures { result ≡ is_nonempty (looks self.now) (location_of at) };

    /// The parent of the directory at a location; of anything else, itself.
    fn parent(&self, at: Location) -> NodeRef
        ensures node { number_of result ≡ parent_in (number_of at.node) ((looks self.now).node (location_of at)) }
        ensures found { nat_eq (number_of at.node) (mount_at (looks self.now) (location_of at)).root ≡ false
            → StaysFound (looks self.now) (location_of at)
            (record { mount = mount_number at.mount; node = number_of result }) };

    /// What a walk keeps of a mount.
    fn ground(&self, mount: MountId) -> Ground
        ensures { IsGround (looks self.now) mount result };

    /// As `node`, of a location on a mount that was asked for before.
    fn node_on(&self, ground: Ground, at: Location) -> Option<&Node>
        requires { IsGround (looks self.now) at.mount ground }
        ensures { option_copied result ≡ real self.now (location_of at) };

    /// Whether the directory at a location has lost its name: rmdir(2) while it is in use.
    fn is_removed(&self, at: Location) -> bool
        ensures { result ≡ (looks self.now).is_removed (location_of at) };

    /// Whether a directory is the one at a location, or lies under it in the filesystem of that mount: EINVAL of
    /// rename(2).
    fn is_under(&self, top: Location, directory: NodeRef) -> bool
        ensures { result ≡ (looks self.now).is_under (mount_at (looks self.now) (location_of top)).filesystem
            (number_of top.node) (number_of directory) };

    /// Whether `..` of a directory leads nowhere: it is removed, or does not lie under the root of its mount: ENOENT.
    fn is_lost(&self, at: Location) -> bool
        ensures { result ≡ is_lost nat_eq (looks self.now) (location_of at) };

    /// Whether a location is in an overlay: its entries and its parent are then those of merged layers.
    fn is_overlay(&self, at: Location) -> bool
        ensures { result ≡ is_overlay_at (looks self.now) (location_of at) };

    /// Whether a location is in an overlay without an upper layer, which is read-only: EROFS.
    fn has_no_upper(&self, at: Location) -> bool
        ensures { result ≡ has_no_upper (looks self.now) (location_of at) };

    /// Whether what is at a location lies in a layer of a live overlay, and is locked: EBUSY.
    fn is_locked(&self, at: Location) -> bool
        ensures { result ≡ (looks self.now).is_locked (location_of at) };

    /// Whether a lower layer has a directory under this name of the directory at a location: EXDEV of rename(2). It is
    /// asked of what may be changed: of no overlay without an upper layer, which is read-only.
    fn has_lower_directory(&self, at: Location, name: &[u8]) -> bool
        requires { has_no_upper (looks self.now) (location_of at) ≡ false }
        ensures { result ≡ (looks self.now).has_lower_directory (location_of at) name.now };

    /// Whether the object at a location is in lower layers of an overlay alone, so that it is copied up when it is
    /// opened for writing.
    fn is_only_below(&self, at: Location) -> bool
        ensures { result ≡ is_only_below (looks self.now) (location_of at) };

    /// Whether the mounter of the overlay at a location has these rights there; nobody is asked outside overlays.
    fn mounter_may(&self, at: Location, wanted: Rights) -> bool
        ensures { result ≡ mounter_may (looks self.now) (location_of at) (right_bits wanted) };

    /// As `mounter_may`, of an object that was lent on a mount that was asked for before.
    fn mounter_may_on(&self, ground: Ground, at: Location, object: &Node, wanted: Rights) -> bool
        requires ground { IsGround (looks self.now) at.mount ground }
        requires object { real self.now (location_of at) ≡ Some object.now }
        ensures { result ≡ mounter_may (looks self.now) (location_of at) (right_bits wanted) };

    /// Whether the mounter of the overlay at a location may make a change there, with the copies that it needs: the
    /// first of B1 (EACCES) and B2 (EPERM) that fails. Nobody is asked outside overlays, nor of one without an upper
    /// layer, which is read-only.
    fn mounter_may_change(&self, at: Location, asked: Asked) -> Result<(), Deny>
        requires { has_no_upper (looks self.now) (location_of at) ≡ false }
        ensures { (change : Change ℕ) → asked_by change ≡ asked_at at asked
            → result ≡ unless ((looks self.now).mounter_rules (location_of at) change) (Ok tt) };

    // what is lent looks like the inode
    ghost alike: { (here : Self) (at : meant.Location ℕ) → front (real here at) ≡ front ((looks here).node at) };
}

/// What the rules of mount calls look at besides.
pub trait LookAtMounts: Look {
    // whether a namespace has too many mounts once this permit is applied
    ghost overfills: { Self → Permit ℕ → Bool };

    /// Whether a mount is this one or a descendant of it: ELOOP of mount(2) with `MS_MOVE`.
    fn is_at_or_below(&self, top: MountId, mount: MountId) -> bool
        ensures { result ≡ is_at_or_below (Self.looks self.now) (mount_number top) (mount_number mount) };

    /// Whether a mount or a descendant of it is unbindable: EINVAL of mount(2) with `MS_MOVE`.
    fn has_unbindable(&self, top: MountId) -> bool
        ensures { result ≡ list_any (λ mount. is_unbindable mount.propagation)
            ((Self.looks self.now).mount_tree (mount_number top)) };

    /// Whether a mount is busy: it has a child, or a mount that would be detached is in use: EBUSY of umount(2).
    ///
    /// S5 (ENOMEM): the allocation of a list of receivers failed.
    fn is_busy(&self, mount: MountId) -> Result<bool, Deny>
        ensures ok { IfOk result (λ busy. busy ≡ (Self.looks self.now).is_busy (mount_number mount)) }
        ensures memory { IfErr result (λ deny. deny ≡ denial S5) };

    /// Whether a file is open for writing through a mount: EBUSY of mount(2) with `MS_REMOUNT`.
    fn is_written_through(&self, mount: MountId) -> bool
        ensures { result ≡ (Self.looks self.now).is_written_through (mount_number mount) };

    /// Whether a namespace has more than 4,096 mounts once this is attached: ENOSPC of mount(2).
    ///
    /// S5 (ENOMEM): the allocation of a list of receivers failed.
    fn overfills(&self, attachment: Attachment) -> Result<bool, Deny>
        ensures ok { IfOk result (λ too_many. too_many ≡ overfills self.now (attachment_permit attachment)) }
        ensures memory { IfErr result (λ deny. deny ≡ denial S5) };
}
