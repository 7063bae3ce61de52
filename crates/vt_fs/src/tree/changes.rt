//! Changes of one inode, as the calls of a tree are made of.
ghost use Rattle.std.specs.Prelude.{◌≡◌, ℕ, true, ◌+◌, ◌<◌, ◌≤◌, ◌^◌, Some, length, nat_eq, IsSome, IsTrue, IsOk, OnOk, OnErr};
ghost use Rattle.std.specs.FinMap.Entries.{is_sorted};
ghost use Rattle.vt_spec.specs.declared.attributes.Kind.TheVariants.{File};
ghost use Rattle.vt_spec.specs.FileTree.{is_kind_in};
ghost use Rattle.vt_spec.specs.Language.Changes.{node_with_attr, node_with_mark, node_with_parent, node_without_entry};
ghost use Rattle.vt_spec.specs.Machine.Descriptors.{overwritten};
ghost use Rattle.vt_spec.specs.Inodes.{with_changed, unpinned, without_replaced};
ghost use Rattle.vt_spec.specs.Tree.{name_cmp, bytes_in, entries_in, entry_named, node_with_bytes, node_with_entry};
ghost use Rattle.vt_fs.specs.Trees.Slots.{inodes_in, node_at, slots_len};

use crate::tree::slots::Slots;
use std::alloc::AllocError;
use vt_node::{Attr, EntryRoom, NodeId};

// Puts an entry into a directory. Only a name that is new allocates.
pub(crate) fn insert_entry(
    slots: &mut Slots,
    directory: NodeId,
    name: Vec<u8>,
    id: NodeId,
) -> Result<(), AllocError>
    ensures ok { (root : ℕ) → OnOk result (inodes_in root slots.new
        ≡ with_changed nat_eq (inodes_in root slots.old) directory (node_with_entry name.items id)) }
    ensures present { IsSome (entry_named name.items (entries_in (node_at slots.old directory))) → IsOk result }
    ensures in_order { is_sorted name_cmp (entries_in (node_at slots.old directory)) ≡ true }
    ensures next { slots.new.next ≡ slots.old.next }
    ensures room { slots.new.room ≡ slots.old.room }
    ensures err { OnErr result (slots.new ≡ slots.old) }
{
    match slots.get_mut(directory) {
        Some(node) => node.insert_entry(name, id),
        None => Ok(()),
    }
}

// Puts an entry into a directory that has room for it.
pub(crate) fn place_entry(
    slots: &mut Slots,
    directory: NodeId,
    name: Vec<u8>,
    id: NodeId,
    room: &mut EntryRoom,
)
    requires { length (entries_in (node_at slots.old directory)) < room.old }
    ensures placed { (root : ℕ) → inodes_in root slots.new
        ≡ with_changed nat_eq (inodes_in root slots.old) directory (node_with_entry name.items id) }
    ensures in_order { is_sorted name_cmp (entries_in (node_at slots.old directory)) ≡ true }
    ensures next { slots.new.next ≡ slots.old.next }
    ensures room { slots.new.room ≡ slots.old.room }
{
    if let Some(node) = slots.get_mut(directory) {
        node.place_entry(name, id, room);
    }
}

// Takes an entry out of a directory.
pub(crate) fn remove_entry(slots: &mut Slots, directory: NodeId, name: &[u8])
    ensures removed { (root : ℕ) → inodes_in root slots.new
        ≡ with_changed nat_eq (inodes_in root slots.old) directory (node_without_entry name.now) }
    ensures room { slots.new.room ≡ slots.old.room }
{
    if let Some(node) = slots.get_mut(directory) {
        node.remove_entry(name);
    }
}

// Sets the parent of a directory.
pub(crate) fn set_parent(slots: &mut Slots, directory: NodeId, parent: NodeId)
    ensures set { (root : ℕ) → inodes_in root slots.new
        ≡ with_changed nat_eq (inodes_in root slots.old) directory (node_with_parent parent) }
    ensures room { slots.new.room ≡ slots.old.room }
{
    if let Some(node) = slots.get_mut(directory) {
        node.set_parent(parent);
    }
}

// Sets the owner, group and mode of an object.
pub(crate) fn set_attr(slots: &mut Slots, object: NodeId, attr: Attr)
    ensures set { (root : ℕ) → inodes_in root slots.new
        ≡ with_changed nat_eq (inodes_in root slots.old) object (node_with_attr attr) }
    ensures room { slots.new.room ≡ slots.old.room }
{
    if let Some(node) = slots.get_mut(object) {
        node.set_attr(attr);
    }
}

// Marks a directory opaque, or takes its mark away.
pub(crate) fn set_opaque(slots: &mut Slots, directory: NodeId, opaque: bool)
    ensures set { (root : ℕ) → inodes_in root slots.new
        ≡ with_changed nat_eq (inodes_in root slots.old) directory (node_with_mark opaque) }
    ensures room { slots.new.room ≡ slots.old.room }
{
    if let Some(node) = slots.get_mut(directory) {
        node.set_opaque(opaque);
    }
}

// Sets the whole content of a file.
pub(crate) fn set_bytes(slots: &mut Slots, file: NodeId, bytes: Vec<u8>)
    ensures set { (root : ℕ) → inodes_in root slots.new
        ≡ with_changed nat_eq (inodes_in root slots.old) file (node_with_bytes bytes.items) }
    ensures room { slots.new.room ≡ slots.old.room }
{
    if let Some(node) = slots.get_mut(file) {
        node.set_bytes(bytes);
    }
}

// Writes bytes into a file from an offset on.
pub(crate) fn write_bytes(
    slots: &mut Slots,
    file: NodeId,
    offset: usize,
    bytes: &[u8],
) -> Result<(), AllocError>
    requires { offset + length bytes.now < 2 ^ 64 }
    ensures ok { (root : ℕ) → OnOk result (inodes_in root slots.new
        ≡ with_changed nat_eq (inodes_in root slots.old) file
        (node_with_bytes (overwritten offset bytes.now (bytes_in (node_at slots.old file))))) }
    ensures file { OnErr result (IsTrue (is_kind_in File (node_at slots.old file))) }
    ensures longer { OnErr result (length (bytes_in (node_at slots.old file)) < offset + length bytes.now) }
    ensures room { slots.new.room ≡ slots.old.room }
    ensures len { slots_len slots.new ≡ slots_len slots.old }
    ensures err { OnErr result (slots.new ≡ slots.old) }
{
    match slots.get_mut(file) {
        Some(node) => node.write_at(offset, bytes),
        None => Ok(()),
    }
}

// Takes back a use that an entry was: a directory without a name is its own parent, and an object is freed with
// its last use.
pub(crate) fn remove_object(slots: &mut Slots, object: NodeId)
    ensures removed { (root : ℕ) → inodes_in root slots.new
        ≡ without_replaced nat_eq (inodes_in root slots.old) (Some object) }
    ensures room { slots.old.room ≤ slots.new.room }
    ensures total { slots_len slots.new + slots.new.room ≤ slots_len slots.old + slots.old.room }
{
    set_parent(slots, object, object);
    release(slots, object);
}

// Takes back a use: an object is freed with its last use.
pub(crate) fn release(slots: &mut Slots, object: NodeId)
    ensures released { (root : ℕ) → inodes_in root slots.new ≡ unpinned nat_eq (inodes_in root slots.old) object }
    ensures room { slots.old.room ≤ slots.new.room }
    ensures total { slots_len slots.new + slots.new.room ≤ slots_len slots.old + slots.old.room }
{
    slots.release(object);
}
