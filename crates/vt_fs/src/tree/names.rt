//! Which directories have names for each object.
ghost use Rattle.std.specs.Prelude.{◌≡◌, ℕ, ◌+◌, ◌-◌, ◌<◌, ◌≤◌, ◌++◌, ◌∷◌, [], length, IfOk, OnOk, nat_eq};
ghost use Rattle.std.specs.List.{position};
ghost use Rattle.smallvec.specs.SmallVec.{HasRoomFor};
ghost use Rattle.vt_fs.specs.Trees.Names.{HasRoom, directories_for, how_often, less_at, listed_as, listings, more_at, none_at, one_if};

use smallvec::SmallVec;
use std::alloc::{AllocError, Global};
use std::marker::Model;
use vt_node::NodeId;

// A directory for each name of an object. Most objects have one name, and two take no memory of their own.
type Directories = SmallVec<NodeId, 2>;

/// The directories that have the names of one object, with a place for one more: what a further name of it needs. A plan owns
/// it, so that the name can be made where nothing may fail.
#[derive(Debug, Drop)]
pub struct LinkRoom {
    directories: Directories,
}

impl Model for LinkRoom {
    ghost use Rattle.std.specs.Prelude.{ℕ};
    ghost use Rattle.smallvec.specs.SmallVec.{SmallVec};

    ghost Value = { SmallVec ℕ };

    ghost view = { λ room. room.directories };
}

impl LinkRoom {
    /// Of an object that has no name yet, with places for two. It does not allocate.
    pub fn new(alloc: Global) -> Self
        ensures directories { result.items ≡ [] }
        ensures room { HasRoomFor result 2 }
    {
        LinkRoom {
            directories: SmallVec::new(alloc),
        }
    }

    // Of an object with names in these directories.
    pub(crate) fn beside(alloc: Global, directories: &[NodeId]) -> Result<Self, AllocError>
        ensures directories { IfOk result (λ room. room.items ≡ directories.now) }
        ensures room { IfOk result (λ room. HasRoomFor room 1) }
    {
        let mut list = SmallVec::from_slice(alloc, directories)?;
        list.reserve(1)?;
        Ok(LinkRoom { directories: list })
    }

    /// Lists a directory that has one name more of the object. It does not allocate.
    pub fn list(&mut self, directory: NodeId)
        requires { HasRoomFor self.old 1 }
        ensures directories { self.new.items ≡ self.old.items ++ directory ∷ [] }
        ensures capacity { self.new.capacity ≡ self.old.capacity }
    {
        self.directories.push_reserved(directory);
    }
}

/// For the object of each number the directories that have its names, one for each name.
///
/// A directory may be listed too often, and never is too rarely: what is listed stays when an object goes, since a tree
/// does not know that no name leads to it.
#[derive(Debug, Drop)]
pub struct Names {
    lists: Vec<Directories>,
}

impl Model for Names {
    ghost use Rattle.vt_fs.specs.Trees.Names.{Lists};

    ghost Value = { Lists };

    ghost view = { λ names. names.lists.items };
}

impl Names {
    /// No names. It does not allocate.
    pub fn new(alloc: Global) -> Self
        ensures { result ≡ [] }
    {
        Names {
            lists: Vec::new(alloc),
        }
    }

    /// Makes lists for all objects up to this one. It changes none that is there.
    pub fn lengthen(&mut self, last: usize) -> Result<(), AllocError>
        ensures ok { OnOk result (last < length self.new) }
        ensures longer { length self.old ≤ length self.new }
        ensures listings { listings self.new ≡ listings self.old }
    {
        while self.lists.len() <= last {
            self.lists.push(SmallVec::new(*self.lists.allocator()))?;
        }
        Ok(())
    }

    /// Makes room for one name more of an object that has a list.
    pub fn reserve(&mut self, object: NodeId) -> Result<(), AllocError>
        requires { object < length self.old }
        ensures ok { OnOk result (HasRoom self.new object) }
        ensures len { length self.new ≡ length self.old }
        ensures listings { listings self.new ≡ listings self.old }
    {
        let list = &mut self.lists[object.index()];
        list.reserve(1)
    }

    /// Lists the directory of the first name of an object that no name leads to yet. It does not allocate.
    pub fn start(&mut self, object: NodeId, directory: NodeId)
        requires { object < length self.old }
        ensures listings { listings self.new ≡ more_at object directory (none_at object (listings self.old)) }
        ensures len { length self.new ≡ length self.old }
    {
        let mut list = SmallVec::new(*self.lists.allocator());
        list.push_reserved(directory);
        self.lists[object.index()] = list;
    }

    /// Lists a directory that has one name more of an object, for a caller that has made room.
    pub fn add(&mut self, object: NodeId, directory: NodeId)
        requires { HasRoom self.old object }
        ensures listings { listings self.new ≡ more_at object directory (listings self.old) }
        ensures len { length self.new ≡ length self.old }
    {
        let list = &mut self.lists[object.index()];
        list.push_reserved(directory);
    }

    /// Lists these directories for an object that has names, and one that has one name more of it. It does not allocate.
    pub fn replace(&mut self, object: NodeId, room: LinkRoom, directory: NodeId)
        requires list { object < length self.old }
        requires room { HasRoomFor room 1 }
        ensures listings { listings self.new
            ≡ more_at object directory (listed_as object room.items (listings self.old)) }
        ensures len { length self.new ≡ length self.old }
    {
        let LinkRoom { mut directories } = room;
        directories.push_reserved(directory);
        self.lists[object.index()] = directories;
    }

    /// Lists a directory that has one name less of an object once less, if it is listed. It does not allocate.
    pub fn take(&mut self, object: NodeId, directory: NodeId)
        ensures listings { listings self.new ≡ less_at object directory (listings self.old) }
        ensures len { length self.new ≡ length self.old }
    {
        if let Some(list) = self.lists.get_mut(object.index()) {
            list_once_less(list, directory);
        }
    }

    /// Lists another directory in the place of one, as a name of an object moves there. It does not allocate.
    pub fn move_to(&mut self, object: NodeId, from: NodeId, to: NodeId)
        requires { 0 < listings self.old object from }
        ensures listings { listings self.new ≡ more_at object to (less_at object from (listings self.old)) }
        ensures len { length self.new ≡ length self.old }
    {
        if let Some(list) = self.lists.get_mut(object.index()) {
            list_instead(list, from, to);
        }
    }

    /// The directories that are listed for an object.
    pub fn directories(&self, object: NodeId) -> &[NodeId]
        ensures { result.now ≡ directories_for self.now object }
    {
        match self.lists.get(object.index()) {
            Some(list) => list.as_slice(),
            None => &[],
        }
    }
}

// Where a directory is listed first.
fn place_of(directories: &[NodeId], directory: NodeId) -> Option<usize>
    ensures { result ≡ position (λ other. nat_eq other directory) directories.now }
{
    directories.iter().position(|other| *other == directory)
}

// Lists a directory once less, if it is listed.
fn list_once_less(list: &mut Directories, directory: NodeId)
    ensures { (other : ℕ) → how_often other list.new.items
        ≡ how_often other list.old.items - one_if other directory }
{
    let Some(place) = place_of(list.as_slice(), directory) else {
        return;
    };
    list.swap_remove(place);
}

// Lists another directory in the place of one that is listed.
fn list_instead(list: &mut Directories, from: NodeId, to: NodeId)
    requires { 0 < how_often from list.old.items }
    ensures { (other : ℕ) → how_often other list.new.items
        ≡ how_often other list.old.items - one_if other from + one_if other to }
{
    let Some(place) = place_of(list.as_slice(), from) else {
        return;
    };
    list[place] = to;
}
