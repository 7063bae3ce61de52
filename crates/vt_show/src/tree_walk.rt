//! The objects of a tree, one after the other.
use crate::names::push_name;
use vt_check::draft::Draft;
use vt_location::NodeRef;
use vt_ns::World;

/// An object of a tree, under one of its names.
#[derive(Drop)]
pub struct Found {
    /// The path from the top, empty for the top itself.
    pub path: String,
    /// Where the last of its names begins.
    pub name: usize,
    /// How many names the path has.
    pub depth: usize,
    pub node: NodeRef,
}

/// A walk over a tree: each directory before what is in it, names in the order of their bytes.
#[derive(Drop)]
pub struct TreeWalk<'a> {
    world: &'a World,
    waiting: Vec<Found>,
    /// Whether an allocation failed, so that objects are missing.
    pub failed: bool,
}

impl<'a> TreeWalk<'a> {
    /// Before the first object, which is the top.
    pub fn new(world: &'a World, top: NodeRef) -> Self {
        let mut walk = TreeWalk {
            world,
            waiting: Vec::new(world.alloc()),
            failed: false,
        };
        let top = Found {
            path: String::new(world.alloc()),
            name: 0,
            depth: 0,
            node: top,
        };
        walk.failed = walk.waiting.push(top).is_err();
        walk
    }

    /// The next object, or nothing behind the last one.
    pub fn next(&mut self) -> Option<Found> {
        let found = self.waiting.pop()?;
        self.push_children(&found);
        Some(found)
    }

    // What is in a directory waits, the first name last.
    fn push_children(&mut self, found: &Found) {
        let store = self.world.store();
        let Some(object) = store.object(found.node) else {
            return;
        };
        match store.names(self.world.alloc(), found.node) {
            Ok(names) => {
                for name in names.iter().rev() {
                    if let Some(entry) = store.entry(found.node, object, name) {
                        let node = entry.node;
                        self.push_child(found, name, node);
                    }
                }
            }
            Err(_) => self.failed = true,
        }
    }

    // What a name leads to waits.
    fn push_child(&mut self, found: &Found, name: &[u8], node: NodeRef) {
        let mut path = Draft::new(self.world.alloc());
        path.push(found.path.as_str());
        path.push_char('/');
        let begin = path.len();
        push_name(&mut path, name);
        let Ok(path) = path.end() else {
            self.failed = true;
            return;
        };
        let child = Found {
            path,
            name: begin,
            depth: found.depth.saturating_add(1),
            node,
        };
        self.failed |= self.waiting.push(child).is_err();
    }
}

/// Appends the path from a directory to the first name of an object below it, and says whether there is one.
pub fn push_path_to(world: &World, top: NodeRef, object: NodeRef, path: &mut Draft) -> bool {
    let mut walk = TreeWalk::new(world, top);
    let mut is_found = false;
    for _ in 0..u64::MAX {
        let Some(found) = walk.next() else {
            break;
        };
        if found.node == object {
            path.push(found.path.as_str());
            is_found = true;
            break;
        }
    }
    if walk.failed {
        path.fail();
    }
    is_found
}
