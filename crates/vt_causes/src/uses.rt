//! What tasks have: roots, working directories and open files.
use std::alloc::AllocError;
use vt_location::Location;
use vt_ns::World;
use vt_request::Access;
use vt_tasks::Task;

/// What a task has at a place.
#[derive(Clone, Copy)]
pub enum Held {
    Root,
    Directory,
    /// An open file, by the number of its descriptor.
    File(u8, Access),
}

/// That a task has something at a place.
#[derive(Clone, Copy)]
pub struct Use<'a> {
    pub task: &'a Task,
    pub held: Held,
    pub at: Location,
}

/// What all tasks have, those of each one after the other.
pub fn uses_in(world: &World) -> Result<Vec<Use<'_>>, AllocError> {
    let mut uses = Vec::new(world.alloc());
    let mut failed = false;
    for task in world.tasks().kept() {
        let (held, at) = (Held::Root, task.root);
        failed |= uses.push(Use { task, held, at }).is_err();
        let (held, at) = (Held::Directory, task.directory);
        failed |= uses.push(Use { task, held, at }).is_err();
        for number in 0..=u8::MAX {
            if let Some(file) = task.descriptors.get(number) {
                let (held, at) = (Held::File(number, file.access), file.location);
                failed |= uses.push(Use { task, held, at }).is_err();
            }
        }
    }
    if failed { Err(AllocError) } else { Ok(uses) }
}

/// The place at which a task has this, if it has it.
pub fn held_by(task: &Task, held: Held) -> Option<Location> {
    match held {
        Held::Root => Some(task.root),
        Held::Directory => Some(task.directory),
        Held::File(number, _) => Some(task.descriptors.get(number)?.location),
    }
}
