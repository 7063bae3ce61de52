//! The turns of a call.
use crate::aims::{Aim, Route, routes_of};
use crate::words::{View, words_of};
use std::alloc::{AllocError, Global};
use vt_looks::Look;
use vt_ns::World;
use vt_options::LayerOptions;
use vt_request::{Call, MountCall, TaskName};
use vt_text::path::PathText;
use vt_walk::{
    destination_walk, directory_walk, file_walk, new_leaf_walk, new_walk, object_walk,
    old_leaf_walk, old_walk, rename_new_walk, source_walk, symlink_walk,
};

// Whether the old name of a rename is that of a directory, or leads nowhere.
fn is_directory_renamed(view: View<'_>, old: Option<Route<'_>>) -> bool {
    let Some(route) = old else {
        return true;
    };
    let Ok(path) = PathText::parse(route.path) else {
        return true;
    };
    match old_leaf_walk(view.world, view.who, &path) {
        Ok(place) => { matches!(view.world.node(place.object), Some(node) if node.is_directory()) }
        Err(_) => true,
    }
}

// Whether a walk is refused. The old name of a rename decides on a slash behind the new one.
fn is_refused(view: View<'_>, path: &PathText<'_>, aim: Aim, old: Option<Route<'_>>) -> bool {
    let View { world, who, .. } = view;
    match aim {
        Aim::Object => object_walk(world, who, path).is_err(),
        Aim::Directory => directory_walk(world, who, path).is_err(),
        Aim::Symlink => symlink_walk(world, who, path).is_err(),
        Aim::New => new_walk(world, who, path).is_err(),
        Aim::NewLeaf => new_leaf_walk(world, who, path).is_err(),
        Aim::Renamed => {
            rename_new_walk(world, who, path, is_directory_renamed(view, old)).is_err()
        }
        Aim::Old => old_walk(world, who, path).is_err(),
        Aim::OldLeaf => old_leaf_walk(world, who, path).is_err(),
        Aim::File => file_walk(world, who, path).is_err(),
        Aim::Source => source_walk(world, who, path).is_err(),
        Aim::Destination => destination_walk(world, who, path).is_err(),
    }
}

// The words of a call's walks, and whether one of them is refused, which then is the last.
#[derive(Clone, Copy)]
struct Passed {
    words: u64,
    is_refused: bool,
}

impl Passed {
    // Walks a path more, if none was refused before it. One that may not be walked has no word.
    fn walk(
        &mut self,
        view: View<'_>,
        route: Route<'_>,
        old: Option<Route<'_>>,
    ) -> Result<(), AllocError> {
        if self.is_refused {
            return Ok(());
        }
        let Ok(path) = PathText::parse(route.path) else {
            return Ok(());
        };
        let words = words_of(view, route)?;
        self.words = self.words.saturating_add(words);
        self.is_refused = words > 0 && is_refused(view, &path, route.aim, old);
        Ok(())
    }

    // Walks to a layer of an overlay.
    fn walk_layer(&mut self, view: View<'_>, path: &[u8]) -> Result<(), AllocError> {
        let route = Route {
            path,
            aim: Aim::Source,
        };
        self.walk(view, route, None)
    }

    // Walks to the layers of an overlay with these options.
    fn walk_layers(
        &mut self,
        view: View<'_>,
        options: &LayerOptions<'_>,
    ) -> Result<(), AllocError> {
        for path in options.lowers() {
            self.walk_layer(view, path)?;
        }
        if let Some(path) = options.upper() {
            self.walk_layer(view, path)?;
        }
        if let Some(path) = options.work() {
            self.walk_layer(view, path)?;
        }
        Ok(())
    }
}

/// How many turns the call of a task takes, unless a rule refuses it before its first word.
pub fn turns_of(
    alloc: Global,
    world: &World,
    name: &TaskName,
    call: &Call<'_>,
) -> Result<u64, AllocError> {
    let Some(who) = world.task(name) else {
        return Ok(1);
    };
    let view = View { alloc, world, who };
    let mut passed = Passed {
        words: 0,
        is_refused: false,
    };
    let [first, second] = routes_of(call);
    if let Some(route) = first {
        passed.walk(view, route, None)?;
    }
    if let Some(route) = second {
        passed.walk(view, route, first)?;
    }
    if let Call::Mount(
        MountCall::Overlay {
            options: Ok(options),
            ..
        },
    ) = call
    {
        passed.walk_layers(view, options)?;
    }
    Ok(passed.words.saturating_add(u64::from(!passed.is_refused)))
}
