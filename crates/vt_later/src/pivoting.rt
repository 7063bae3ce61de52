//! The rules of pivot_root(2), each as a row.
ghost use Rattle.std.specs.Prelude.{◌≡◌, nat_eq};
ghost use Rattle.vt_spec.specs.Machine.Rules.Mounting.{pivot_rules};
ghost use Rattle.vt_location.specs.Locations.{location_of};
ghost use Rattle.vt_tasks.specs.TaskValue.{task_of};

use crate::passing::Row;
use vt_location::Location;
use vt_looks::Look;
use vt_rules::{
    has_shared_parent, is_elsewhere, is_no_root, is_on_descendant, is_same_mount, is_shared,
    lies_under,
};
use vt_spec::errors::Rule;
use vt_tasks::Task;

/// M2, M7, M11, M12, each whether it fails.
pub(crate) fn pivot_rows<L: Look>(world: &L, who: &Task, new: Location, put: Location) -> [Row; 4]
    ensures { result
        ≡ pivot_rules nat_eq (L.looks world.now) (task_of who.now) (location_of new) (location_of put) }
{
    let root = who.root;
    let elsewhere = is_elsewhere(world, who, root)
        | (is_elsewhere(world, who, new) | is_elsewhere(world, who, put));
    let no_root = is_no_root(world, new) | is_no_root(world, root);
    let at_root = is_same_mount(new.mount, root.mount) | is_same_mount(put.mount, root.mount);
    let misplaced = !is_on_descendant(world, root.mount, new)
        | (!lies_under(world, new, put)
            | (has_shared_parent(world, new)
                | (has_shared_parent(world, root) | is_shared(world, put.mount))));
    [
        (elsewhere, Rule::M2),
        (no_root, Rule::M7),
        (at_root, Rule::M11),
        (misplaced, Rule::M12),
    ]
}
