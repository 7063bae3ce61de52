//! Where a walk begins, and where it has come to.
ghost use Rattle.std.specs.Prelude.{◌≡◌, ◌≤◌, option_copied, None};
ghost use Rattle.vt_spec.specs.Language.Limits.{most_symlinks};
ghost use Rattle.vt_spec.specs.Machine.Walking.{start_of};
ghost use Rattle.vt_location.specs.Locations.{location_of};
ghost use Rattle.vt_tasks.specs.TaskValue.{task_of};

use vt_location::Location;
use vt_node::Node;
use vt_tasks::Task;
use vt_text::link;

// The most symlinks that are followed for one path: MAXSYMLINKS, path_resolution(7).
pub(crate) const MOST_LINKS: usize = 40;

// The most texts that are walked at once: the path, and the text of each symlink that is followed.
pub(crate) const MOST_TEXTS: usize = MOST_LINKS + 1;

// Where a walk has come to, and how many symlinks it may still follow. And the real object there, where an entry led to
// it, so that it is not looked for again.
#[derive(Clone, Copy, Debug)]
pub(crate) struct Here<'a> {
    pub(crate) location: Location,
    pub(crate) left: usize,
    pub(crate) lent: Option<&'a Node>,
    ghost few: { left ≤ most_symlinks },
}

// Where the walk of a text begins: of an absolute one at the task's root, of any other in a directory.
#[inline(always)]
pub(crate) fn start_of(who: &Task, directory: Location, text: &[u8]) -> Location
    ensures { location_of result ≡ start_of (task_of who.now) (location_of directory) text.now }
{
    if link::is_absolute(text) {
        who.root
    } else {
        directory
    }
}

impl<'a> Here<'a> {
    ghost use Rattle.vt_spec.specs.Machine.Walking.{walk_start};
    ghost use Rattle.vt_walk.specs.WalkValue.{here_of};

    // A path begins at the task's root or in its working directory.
    pub(crate) fn at_start(who: &Task, path: &[u8]) -> Here<'a>
        ensures value { here_of result ≡ walk_start (task_of who.now) path.now }
        ensures lent { option_copied result.lent ≡ None }
    {
        Here {
            location: start_of(who, who.directory, path),
            left: MOST_LINKS,
            lent: None,
        }
    }
}
