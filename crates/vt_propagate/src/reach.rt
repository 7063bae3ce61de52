//! The trait `Reach`.
ghost use Rattle.std.specs.Prelude.{◌≡◌, Bool, ℕ};
ghost use Rattle.vt_location.specs.Locations.{number_of};
ghost use Rattle.vt_location.specs.Numbers.{filesystem_number};

use vt_location::NodeRef;

/// What propagation asks of filesystems.
pub trait Reach {
    // in a filesystem, whether a directory is this one or lies under it: the filesystem, the upper directory, the other
    ghost under: { Self → ℕ → ℕ → ℕ → Bool };

    /// Whether a directory is the one above, or lies under it in that one's filesystem.
    fn is_under(&self, top: NodeRef, directory: NodeRef) -> bool
        ensures { result ≡ under self.now (filesystem_number top.filesystem) (number_of top) (number_of directory) };
}
