//! What the mounter of an overlay is asked for a change.

use vt_location::NodeRef;

/// A change of an overlay at a location, as far as its mounter is asked for it: he makes copies of what lies only in
/// lower layers, and writes in directories of the upper one.
#[derive(Clone, Copy, Debug)]
pub enum Asked {
    /// A name of the directory there is made with its object, or is removed: mkdir(2), unlink(2).
    Entry,
    /// The directory there gets a name of this object: link(2).
    Name { object: NodeRef },
    /// This object of the directory there gets a name in another directory, or in the same: rename(2).
    Rename { object: NodeRef, to: NodeRef },
    /// The object there is written to, gets other attributes, or is opened for writing: write(2), chmod(2), open(2).
    Object,
}
