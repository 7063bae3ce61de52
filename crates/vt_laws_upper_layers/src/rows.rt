//! What is made of the upper layer's tree, as a *row* of plain changes, each made of the tree that the one before left
//! (`after_row`). Names in directories stand in order.
ghost use Rattle.vt_laws_upper_layers.specs.Rows.{LinkedInARow, MadeInARow, MovedInARow, RemovedInARow};
ghost use Rattle.vt_laws_upper_layers.specs.RowsAbove.{CopiesInARow, RowsAreChangesAbove};

/// If what has a name is no directory, it may be removed before something is `made` or `linked` there. A name that is
/// `removed` leaves its whiteout, a move (`moved`) its whiteout and its mark. A directory that is removed or replaced
/// is emptied first, name by name.
///
/// The whiteout is a new inode, neither the directory of the name nor the one that is emptied. What is moved has no
/// other name than the old one there.
pub fn upper_changes_are_rows()
    ensures made { MadeInARow }
    ensures linked { LinkedInARow }
    ensures removed { RemovedInARow }
    ensures moved { MovedInARow }
{}

/// `copies` planned one in the other are a row. After the copies that a good change of a whole overlay needs, the row
/// that layers and places tell makes of the upper layer's tree what the change does (`changes`, `changed_above`).
///
/// New numbers are different, and no inode's of the upper layer's tree.
pub fn changes_of_overlays_are_rows()
    ensures copies { CopiesInARow }
    ensures changes { RowsAreChangesAbove }
{}
