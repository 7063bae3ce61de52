//! Laws of the numbers of nodes.
ghost use Rattle.vt_location.specs.NodeNumbers.{BirthsAreNoInodes, NumbersAreOneToOne};

/// Two nodes with one number are one node (`one`). A node born below a layer has the number of no inode of a plain
/// filesystem (`inodes`). Counts, slots and places of layers are below 2^64.
///
/// Ranks are not limited.
pub fn numbers_are_one_to_one()
    ensures one { NumbersAreOneToOne }
    ensures inodes { BirthsAreNoInodes }
{}
