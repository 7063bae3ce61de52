//! Laws of births.
ghost use Rattle.vt_births.specs.Births.{NodesAboveAreApart, NodesAboveFindTheirSlots, NumbersAboveAreByBirths};

/// A node that has its object in a slot of the upper layer finds this slot.
pub fn nodes_above_find_their_slots()
    ensures { NodesAboveFindTheirSlots }
{}

/// Two slots of the upper layer that have a node of one number are one slot.
pub fn nodes_above_are_apart()
    ensures { NodesAboveAreApart }
{}

/// A node that has its object in the upper layer has the number of that object: the number by its birth, if it is a copy,
/// else the number with which it was born there.
pub fn numbers_above_are_by_births()
    ensures { NumbersAboveAreByBirths }
{}
