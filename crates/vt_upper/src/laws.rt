//! Laws of plans.
ghost use Rattle.vt_upper.specs.CopyLaws.{CopiesStay, CopiesStayHidden};
ghost use Rattle.vt_upper.specs.KeptLaws.{KeptChangesAboveAreMade, KeptChangesBelowAreMade};
ghost use Rattle.vt_upper.specs.LastName.{LastNamesLeaveNone};
ghost use Rattle.vt_upper.specs.Laws.{ChangesAboveAreMade, ChangesBelowAreMade};
ghost use Rattle.vt_upper.specs.LinkLaws.{LinksAreMade, PlansAboveAreOfPaths};
ghost use Rattle.vt_upper.specs.LosingLaws.{LosersAreHeld, UnnamedAreHeld};
ghost use Rattle.vt_upper.specs.NewLaws.{NewObjectsAreMade};
ghost use Rattle.vt_upper.specs.RemovalLaws.{NamesAreGone, NamesAreHidden};

use vt_laws_upper_layers::rows::changes_of_overlays_are_rows;

/// What a plan makes of the upper layer's tree is what the definitions' change makes of it: of an object that only lower
/// layers have (`below`), and of one in the upper layer (`above`).
///
/// The copies of a plan have the numbers that are handed out.
pub fn changes_are_made()
    ensures below { ChangesBelowAreMade }
    ensures above { ChangesAboveAreMade }
{}

/// So with an object that has lost its names while it is in use: one that a lower layer has (`below`), and one in the upper
/// layer (`above`).
///
/// The copy has the number that is handed out.
pub fn kept_changes_are_made()
    ensures below { KeptChangesBelowAreMade }
    ensures above { KeptChangesAboveAreMade }
{}

/// What a plan makes of the upper layer's tree for a new object is what the definitions' change makes of it, but for the
/// whiteout that had the name, which goes if nothing uses it.
///
/// Copies and the object have the numbers that are handed out. The object's slot was free before, so its number is new.
pub fn new_objects_are_made()
    ensures { NewObjectsAreMade }
{
    changes_of_overlays_are_rows();
}

/// A name that is removed from the merged tree is the last one of its node just if the node has none in that tree then.
pub fn last_names_leave_none()
    ensures { LastNamesLeaveNone }
{}

/// A node that loses its last name and is kept is held without a name then, with the real object that it was shown with.
/// What else is held stays as it was; so all does where the node has other names, or nothing is on it (`held`). So in the
/// definitions' merged tree without that name, what has no name is held with its real object, but for a node that is not
/// kept (`unnamed`).
///
/// The trees of the layers are those before the name goes, and the births those with the plan's copies.
pub fn losers_are_held()
    ensures held { LosersAreHeld }
    ensures unnamed { UnnamedAreHeld }
{}

/// What a plan makes of the upper layer's tree for a further name of an object is what the definitions' change makes of it,
/// but for the whiteout that had the name, which goes if nothing uses it (`made`). A plan of no copies is that of each path
/// that leads to its object in the upper layer (`above`).
///
/// Copies have the numbers that are handed out: those of the object even ones, and then those of the directory odd ones.
pub fn links_are_made()
    ensures made { LinksAreMade }
    ensures above { PlansAboveAreOfPaths }
{
    changes_of_overlays_are_rows();
}

/// What a plan makes of the upper layer's tree where it removes a name is what the definitions' change makes of it, but for
/// what had the name and what was in it, which go if nothing uses them: a whiteout hides what lower layers show there
/// (`hidden`), or they show nothing (`gone`).
///
/// Copies and the whiteout have the numbers that are handed out. The whiteout's slot was free before, so its number is new.
pub fn removals_are_made()
    ensures hidden { NamesAreHidden }
    ensures gone { NamesAreGone }
{
    changes_of_overlays_are_rows();
}

/// Where a name is removed and the node that had it is forgotten, each copy that has a birth is there still: a whiteout
/// gets the name (`hidden`), or nothing (`gone`).
///
/// Of what loses a name none is a copy, but what had it may be that of the node.
pub fn removals_keep_copies()
    ensures hidden { CopiesStayHidden }
    ensures gone { CopiesStay }
{}
