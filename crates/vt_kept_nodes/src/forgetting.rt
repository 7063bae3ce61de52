//! Nodes without a name that an overlay keeps no more, and their births: close(2) of what has lost its name.
ghost use Rattle.vt_kept_nodes.specs.Forgetting.{BirthsStayOneToOne, ForgettingGoesOn, KeptStayOwn, LastUsesAreForgotten, PinsForgetNothing};
ghost use Rattle.vt_kept_nodes.specs.Looked.{HeldAreKeptStill, KeptFindTheirObjects, OthersHaveTheirNumbers};

/// A pin forgets no node (`pins`), and an unpin one with its last use alone (`unpins`). What is forgotten in turn is
/// forgotten (`on`).
pub fn nodes_are_forgotten_in_turn()
    ensures pins { PinsForgetNothing }
    ensures unpins { LastUsesAreForgotten }
    ensures on { ForgettingGoesOn }
{}

/// Where nodes are forgotten with their births, those that are left stay one-to-one (`births`), and what is kept is the
/// overlay's own (`own`).
pub fn births_stay_with_their_nodes()
    ensures births { BirthsStayOneToOne }
    ensures own { KeptStayOwn }
{}

/// Over the same trees a node that is kept still has its real object (`objects`), so just these are held without a name
/// (`held`), and real objects of which no node is forgotten have their numbers (`numbers`).
pub fn kept_nodes_are_looked_at_alike()
    ensures objects { KeptFindTheirObjects }
    ensures held { HeldAreKeptStill }
    ensures numbers { OthersHaveTheirNumbers }
{}
