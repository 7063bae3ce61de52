//! Every world that a script without overlays leads to.
ghost use Rattle.vt_laws_worlds.specs.Worlds.Calls.{AllPermitsFit, CallsKeepWorlds, ScriptsLeadToWorlds};

/// What a call of an existing task but `mount overlay` is permitted by unused numbers fits (`IsFitPermit`): what it
/// changes or names exists, and no namespace gets too many mounts.
///
/// Locations at which it changes something, and mounts and namespaces that it names, are of the right kind. Of what it
/// only looks at this says nothing.
pub fn what_is_permitted_is_there()
    ensures { AllPermitsFit }
{}

/// After each call but `mount overlay` a plain world is plain and has all invariants.
pub fn every_call_keeps_the_invariants()
    ensures { CallsKeepWorlds }
{}

/// Every world that a script without overlays leads to is plain and has all invariants.
pub fn scripts_lead_to_worlds()
    ensures { ScriptsLeadToWorlds }
{}
