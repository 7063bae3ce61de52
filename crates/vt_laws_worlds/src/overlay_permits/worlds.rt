//! Every world that a script leads to. A clause `scripts` is of any line after which an overlay exists and any later
//! one, if the overlay, of the same number, is live after each line between.
ghost use Rattle.vt_laws_worlds.specs.OverlayPermits.HiddenOverScripts.{EveryCallUncoversNothing, HiddenOverScripts};
ghost use Rattle.vt_laws_worlds.specs.OverlayPermits.LockedOverScripts.{EveryCallLeavesLowers, LowersStayOverScripts};
ghost use Rattle.vt_laws_worlds.specs.OverlayPermits.MountedOverScripts.{LinksOverScripts, MountedAnewOverScripts, SameLayersOverScripts};
ghost use Rattle.vt_laws_worlds.specs.OverlayPermits.EveryWorld.{EveryCallKeepsWorlds, EveryScriptLeadsToWorlds, SettlingLeavesEveryWorld};

/// Each call leaves a world with all invariants.
pub fn every_call_leaves_a_world()
    ensures { EveryCallKeepsWorlds }
{}

/// Every world that a script leads to has all invariants.
pub fn every_script_leads_to_worlds()
    ensures { EveryScriptLeadsToWorlds }
{}

/// The sweep of a world under way leaves one with all invariants.
pub fn the_sweep_leaves_a_world()
    ensures { SettlingLeavesEveryWorld }
{}

/// An overlay that is live after each call (`calls`, `scripts`) has its layers. Paths lead from lower ones where they
/// led, and what lies or counts under these keeps kind, owner, mode, names, bytes and mark.
///
/// It still lies or counts under them.
pub fn lower_layers_are_locked_over_scripts()
    ensures calls { EveryCallLeavesLowers }
    ensures scripts { LowersStayOverScripts }
{}

/// What a lower layer of an overlay shows at a path after each call that leaves it live (`calls`, `scripts`), it showed
/// there before.
pub fn what_is_hidden_stays_hidden()
    ensures calls { EveryCallUncoversNothing }
    ensures scripts { HiddenOverScripts }
{}

/// The remount law, `an_overlay_mounted_anew_shows_the_same`, holds of any two worlds to which one script or two lead
/// (`layers`, `same`, `links`). Numbers handed in are different, and no filesystem's.
pub fn an_overlay_mounted_anew_shows_the_same_over_scripts()
    ensures layers { MountedAnewOverScripts }
    ensures same { SameLayersOverScripts }
    ensures links { LinksOverScripts }
{}
