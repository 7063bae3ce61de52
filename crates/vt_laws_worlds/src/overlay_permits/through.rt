//! A layer *stays* if paths lead from its directory where they led, and what is there keeps kind, owner, mode, names,
//! bytes and mark.
ghost use Rattle.vt_laws_worlds.specs.OverlayPermits.Through.{CallsGoThroughTheirLocation, CallsLeaveOtherLayers, EveryCallLeavesOtherLayers, LayersStayOverScripts, OtherCallsLeaveFilesystems, PlainCallsLeaveLayers};

/// Before the sweep, a granted call leaves all filesystems but the one that it changes and its upper layer's
/// (`location`), and all `layers` of overlays that it does not change.
///
/// - `location`: what lies or counts under upper and work directories of other overlays stays, but for inodes with
///   numbers handed in.
/// - `layers`: upper, work and lower ones stay, with what lies or counts under them. If the call changes a `plain`
///   filesystem, it is so of all overlays.
/// - `unchanged`: a call that changes no mount and asks for no change leaves all filesystems, in any world.
pub fn calls_go_through_their_location()
    ensures location { CallsGoThroughTheirLocation }
    ensures unchanged { OtherCallsLeaveFilesystems }
    ensures layers { CallsLeaveOtherLayers }
    ensures plain { PlainCallsLeaveLayers }
{}

/// The layers of an overlay, upper, work and lower, stay over each call (`calls`) that leaves it live and is granted no
/// change through it; so they do over `scripts`.
///
/// For `scripts`, from any line after which the overlay exists to any later one, this is so of each line between.
pub fn every_call_leaves_other_layers()
    ensures calls { EveryCallLeavesOtherLayers }
    ensures scripts { LayersStayOverScripts }
{}
