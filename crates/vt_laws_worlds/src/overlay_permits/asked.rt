//! What a permit asks of the filesystem that it changes.
ghost use Rattle.vt_laws_worlds.specs.OverlayPermits.Asked.{PermitsAskOverlaysWell, PermitsAskProperly, PermitsAskWell};
ghost use Rattle.vt_laws_worlds.specs.OverlayPermits.Unlocked.{PermitsSpareWhatIsLocked};

/// The change that a permit asks for is one that its tree lets pass (`proper`), within the limits of names, texts and
/// files, and spares what is `locked` (L1).
///
/// `all`: names are free, new inodes have new numbers, what goes has no names in it, nothing moves under itself, what
/// is written or copied exists. Through an overlay no whiteout is made and no mark set (O4). A directory moves only
/// where no uncut lower layer has one (O1).
///
/// The change is asked well of `overlays` with an upper layer (`IsAskedWell`). No locked inode of its filesystem gets
/// other names, bytes, attributes or mark, loses a name or is replaced. What is made in an overlay is made in its upper
/// layer (F2).
pub fn permits_ask_well()
    ensures all { PermitsAskWell }
    ensures proper { PermitsAskProperly }
    ensures overlays { PermitsAskOverlaysWell }
    ensures locked { PermitsSpareWhatIsLocked }
{}
