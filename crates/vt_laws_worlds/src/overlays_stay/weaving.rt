//! *Woven* lists (`woven`) are plain filesystems and overlays, kept apart, put together in the order of their numbers.
//! But for the last law they are any lists.
ghost use Rattle.vt_laws_worlds.specs.OverlaysStay.Woven.{LeftWorldsAreWoven, PlainOnesAreFound, RisingListsAreWoven, WovenListsAreAlike, WovenListsAreFailing, WovenListsAreFiltered, WovenListsArePassing, WovenListsPassAll};

/// A list with rising numbers, parted by a test, is woven again (`rising`). Two lists with rising numbers, parted by a
/// test, are parted by it when woven (`failing`, `passing`), and filtered as both are (`filtered`).
///
/// The test fails one list and passes the other. `failing` needs no rising numbers, `passing` only in the list that
/// passes, and `filtered` in that and in what is woven.
pub fn rising_lists_are_woven()
    ensures rising { RisingListsAreWoven }
    ensures passing { WovenListsArePassing }
    ensures failing { WovenListsAreFailing }
    ensures filtered { WovenListsAreFiltered }
{}

/// All that are woven pass a test just if all of both lists do (`all`). Lists that are the same (`SameFilesystems`) are
/// woven `alike`. A number that no overlay has is `found` among the plain ones.
pub fn woven_lists_have_both()
    ensures all { WovenListsPassAll }
    ensures alike { WovenListsAreAlike }
    ensures found { PlainOnesAreFound }
{}

/// Filesystems are woven with rising numbers, a new one with the greatest, no overlay has an upper layer, and all are
/// named. A permit leaves the plain ones that are left, woven with the mounted overlays.
pub fn worlds_that_are_left_are_woven()
    ensures { LeftWorldsAreWoven }
{}
