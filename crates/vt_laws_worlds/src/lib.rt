//! The invariants of a world, which every call of every script keeps, and what permits do to a world with them.
//!
//! *All invariants* (`IsWorld`) are those of trees, overlays, mounts, namespaces and tasks; that roots and mount points
//! of mounts exist; and that all is in use. Worlds have them unless a law says *any* world; *under way* they lack the
//! last. A *plain* world has no overlay. A world is *fit for overlays* if filesystems are trees, no upper layer is in
//! an overlay, and only inodes that exist have real objects.
//!
//! Worlds are *the same* (`SameWorlds`) but for change numbers and the order of the numbers beside trees. A world
//! *keeps to* some numbers if each renaming of others leaves it as it is (`KeepsTo`). Numbers are *unused* if none is
//! in use and no two are equal (`Serves`). The count `c` is the number `4·c + 1`; inodes have even numbers.
//!
//! *Each call*, granted or refused, is handed unused numbers, and a fork names at most 32 supplementary groups. A
//! permit is *given* if such a call of an existing task is given it (`IsGivenToTask`; not for `mount overlay`
//! `IsGiven`). It *leaves* the world that it makes, swept (`left_by`). A script *leads to* worlds from an opening world
//! without equal numbers, by unused numbers, whichever lines an allocation fails in (`LeadsTo`).
//!
//! Each public function is a theorem of the written policy, and does nothing.
#![tactic(auto)]

pub mod given;
pub mod kept;
pub mod merging;
pub mod one_text;
pub mod opening;
pub mod overlay_permits;
pub mod overlays_granted;
pub mod overlays_let_go;
pub mod overlays_read;
pub mod overlays_stay;
pub mod permits;
pub mod seen;
pub mod settling;
pub mod worlds;
