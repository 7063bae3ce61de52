//! What the sweep at a call's end (`settled`) frees. Worlds are settled plain, unless a law says otherwise.
//!
//! To *look* at a thing is to free it if nothing uses it. *The losers are* some things if the sweep is to look at these
//! alone, one by one: mounts, filesystems, inodes of overlays with their real objects, inodes of plain trees, and
//! groups, whose master is removed. *Nothing is freed* if the sweep leaves the world as it is.
//!
//! Losers of a *location* are its mount and inode, and the mount's filesystem and root. Those of a *mount* are itself,
//! its filesystem and root, and the inodes of its mount point and its children's. *With layers* they are also the
//! filesystems of the layers of each filesystem among them, and directories of layers and upper objects of all these.
//! *Named groups* are any, if all others without members have no master afterwards. *Attached* mounts are in a
//! namespace. Filesystems are *numbered* if no two have one number.
//!
//! - *All in use* (`AllInUse`): each mount, filesystem and inode is used, and groups without members have no master.
//! - *Mounts stand* (`MountsStand`): they are numbered, nowhere outside, with mount points on attached mounts alone.
//! - *Locations stand* (`LocationsStand`): roots, working directories and descriptors are on existing mounts.
//! - *Trees* (`HasTrees`): filesystems are trees with the numbers of their inodes beside them; *plain trees*, if also
//!   none is an overlay.
//! - *Fit for overlays*: trees, no upper layer in an overlay (`UppersArePlain`), no real object of an inode that does
//!   not exist (`RealsAreThere`).
//! - *Settled* (`IsSettled`): all in use, fit for overlays, mounts stand.
//! - *Settled plain* (`IsSettledPlain`): all in use, plain trees, mounts stand.
//! - *On the way* (`KeepsMounts`): in the world, and after each of several changes without sweeps.
//!
//! *One sweep is enough* if a sweep before a change, or before and after each of several (`with_sweeps`), makes no
//! difference after the one at the end. A law `.._with_overlays` may say *the same* as the law whose name lacks these
//! words. Its worlds are settled, or fit for overlays, in place of settled plain, or of plain trees, and its losers are
//! with layers.

pub mod ends;
pub mod leaving;
pub mod mounting;
pub mod mounting_overlays;
pub mod sweeps;
