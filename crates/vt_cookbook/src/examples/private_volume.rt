//! `examples/private-volume.vt`, by `checks/cookbook --write`.

/// The script.
pub static SCRIPT: &str = "\
# Docker's default for a volume: it is bound `rprivate`. Later mounts and unmounts of the host do not reach it. It keeps\n\
# copies of what was mounted when the container began, so that a disk that the host unmounts stays in use.\n\
\n\
# The host has a data directory and a disk mounted in it; all of its mounts are shared, as systemd makes them.\n\
t mkdir /data\n\
t mount plain /data\n\
t mkdir /data/disk\n\
t mkdir /data/late\n\
t mount plain /data/disk\n\
t write /data/disk/f content\n\
t mkdir /box\n\
t mkdir /box/volume\n\
t rtype / shared\n\
\n\
# docker run -v /data:/volume. The runtime makes slaves of all mounts of the new namespace, binds the volume with all that is\n\
# mounted in it, and makes the copies private. A bind of a slave is a slave, so this last step is needed.\n\
t fork                                  => ok t.1\n\
t.1 unshare\n\
t.1 rtype / slave\n\
t.1 rbind /data /box/volume\n\
t.1 mounts                              => ok 5\n\
=> 1 - - plain:1 / rw slave:1\n\
=> 2 1 /data plain:2 / rw slave:2\n\
=> 3 2 /disk plain:3 / rw slave:3\n\
=> 4 1 /box/volume plain:2 / rw slave:2\n\
=> 5 4 /disk plain:3 / rw slave:3\n\
t.1 rtype /box/volume private\n\
t.1 mounts                              => ok 5\n\
=> 1 - - plain:1 / rw slave:1\n\
=> 2 1 /data plain:2 / rw slave:2\n\
=> 3 2 /disk plain:3 / rw slave:3\n\
=> 4 1 /box/volume plain:2 / rw private\n\
=> 5 4 /disk plain:3 / rw private\n\
# /proc/self/mountinfo of Linux: / master:1, /data master:2, /data/disk master:3, and no such field for /box/volume and\n\
# /box/volume/disk.\n\
\n\
# What the host mounts now comes to the container's copy of /data, and not into the volume.\n\
t mount plain /data/late\n\
t write /data/late/g x\n\
t.1 ls /data/late                       => ok g\n\
t.1 ls /box/volume/late\n\
\n\
# What the host unmounts stays in the volume, and is in use: on Linux the device could not be removed or formatted.\n\
t umount /data/disk\n\
t.1 ls /data/disk\n\
t.1 read /box/volume/disk/f             => ok content\n\
\n\
# Only an unmount in the container frees the disk, or its end: a container without CAP_SYS_ADMIN cannot unmount it.\n\
t.1 umount /box/volume/disk\n\
t.1 ls /box/volume/disk\n\
\n\
# Groups 1 and 2 have the host's mounts and the container's slaves; 3 is that of /data/late.\n\
! peers                                 => ok 3\n\
=> 1 - 1.1 2.1\n\
=> 2 - 1.2 2.2\n\
=> 3 - 1.3 2.4\n\
";
