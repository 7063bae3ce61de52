//! `examples/slave-root.vt`, by `checks/cookbook --write`.

/// The script.
pub static SCRIPT: &str = "\
# A container whose mounts are slaves (`rslave`), as runc begins each container: unmounts of the host reach it, so that it\n\
# does not keep a disk in use, and nothing that it mounts goes to the host.\n\
\n\
# The host: a disk under /media, all mounts shared.\n\
t mkdir /media\n\
t mkdir /media/disk\n\
t mkdir /root\n\
t mount plain /media/disk\n\
t write /media/disk/f content\n\
t rtype / shared\n\
\n\
# The container's namespace: all mounts become slaves of the host's, recursively and in one call.\n\
t fork                                  => ok t.1\n\
t.1 unshare\n\
t.1 rtype / slave\n\
! peers                                 => ok 2\n\
=> 1 - 1.1 2.1\n\
=> 2 - 1.2 2.2\n\
# A line of the table: group, its master, its members, its slaves, a mount as NAMESPACE.NUMBER. Linux: the container's\n\
# mountinfo has master:1 and master:2 where the host's has shared:1 and shared:2.\n\
\n\
# It mounts what it needs, and the host sees nothing of it. A mount on a slave is private.\n\
t.1 mount plain /root\n\
t.1 mkdir /root/proc\n\
t.1 mount plain /root/proc\n\
t.1 mounts                              => ok 4\n\
=> 1 - - plain:1 / rw slave:1\n\
=> 2 1 /media/disk plain:2 / rw slave:2\n\
=> 3 1 /root plain:3 / rw private\n\
=> 4 3 /proc plain:4 / rw private\n\
t ls /root\n\
\n\
# The host mounts and unmounts, and the container follows.\n\
t mkdir /media/second\n\
t mount plain /media/second\n\
t.1 ls /media                           => ok disk second\n\
t.1 mounts                              => ok 5\n\
=> 1 - - plain:1 / rw slave:1\n\
=> 2 1 /media/disk plain:2 / rw slave:2\n\
=> 3 1 /root plain:3 / rw private\n\
=> 4 3 /proc plain:4 / rw private\n\
=> 5 1 /media/second plain:5 / rw slave:3\n\
t umount /media/second\n\
t umount /media/disk\n\
t.1 mounts                              => ok 3\n\
=> 1 - - plain:1 / rw slave:1\n\
=> 2 1 /root plain:2 / rw private\n\
=> 3 2 /proc plain:3 / rw private\n\
\n\
# Made private, the container is cut off.\n\
t.1 rtype / private\n\
t mount plain /media/disk\n\
t.1 ls /media/disk\n\
t.1 mounts                              => ok 3\n\
=> 1 - - plain:1 / rw private\n\
=> 2 1 /root plain:2 / rw private\n\
=> 3 2 /proc plain:3 / rw private\n\
! peers                                 => ok 2\n\
=> 1 - 1.1 -\n\
=> 2 - 1.2 -\n\
\n\
# A slave may be made shared: it is then both. Events of the host come in, and go on to the container's own peers.\n\
t fork                                  => ok t.2\n\
t.2 unshare\n\
t.2 rtype / slave\n\
t.2 type / shared\n\
t.2 fork                                => ok t.2.1\n\
t.2.1 unshare\n\
t mount plain /media/second\n\
t.2 mounts                              => ok 3\n\
=> 1 - - plain:1 / rw shared:1,slave:2\n\
=> 2 1 /media/disk plain:2 / rw slave:3\n\
=> 3 1 /media/second plain:3 / rw shared:4,slave:5\n\
t.2.1 mounts                            => ok 3\n\
=> 1 - - plain:1 / rw shared:1,slave:2\n\
=> 2 1 /media/disk plain:2 / rw slave:3\n\
=> 3 1 /media/second plain:3 / rw shared:4,slave:5\n\
! peers                                 => ok 5\n\
=> 1 - 1.1 -\n\
=> 2 - 1.2 3.2,4.2\n\
=> 3 - 1.3 -\n\
=> 4 1 3.1,4.1 -\n\
=> 5 3 3.3,4.3 -\n\
# Of the last table groups 1 to 3 are the host's: /, /media/disk and /media/second. Groups 4 and 5 are the two containers',\n\
# with masters 1 and 3: what the host mounts comes to both, and what one of them mounts goes to the other alone. The two\n\
# /media/disk are slaves of group 2 and of no group of their own. Linux, in the two namespaces, where no other groups\n\
# exist: / shared:3 master:1, /media/disk master:2, /media/second shared:5 master:4.\n\
";
