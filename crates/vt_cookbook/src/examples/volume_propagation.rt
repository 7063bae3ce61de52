//! `examples/volume-propagation.vt`, by `checks/cookbook --write`.

/// The script.
pub static SCRIPT: &str = "\
# Mount propagation of a Kubernetes volume: the three values of a container's `mountPropagation`.\n\
# Linux: mount(2) with MS_SHARED, MS_SLAVE and MS_PRIVATE; mount_namespaces(7).\n\
\n\
# The host makes all its mounts shared at boot, as systemd does. Each is then the one member of a peer group.\n\
t mkdir /pod\n\
t mkdir /box\n\
t mkdir /box/volume\n\
t mount plain /pod\n\
t mkdir /pod/disk\n\
t mkdir /pod/mine\n\
t rtype / shared\n\
t mounts                                => ok 2\n\
=> 1 - - plain:1 / rw shared:1\n\
=> 2 1 /pod plain:2 / rw shared:2\n\
# /proc/self/mountinfo of Linux has the same groups as optional fields, with numbers of its own:\n\
#   / shared:1, /pod shared:2\n\
\n\
# Three containers, each in a mount namespace of its own: /box is their root, and the volume is bound onto /box/volume.\n\
# A copied shared mount is a member of the group of the mount that it copies, so at first all of them are peers.\n\
t fork                                  => ok t.1\n\
t fork                                  => ok t.2\n\
t fork                                  => ok t.3\n\
t.1 unshare\n\
t.2 unshare\n\
t.3 unshare\n\
! peers                                 => ok 2\n\
=> 1 - 1.1,2.1,3.1,4.1 -\n\
=> 2 - 1.2,2.2,3.2,4.2 -\n\
\n\
# None, the default: the runtime makes slaves of the copied mounts, as runc does for each container, and the volume private.\n\
# (Runtimes bind a volume with all that is mounted in it, by rbind; nothing is yet.)\n\
t.1 rtype / slave\n\
t.1 bind /pod /box/volume\n\
t.1 rtype /box/volume private\n\
\n\
# HostToContainer: the volume stays a slave, too. Mounts of the host come in, and none goes out.\n\
t.2 rtype / slave\n\
t.2 bind /pod /box/volume\n\
\n\
# Bidirectional, for privileged containers alone: all mounts stay shared. Only the mount on which the container's root stands\n\
# is made private; else the bind of the volume would itself appear on the host.\n\
t.3 type / private\n\
t.3 bind /pod /box/volume\n\
\n\
# A line of the table has a group, its master (none here), its members and its slaves; a mount is NAMESPACE.NUMBER, where\n\
# namespaces are counted by their creation (the host's is 1, that of t.3 is 4) and places are the numbers of `mounts`. The\n\
# volume's group has the host's mount of it and both of the third container. Its slaves are what the first two containers\n\
# see at /pod, and the volume of the second (3.3). The volume of the first (2.3) stands nowhere: nothing reaches it.\n\
! peers                                 => ok 2\n\
=> 1 - 1.1 2.1,3.1\n\
=> 2 - 1.2,4.2,4.3 2.2,3.2,3.3\n\
\n\
# Each goes into its root.\n\
t.1 chroot /box\n\
t.2 chroot /box\n\
t.3 chroot /box\n\
\n\
# The host mounts a disk in the volume. It comes to the volumes of the second and the third container, not to the first's.\n\
t mount plain /pod/disk\n\
t write /pod/disk/data new\n\
t.1 ls /volume/disk\n\
t.2 read /volume/disk/data              => ok new\n\
t.3 read /volume/disk/data              => ok new\n\
\n\
# A mount of the second container stays in it. One of the third goes to the host, and from there to the second: this is how\n\
# a storage driver that runs in a container gives mounts to others.\n\
t.2 mount plain /volume/mine\n\
t ls /pod                               => ok disk mine\n\
t mounts                                => ok 3\n\
=> 1 - - plain:1 / rw shared:1\n\
=> 2 1 /pod plain:2 / rw shared:2\n\
=> 3 2 /disk plain:3 / rw shared:3\n\
t.2 umount /volume/mine\n\
t.3 mount plain /volume/mine\n\
t.3 write /volume/mine/hello x\n\
t ls /pod/mine                          => ok hello\n\
t.2 ls /volume/mine                     => ok hello\n\
t.1 ls /volume/mine\n\
\n\
# Linux, mountinfo of the second container: /volume master:2, /volume/disk master:3, /volume/mine master:4. It lists what\n\
# lies under the task's root; `mounts` lists the whole namespace.\n\
t.2 mounts                              => ok 7\n\
=> 1 - - plain:1 / rw slave:1\n\
=> 2 1 /pod plain:2 / rw slave:2\n\
=> 3 1 /box/volume plain:2 / rw slave:2\n\
=> 4 2 /disk plain:3 / rw slave:3\n\
=> 5 3 /disk plain:3 / rw slave:3\n\
=> 6 2 /mine plain:4 / rw slave:4\n\
=> 7 3 /mine plain:4 / rw slave:4\n\
\n\
# The host unmounts the disk, and with it go the copies at all receivers. One that is in use refuses the unmount for all of\n\
# them (M8: EBUSY).\n\
t.2 chdir /volume/disk\n\
t umount /pod/disk                      => deny 16 EBUSY M8\n\
t.2 chdir /\n\
t umount /pod/disk\n\
t.2 ls /volume/disk\n\
t.3 ls /volume/disk\n\
\n\
# When the third container ends, the mount that its driver made stays: it is the host's by now.\n\
t.3 exit\n\
t ls /pod/mine                          => ok hello\n\
! peers                                 => ok 3\n\
=> 1 - 1.1 2.1,3.1\n\
=> 2 - 1.2 2.2,3.2,3.3\n\
=> 3 - 1.3 2.4,3.4,3.5\n\
";
