//! `examples/pods-share-a-volume.vt`, by `checks/cookbook --write`.

/// The script.
pub static SCRIPT: &str = "\
# Two pods share a volume of the host with `mountPropagation: Bidirectional`: what a driver mounts in one pod shows in the\n\
# other and on the host, and an unmount anywhere goes everywhere.\n\
\n\
t mkdir /var\n\
t mkdir /var/vol\n\
t mkdir /pods\n\
t mkdir /pods/a\n\
t mkdir /pods/b\n\
t mkdir /pods/a/v\n\
t mkdir /pods/b/v\n\
t mount plain /var/vol\n\
t mkdir /var/vol/m\n\
t rtype / shared\n\
t fork 0 0 - *                          => ok t.1\n\
t fork 0 0 - *                          => ok t.2\n\
t.1 unshare\n\
t.2 unshare\n\
t.1 type / private\n\
t.2 type / private\n\
t.1 bind /var/vol /pods/a/v\n\
t.2 bind /var/vol /pods/b/v\n\
t.1 chroot /pods/a\n\
t.2 chroot /pods/b\n\
t.1 mount plain /v/m\n\
t.1 write /v/m/csi ok\n\
t.2 read /v/m/csi                       => ok ok\n\
t read /var/vol/m/csi                   => ok ok\n\
! peers                                 => ok 3\n\
=> 1 - 1.1 -\n\
=> 2 - 1.2,2.2,2.3,3.2,3.3 -\n\
=> 3 - 1.3,2.4,2.5,3.4,3.5 -\n\
t.1 exit\n\
t.2 ls /v/m                             => ok csi\n\
t.2 umount /v/m\n\
t ls /var/vol/m\n\
";
