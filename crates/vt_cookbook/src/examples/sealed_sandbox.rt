//! `examples/version-2/sealed-sandbox.vt`, by `checks/cookbook --write`.

/// The script.
pub static SCRIPT: &str = "\
#!/usr/bin/env -S vtree test --script 2\n\
# Is a sandbox sealed off from the host? `! sealed TASK ..` tells of a set of tasks whether no other task is in their\n\
# mount namespaces, no mount there shares events with others, no other task uses one of these mounts, and no other\n\
# task can change a tree that they use. Linux: mount_namespaces(7).\n\
\n\
# The host shares all its mounts, as systemd does, and has data for the sandbox.\n\
t rtype / shared\n\
t mkdir /srv\n\
t write /srv/data d\n\
t mkdir /box\n\
t fork                                  => ok t.1\n\
t.1 unshare\n\
! sealed t.1                            => ok no\n\
\n\
# The sandbox makes its root, a tmpfs, and takes the host's data along. With slaves, events of the host still come in.\n\
t.1 rtype / slave\n\
t.1 mount plain /box\n\
t.1 mkdir /box/old\n\
t.1 mkdir /box/srv\n\
t.1 mkdir /box/tmp\n\
t.1 write /box/tmp/f own\n\
t.1 bind /srv /box/srv\n\
t.1 pivot_root /box /box/old\n\
t.1 chdir /\n\
t.1 lazy /old\n\
! sealed t.1                            => ok no\n\
\n\
# The bind is left: it is a slave of the host's mount, and shows the host's tree.\n\
t.1 mounts                              => ok 2\n\
=> 1 - - plain:1 / rw private\n\
=> 2 1 /srv plain:2 /srv rw slave:1\n\
t.1 type /srv private\n\
! sealed t.1                            => ok no\n\
t write /srv/data e\n\
t.1 read /srv/data                      => ok e\n\
\n\
# A copy in place of the bind: now nothing of the host reaches it.\n\
t.1 umount /srv\n\
t.1 write /srv/data e\n\
! sealed t.1                            => ok yes\n\
\n\
# A child belongs to the set once it is named, though it has a namespace of its own.\n\
t.1 fork                                => ok t.1.1\n\
t.1.1 unshare\n\
! sealed t.1                            => ok no\n\
! sealed t.1 t.1.1                      => ok yes\n\
t.1.1 exit\n\
! sealed t.1                            => ok yes\n\
\n\
# A shell of the host enters, and opens a file. It leaves, but keeps the file open.\n\
t fork                                  => ok t.2\n\
t.2 setns t.1\n\
! sealed t.1                            => ok no\n\
t.2 open /tmp/f rw                      => ok 0\n\
t.2 setns t\n\
! sealed t.1                            => ok no\n\
t.2 pwrite 0 0 bad\n\
t.1 read /tmp/f                         => ok bad\n\
t.2 close 0\n\
! sealed t.1                            => ok yes\n\
\n\
# The host is not sealed off from anybody while its own shell is not named.\n\
! sealed t                              => ok no\n\
! sealed t t.2                          => ok yes\n\
! sealed t t.3                          => deny 3 ESRCH S2\n\
";
