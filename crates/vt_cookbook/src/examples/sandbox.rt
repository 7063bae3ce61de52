//! `examples/sandbox.vt`, by `checks/cookbook --write`.

/// The script.
pub static SCRIPT: &str = "\
# A sandbox as a build tool makes it: a mount namespace of its own, the sources bound read-only, a tmpfs to work in,\n\
# and a changed root. Linux: unshare(2), mount(2) with MS_BIND, chroot(2).\n\
\n\
# The host has sources, and a directory that becomes the root of the sandbox.\n\
t mkdir /srv\n\
t mkdir /srv/src\n\
t write /srv/src/main v1\n\
t chmod /srv/src/main 755\n\
t mkdir /box\n\
t mkdir /box/src\n\
t mkdir /box/tmp\n\
\n\
# The sandbox: mounts that it makes from here on are its own.\n\
t fork                                  => ok t.1\n\
t.1 unshare\n\
t.1 bind /srv/src /box/src\n\
t.1 remount /box/src ro\n\
t.1 mount plain /box/tmp rw,noexec\n\
t.1 mounts                              => ok 3\n\
=> 1 - - plain:1 / rw private\n\
=> 2 1 /box/src plain:1 /srv/src ro private\n\
=> 3 1 /box/tmp plain:2 / rw,noexec private\n\
\n\
# It goes into its root. The order counts: without the second line its working directory would lie outside.\n\
t.1 chroot /box\n\
t.1 chdir /\n\
t.1 ls ..                               => ok src tmp\n\
t.1 drop *\n\
\n\
# It reads and runs what it was given, and may change nothing there, whoever owns it (F1). What it writes it cannot run (F3).\n\
t.1 read /src/main                      => ok v1\n\
t.1 exec /src/main\n\
t.1 write /src/main v2                  => deny 30 EROFS F1\n\
t.1 write /tmp/tool x\n\
t.1 chmod /tmp/tool 755\n\
t.1 exec /tmp/tool                      => deny 13 EACCES F3\n\
t.1 umount /src                         => deny 1 EPERM K1\n\
\n\
# The host sees none of these mounts, and still changes what the sandbox reads: a bind is the same tree.\n\
t mounts                                => ok 1\n\
=> 1 - - plain:1 / rw private\n\
t ls /box/tmp\n\
t write /srv/src/main v3\n\
t.1 read /src/main                      => ok v3\n\
\n\
# The host may even remove a directory on which the sandbox has a mount. That mount goes with it.\n\
t rmdir /box/tmp\n\
t.1 ls /tmp                             => deny 2 ENOENT W6\n\
t.1 mounts                              => ok 2\n\
=> 1 - - plain:1 / rw private\n\
=> 2 1 /box/src plain:1 /srv/src ro private\n\
\n\
# With its last task the namespace ends, and nothing is left of it.\n\
t.1 exit\n\
t ls /box                               => ok src\n\
t mounts                                => ok 1\n\
=> 1 - - plain:1 / rw private\n\
";
