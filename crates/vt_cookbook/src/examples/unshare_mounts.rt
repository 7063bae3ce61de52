//! `examples/unshare-mounts.vt`, by `checks/cookbook --write`.

/// The script.
pub static SCRIPT: &str = "\
# unshare -m with `--propagation unchanged`, where an unmount goes to the host, and with its default, where it does not.\n\
\n\
t mkdir /mnt\n\
t mount plain /mnt\n\
t rtype / shared\n\
t fork                                  => ok t.1\n\
t.1 unshare\n\
t.1 umount /mnt\n\
t ls /mnt\n\
t mounts                                => ok 1\n\
=> 1 - - plain:1 / rw shared:1\n\
# and with unshare's default\n\
t mount plain /mnt\n\
t fork                                  => ok t.2\n\
t.2 unshare\n\
t.2 rtype / private\n\
t.2 umount /mnt\n\
t mounts                                => ok 2\n\
=> 1 - - plain:1 / rw shared:1\n\
=> 2 1 /mnt plain:2 / rw shared:2\n\
";
