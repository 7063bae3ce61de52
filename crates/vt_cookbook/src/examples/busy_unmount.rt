//! `examples/busy-unmount.vt`, by `checks/cookbook --write`.

/// The script.
pub static SCRIPT: &str = "\
# Why an unmount is busy, also for a task of another namespace, and how a private copy of a mount stays behind.\n\
\n\
t mkdir /mnt\n\
t mount plain /mnt\n\
t write /mnt/f x\n\
t rtype / shared\n\
t fork                                  => ok t.1\n\
t.1 unshare\n\
t.1 open /mnt/f r                       => ok 0\n\
t umount /mnt                           => deny 16 EBUSY M8\n\
t fork                                  => ok t.2\n\
t.2 unshare\n\
t.2 chdir /mnt\n\
t.1 close 0\n\
t umount /mnt                           => deny 16 EBUSY M8\n\
t.2 chdir /\n\
t umount /mnt\n\
# a leak: private copy\n\
t mount plain /mnt\n\
t.1 rtype / private\n\
t umount /mnt\n\
t.1 mounts                              => ok 2\n\
=> 1 - - plain:1 / rw private\n\
=> 2 1 /mnt plain:2 / rw private\n\
t rmdir /mnt\n\
t.1 ls /\n\
";
