//! `examples/lazy-unmount.vt`, by `checks/cookbook --write`.

/// The script.
pub static SCRIPT: &str = "\
# A lazy unmount: the name is free at once, and the file goes with its last descriptor.\n\
\n\
t mkdir /m\n\
t mount plain /m\n\
t write /m/log start\n\
t open /m/log rw                        => ok 0\n\
t umount /m                             => deny 16 EBUSY M8\n\
t lazy /m\n\
t pwrite 0 5 -more\n\
t pread 0 0 100                         => ok start-more\n\
t ls /m\n\
t mounts                                => ok 1\n\
=> 1 - - plain:1 / rw private\n\
t close 0\n\
t pread 0 0 1                           => deny 9 EBADF S4\n\
";
