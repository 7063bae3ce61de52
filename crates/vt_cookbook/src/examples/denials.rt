//! `examples/denials.vt`, by `checks/cookbook --write`.

/// The script.
pub static SCRIPT: &str = "\
# One denial after another, each with its rule. A denied call changes nothing.\n\
#\n\
# Rules are checked in the order S, K, W, E, F, L, P, C, O, B, M, and by number within a letter; the first\n\
# that fails answers. docs/RULES.md has all of them.\n\
\n\
t mkdir /d\n\
t write /d/f text\n\
t symlink f /d/link\n\
t symlink loop /loop\n\
t fork 7 7 - -                          => ok t.1\n\
\n\
# S: the script. No such call, no such task, no such descriptor.\n\
t frob /d                               => deny 22 EINVAL S1\n\
t.9 ls /                                => deny 3 ESRCH S2\n\
t pread 5 0 1                           => deny 9 EBADF S4\n\
\n\
# K: a capability. t.1 has none, so it cannot make a child with another uid.\n\
t.1 fork 8 7 - -                        => deny 1 EPERM K1\n\
\n\
# W: the walk of a path. A file in place of a directory, a missing name, a loop of symlinks, an empty path.\n\
t read /d/f/x                           => deny 20 ENOTDIR W3\n\
t read /d/missing                       => deny 2 ENOENT W6\n\
t read /loop                            => deny 40 ELOOP W7\n\
t read \\e                               => deny 2 ENOENT W1\n\
# A trailing slash asks for a directory, here of the file to which the symlink leads.\n\
t stat /d/link/                         => deny 20 ENOTDIR W3\n\
\n\
# E: the object. The name exists, a directory in place of a file, a directory that is not empty, no symlink.\n\
t mkdir /d                              => deny 17 EEXIST E1\n\
t read /d                               => deny 21 EISDIR E2\n\
t rmdir /d                              => deny 39 ENOTEMPTY E4\n\
t readlink /d/f                         => deny 22 EINVAL E5\n\
# A hard link of a directory.\n\
t link /d /e                            => deny 1 EPERM E7\n\
\n\
# C: rights. t.1 is neither owner nor in the group, so the others' bits count: read and search, no write.\n\
t.1 read /d/f                           => ok text\n\
t.1 write /d/f other                    => deny 13 EACCES C1\n\
t.1 unlink /d/f                         => deny 13 EACCES C1\n\
# Only the owner or a holder of CAP_FOWNER changes a mode.\n\
t.1 chmod /d/f 777                      => deny 1 EPERM C2\n\
\n\
# O: layers of an overlay, of which none is another one. F: an overlay without an upper layer is read-only. L: its layers\n\
# are locked while it is mounted. M: mounts; only the root of one can be unmounted.\n\
t mkdir /high\n\
t mkdir /low\n\
t mkdir /m\n\
t mount overlay /m lowerdir=/low:/low   => deny 40 ELOOP O5\n\
t mount overlay /m lowerdir=/high:/low\n\
t mkdir /m/x                            => deny 30 EROFS F2\n\
t mkdir /low/x                          => deny 16 EBUSY L1\n\
t umount /low                           => deny 22 EINVAL M7\n\
t umount /m\n\
t mkdir /low/x\n\
\n\
# Search. Without execute on a directory no path leads through it (W4), also for a file with every right.\n\
t chmod /d/f 777\n\
t chmod /d 744\n\
t.1 ls /d                               => ok f link\n\
t.1 read /d/f                           => deny 13 EACCES W4\n\
\n\
# A uid of 0 alone gives nothing: it is the capabilities that count. After `drop *` the first task is a user\n\
# like others, and here the owner.\n\
t chmod /d 0\n\
t ls /d                                 => ok f link\n\
t drop *\n\
t ls /d                                 => deny 13 EACCES C1\n\
t chmod /d 700\n\
t ls /d                                 => ok f link\n\
\n\
# Two rules fail at once: /d exists (E1), and t.1 may not write to / (C1). E comes first.\n\
t.1 mkdir /d                            => deny 17 EEXIST E1\n\
# Nothing was changed by any denial.\n\
t ls /                                  => ok d high loop low m\n\
t read /d/f                             => ok text\n\
";
