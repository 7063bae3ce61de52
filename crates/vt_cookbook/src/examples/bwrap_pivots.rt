//! `examples/version-2/bwrap-pivots.vt`, by `checks/cookbook --write`.

/// The script.
pub static SCRIPT: &str = "\
#!/usr/bin/env -S vtree test --script 2\n\
# In version 2 (`--script 2`). bwrap --ro-bind /usr /usr --tmpfs /tmp --dir /etc, which changes its root twice. The first\n\
# pivot makes a tmpfs the root, with the host's root at `oldroot`: what is bound from there into `newroot` may stand\n\
# anywhere. The second makes `newroot` the root.\n\
\n\
t mkdir /usr\n\
t mkdir /usr/bin\n\
t write /usr/bin/ls elf\n\
t chmod /usr/bin/ls 755\n\
t mkdir /tmp 1777\n\
t rtype / shared\n\
t fork                                  => ok t.1\n\
t.1 unshare\n\
t.1 rtype / slave\n\
t.1 mount plain /tmp\n\
t.1 chdir /tmp\n\
t.1 mkdir newroot\n\
t.1 rbind newroot newroot\n\
t.1 mkdir oldroot\n\
# The first pivot\n\
t.1 pivot_root /tmp oldroot\n\
t.1 chdir /\n\
t.1 ls /                                => ok newroot oldroot\n\
t.1 mkdir newroot/usr\n\
t.1 rbind oldroot/usr newroot/usr\n\
t.1 remount newroot/usr ro\n\
t.1 mkdir newroot/tmp\n\
t.1 mount plain newroot/tmp\n\
t.1 mkdir newroot/etc\n\
t.1 mounts                              => ok 5\n\
=> 1 2 /oldroot plain:1 / rw slave:1\n\
=> 2 - - plain:2 / rw private\n\
=> 3 2 /newroot plain:2 /newroot rw private\n\
=> 4 3 /usr plain:1 /usr ro slave:1\n\
=> 5 3 /tmp plain:3 / rw private\n\
t.1 rtype oldroot private\n\
t.1 lazy oldroot\n\
# The second pivot. bwrap goes back to the old root by a descriptor; here the way is down into a directory and up again.\n\
t.1 chdir /newroot\n\
t.1 pivot_root . .\n\
t.1 chdir /etc/..\n\
t.1 ls .                                => ok newroot oldroot\n\
t.1 lazy .\n\
t.1 chdir /\n\
t.1 ls /                                => ok etc tmp usr\n\
t.1 mounts                              => ok 3\n\
=> 1 - - plain:1 /newroot rw private\n\
=> 2 1 /usr plain:2 /usr ro slave:1\n\
=> 3 1 /tmp plain:3 / rw private\n\
t.1 fork 1000 1000 - -                  => ok t.1.1\n\
t.1.1 exec /usr/bin/ls\n\
t.1.1 write /usr/bin/ls x               => deny 30 EROFS F1\n\
t.1.1 ls ..                             => ok etc tmp usr\n\
t.1.1 pivot_root /tmp /tmp              => deny 1 EPERM K1\n\
t mounts                                => ok 1\n\
=> 1 - - plain:1 / rw shared:1\n\
";
