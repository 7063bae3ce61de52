//! `examples/bwrap.vt`, by `checks/cookbook --write`.

/// The script.
pub static SCRIPT: &str = "\
# bwrap --ro-bind /usr /usr --tmpfs /tmp --bind ~/work /work --dir /etc, as a user without capabilities.\n\
\n\
t mkdir /usr\n\
t mkdir /usr/bin\n\
t write /usr/bin/ls elf\n\
t chmod /usr/bin/ls 755\n\
t mkdir /home\n\
t mkdir /home/me\n\
t mkdir /home/me/work\n\
t chown /home/me 1000 1000\n\
t chown /home/me/work 1000 1000\n\
t mkdir /tmp 1777\n\
t rtype / shared\n\
t fork                                  => ok t.1\n\
t.1 unshare\n\
t.1 rtype / slave\n\
t.1 mount plain /tmp\n\
t.1 mkdir /tmp/newroot\n\
t.1 mkdir /tmp/newroot/usr\n\
t.1 mkdir /tmp/newroot/tmp\n\
t.1 mkdir /tmp/newroot/work\n\
t.1 mkdir /tmp/newroot/etc\n\
t.1 rbind /usr /tmp/newroot/usr\n\
t.1 remount /tmp/newroot/usr ro\n\
t.1 mount plain /tmp/newroot/tmp\n\
t.1 chmod /tmp/newroot/tmp 1777\n\
t.1 bind /home/me/work /tmp/newroot/work\n\
t.1 chroot /tmp/newroot\n\
t.1 chdir /\n\
t.1 fork 1000 1000 - -                  => ok t.1.1\n\
t.1.1 exec /usr/bin/ls\n\
t.1.1 write /usr/bin/ls x               => deny 30 EROFS F1\n\
t.1.1 write /work/out data\n\
t.1.1 stat /work/out                    => ok file 0644 1000 1000 4\n\
t.1.1 write /tmp/x x\n\
t.1.1 write /etc/x x                    => deny 13 EACCES C1\n\
t.1.1 mkdir /tmp/d\n\
t.1.1 mount plain /tmp/d                => deny 1 EPERM K1\n\
t.1.1 ls /                              => ok etc tmp usr work\n\
t stat /home/me/work/out                => ok file 0644 1000 1000 4\n\
";
