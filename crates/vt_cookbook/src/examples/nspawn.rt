//! `examples/nspawn.vt`, by `checks/cookbook --write`.

/// The script.
pub static SCRIPT: &str = "\
# systemd-nspawn where the kernel refuses pivot_root: all mounts become slaves, the tree of the container is bound onto\n\
# itself and moved to `/`, then `chroot`. `version-2/nspawn-pivot.vt` has the pivot.\n\
\n\
t mkdir /var\n\
t mkdir /var/lib\n\
t mkdir /var/lib/machines\n\
t mkdir /var/lib/machines/deb\n\
t mkdir /var/lib/machines/deb/run\n\
t rtype / shared\n\
t fork                                  => ok t.1\n\
t.1 unshare\n\
t.1 rtype / slave\n\
t.1 bind /var/lib/machines/deb /var/lib/machines/deb\n\
t.1 mount plain /var/lib/machines/deb/run\n\
t.1 chdir /var/lib/machines/deb\n\
t.1 move . /\n\
t.1 move /var/lib/machines/deb /        => deny 40 ELOOP M6\n\
t.1 chroot .\n\
t.1 chdir /\n\
t.1 ls /                                => ok run\n\
t.1 ls ..                               => ok run\n\
t.1 rtype / shared\n\
t.1 mounts                              => ok 3\n\
=> 1 - - plain:1 / rw slave:1\n\
=> 2 1 / plain:1 /var/lib/machines/deb rw shared:2,slave:1\n\
=> 3 2 /run plain:2 / rw shared:3\n\
";
