//! `examples/version-2/nspawn-pivot.vt`, by `checks/cookbook --write`.

/// The script.
pub static SCRIPT: &str = "\
#!/usr/bin/env -S vtree test --script 2\n\
# In version 2 (`--script 2`). systemd-nspawn: all mounts become slaves, the tree of the container is bound onto itself and\n\
# becomes the root by pivot_root(\".\", \".\"), the old root is unmounted lazily, and what is left becomes shared. Where the\n\
# kernel refuses the pivot, as on a rootfs, the tree is moved to `/` instead: `nspawn.vt`.\n\
\n\
t mkdir /var\n\
t mkdir /var/lib\n\
t mkdir /var/lib/machines\n\
t mkdir /var/lib/machines/deb\n\
t mkdir /var/lib/machines/deb/run\n\
t rtype / shared\n\
t fork                                  => ok t.1\n\
t.1 unshare\n\
# The new root stands on a shared mount.\n\
t.1 bind /var/lib/machines/deb /var/lib/machines/deb\n\
t.1 pivot_root /var/lib/machines/deb /var/lib/machines/deb => deny 22 EINVAL M12\n\
t.1 umount /var/lib/machines/deb\n\
t.1 rtype / slave\n\
t.1 bind /var/lib/machines/deb /var/lib/machines/deb\n\
t.1 mount plain /var/lib/machines/deb/run\n\
t.1 chdir /var/lib/machines/deb\n\
t.1 pivot_root . .\n\
t.1 chdir /run/..\n\
t.1 lazy .\n\
t.1 chdir /\n\
t.1 ls /                                => ok run\n\
t.1 ls ..                               => ok run\n\
t.1 rtype / shared\n\
t.1 mounts                              => ok 2\n\
=> 1 - - plain:1 /var/lib/machines/deb rw shared:1,slave:2\n\
=> 2 1 /run plain:2 / rw shared:3\n\
t mounts                                => ok 1\n\
=> 1 - - plain:1 / rw shared:1\n\
";
