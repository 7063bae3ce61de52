//! `examples/runc-root.vt`, by `checks/cookbook --write`.

/// The script.
pub static SCRIPT: &str = "\
# How runc makes a root with `--no-pivot`: slaves first, the mount of the bundle private, the bundle bound onto itself,\n\
# then moved to `/`, and `chroot`. A mount that is moved to `/` covers the root of its namespace. The usual way, by\n\
# `pivot_root`, is `version-2/runc-pivot.vt`.\n\
\n\
t mkdir /run\n\
t mkdir /run/bundle\n\
t mkdir /run/bundle/rootfs\n\
t mkdir /run/bundle/rootfs/proc\n\
t mkdir /run/bundle/rootfs/dev\n\
t mkdir /run/bundle/rootfs/dev/shm\n\
t mkdir /run/bundle/rootfs/etc\n\
t write /run/bundle/rootfs/etc/passwd root\n\
t rtype / shared\n\
t fork                                  => ok t.1\n\
t.1 unshare\n\
t.1 rtype / slave\n\
# rootfsParentMountPrivate\n\
t.1 type / private\n\
t.1 rbind /run/bundle/rootfs /run/bundle/rootfs\n\
t.1 mount plain /run/bundle/rootfs/proc\n\
t.1 mount plain /run/bundle/rootfs/dev\n\
t.1 mkdir /run/bundle/rootfs/dev/shm\n\
t.1 mount plain /run/bundle/rootfs/dev/shm rw,noexec\n\
t.1 remount /run/bundle/rootfs/proc ro\n\
t.1 chdir /run/bundle/rootfs\n\
t.1 umount .                            => deny 16 EBUSY M8\n\
t.1 move . /\n\
t.1 chroot .\n\
t.1 chdir /\n\
t.1 remount / ro\n\
t.1 write /etc/passwd hacked            => deny 30 EROFS F1\n\
t.1 write /dev/shm/x y\n\
t.1 drop *\n\
t.1 mounts                              => ok 5\n\
=> 1 - - plain:1 / rw private\n\
=> 2 1 / plain:1 /run/bundle/rootfs ro private\n\
=> 3 2 /proc plain:2 / ro private\n\
=> 4 2 /dev plain:3 / rw private\n\
=> 5 4 /shm plain:4 / rw,noexec private\n\
t mounts                                => ok 1\n\
=> 1 - - plain:1 / rw shared:1\n\
t.1 ls ..                               => ok dev etc proc\n\
";
