//! `examples/version-2/runc-pivot.vt`, by `checks/cookbook --write`.

/// The script.
pub static SCRIPT: &str = "\
#!/usr/bin/env -S vtree test --script 2\n\
# In version 2 (`--script 2`). How runc makes a root: all mounts become slaves, the mount of the bundle private, and the\n\
# bundle is bound onto itself and filled. After pivot_root(\".\", \".\") the old root stands on top of the new one, and is\n\
# unmounted from there, lazily. runc goes back to it by a descriptor; here the way is down into a directory and up again.\n\
\n\
t mkdir /run\n\
t mkdir /run/bundle\n\
t mkdir /run/bundle/rootfs\n\
t mkdir /run/bundle/rootfs/proc\n\
t mkdir /run/bundle/rootfs/dev\n\
t mkdir /run/bundle/rootfs/etc\n\
t write /run/bundle/rootfs/etc/passwd root\n\
t mkdir /home\n\
t mount plain /home\n\
t rtype / shared\n\
t fork                                  => ok t.1\n\
t.1 unshare\n\
# prepareRoot. With a shared parent of the new root a pivot would be refused by M12.\n\
t.1 rtype / slave\n\
t.1 type / private\n\
t.1 rbind /run/bundle/rootfs /run/bundle/rootfs\n\
t.1 mount plain /run/bundle/rootfs/proc\n\
t.1 mount plain /run/bundle/rootfs/dev\n\
t.1 mkdir /run/bundle/rootfs/dev/shm\n\
t.1 mount plain /run/bundle/rootfs/dev/shm rw,noexec\n\
t.1 chdir /run/bundle/rootfs\n\
# pivotRoot\n\
t.1 pivot_root . .\n\
t.1 ls /                                => ok dev etc proc\n\
t.1 mounts                              => ok 6\n\
=> 1 3 / plain:1 / rw private\n\
=> 2 1 /home plain:2 / rw slave:1\n\
=> 3 - - plain:1 /run/bundle/rootfs rw private\n\
=> 4 3 /proc plain:3 / rw private\n\
=> 5 3 /dev plain:4 / rw private\n\
=> 6 5 /shm plain:5 / rw,noexec private\n\
t.1 chdir /etc/..\n\
t.1 ls .                                => ok home run\n\
t.1 rtype . slave\n\
t.1 lazy .\n\
t.1 chdir /\n\
t.1 remount /proc ro\n\
t.1 remount / ro\n\
t.1 write /etc/passwd hacked            => deny 30 EROFS F1\n\
t.1 write /dev/shm/x y\n\
t.1 drop *\n\
# Nothing of the host is left, and the host sees nothing of this.\n\
t.1 mounts                              => ok 4\n\
=> 1 - - plain:1 /run/bundle/rootfs ro private\n\
=> 2 1 /proc plain:2 / ro private\n\
=> 3 1 /dev plain:3 / rw private\n\
=> 4 3 /shm plain:4 / rw,noexec private\n\
t.1 ls ..                               => ok dev etc proc\n\
t mounts                                => ok 2\n\
=> 1 - - plain:1 / rw shared:1\n\
=> 2 1 /home plain:2 / rw shared:2\n\
t ls /run/bundle/rootfs                 => ok dev etc proc\n\
";
