//! `examples/docker-volumes.vt`, by `checks/cookbook --write`.

/// The script.
pub static SCRIPT: &str = "\
# What `docker run` does with volumes: `-v /srv/data:/data` binds it private, and `bind-propagation=rshared` shares it. A\n\
# disk that the host mounts later shows in the second container alone, and what that one mounts shows on the host.\n\
\n\
t mkdir /srv\n\
t mkdir /srv/data\n\
t mkdir /srv/data/usb\n\
t mkdir /var\n\
t mkdir /var/lib\n\
t mkdir /var/lib/docker\n\
t mkdir /var/lib/docker/rootfs\n\
t mkdir /var/lib/docker/rootfs/data\n\
t mkdir /var/lib/docker/rootfs/data/usb\n\
t rtype / shared\n\
# container A : default\n\
t fork                                  => ok t.1\n\
t.1 unshare\n\
t.1 rtype / slave\n\
t.1 rbind /var/lib/docker/rootfs /var/lib/docker/rootfs\n\
t.1 rbind /srv/data /var/lib/docker/rootfs/data\n\
t.1 rtype /var/lib/docker/rootfs/data private\n\
t.1 chroot /var/lib/docker/rootfs\n\
t.1 chdir /\n\
# container B : rshared\n\
t bind /srv/data /srv/data\n\
t type /srv/data shared\n\
t fork                                  => ok t.2\n\
t.2 unshare\n\
t.2 type / private\n\
t.2 bind /var/lib/docker/rootfs /var/lib/docker/rootfs\n\
t.2 rbind /srv/data /var/lib/docker/rootfs/data\n\
t.2 rtype /var/lib/docker/rootfs/data shared\n\
t.2 chroot /var/lib/docker/rootfs\n\
# usb plugged in on host\n\
t mount plain /srv/data/usb\n\
t write /srv/data/usb/hello x\n\
t.1 ls /data/usb\n\
t.2 ls /data/usb                        => ok hello\n\
# B mounts something\n\
t.2 mkdir /data/drv\n\
t.2 mount plain /data/drv\n\
t mounts                                => ok 6\n\
=> 1 - - plain:1 / rw shared:1\n\
=> 2 1 /srv/data plain:1 /srv/data rw shared:1\n\
=> 3 2 /usb plain:2 / rw shared:2\n\
=> 4 1 /srv/data/usb plain:2 / rw shared:2\n\
=> 5 1 /srv/data/drv plain:3 / rw shared:3\n\
=> 6 2 /drv plain:3 / rw shared:3\n\
t.1 mounts                              => ok 8\n\
=> 1 - - plain:1 / rw slave:1\n\
=> 2 1 /var/lib/docker/rootfs plain:1 /var/lib/docker/rootfs rw slave:1\n\
=> 3 2 /data plain:1 /srv/data rw private\n\
=> 4 1 /srv/data plain:1 /srv/data rw slave:1\n\
=> 5 1 /srv/data/usb plain:2 / rw slave:2\n\
=> 6 4 /usb plain:2 / rw slave:2\n\
=> 7 1 /srv/data/drv plain:3 / rw slave:3\n\
=> 8 4 /drv plain:3 / rw slave:3\n\
t.2 mounts                              => ok 8\n\
=> 1 - - plain:1 / rw private\n\
=> 2 1 /srv/data plain:1 /srv/data rw shared:1\n\
=> 3 1 /var/lib/docker/rootfs plain:1 /var/lib/docker/rootfs rw private\n\
=> 4 3 /data plain:1 /srv/data rw shared:1\n\
=> 5 2 /usb plain:2 / rw shared:2\n\
=> 6 4 /usb plain:2 / rw shared:2\n\
=> 7 4 /drv plain:3 / rw shared:3\n\
=> 8 2 /drv plain:3 / rw shared:3\n\
! peers                                 => ok 3\n\
=> 1 - 1.1,1.2,3.2,3.4 2.1,2.2,2.4\n\
=> 2 - 1.3,1.4,3.5,3.6 2.5,2.6\n\
=> 3 - 1.5,1.6,3.7,3.8 2.7,2.8\n\
t umount /srv/data/usb\n\
";
