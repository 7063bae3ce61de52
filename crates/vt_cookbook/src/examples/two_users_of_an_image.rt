//! `examples/two-users-of-an-image.vt`, by `checks/cookbook --write`.

/// The script.
pub static SCRIPT: &str = "\
# Who may read what an image holds: the caller, and who mounted it.\n\
#\n\
# The kernel asks of each access twice: whether the caller may do it to the object that the overlay shows, and whether\n\
# the mounter may do it to the object in the layer (the kernel's overlayfs document, \"permission model\"). So rootless\n\
# containers do not open to a user what the files of an image keep from the one who mounts it.\n\
\n\
t mkdir /image\n\
t mkdir /image/base\n\
t mkdir /image/base/etc\n\
t write /image/base/etc/hosts local\n\
t write /image/base/etc/shadow secret\n\
t chmod /image/base/etc/shadow 600\n\
t mkdir /image/base/root 700\n\
t write /image/base/root/key secret\n\
t mkdir /image/top\n\
t mkdir /mnt\n\
\n\
# A user mounts it: he has CAP_SYS_ADMIN, as in a user namespace, but no right to others' files.\n\
t fork 1000 1000 - CAP_SYS_ADMIN        => ok t.1\n\
t.1 mount overlay /mnt lowerdir=/image/top:/image/base\n\
t.1 read /mnt/etc/hosts                 => ok local\n\
t.1 read /mnt/etc/shadow                => deny 13 EACCES C1\n\
# Root reads the file in the layer, and not through his overlay.\n\
t read /image/base/etc/shadow           => ok secret\n\
t read /mnt/etc/shadow                  => deny 13 EACCES B1\n\
t ls /mnt/root                          => deny 13 EACCES B1\n\
t read /mnt/root/key                    => deny 13 EACCES W5\n\
t stat /mnt/root                        => ok dir 0700 0 0\n\
t umount /mnt\n\
\n\
# Root mounts it: the caller's rights decide.\n\
t mount overlay /mnt lowerdir=/image/top:/image/base\n\
t read /mnt/etc/shadow                  => ok secret\n\
t.1 read /mnt/etc/shadow                => deny 13 EACCES C1\n\
t.1 read /mnt/root/key                  => deny 13 EACCES W4\n\
t.1 read /mnt/etc/hosts                 => ok local\n\
";
