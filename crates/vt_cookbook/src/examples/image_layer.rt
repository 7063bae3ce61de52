//! `examples/image-layer.vt`, by `checks/cookbook --write`.

/// The script.
pub static SCRIPT: &str = "\
# What a layer of an image holds once it is unpacked: files, whiteouts and opaque directories.\n\
#\n\
# A layer says of a name below it that it is gone by a whiteout (in the archive a file `.wh.NAME`), and of a directory\n\
# that nothing below shows in it by a mark (`.wh..wh..opq`). Whoever unpacks an archive makes these by mknod(2) and\n\
# setxattr(2). Before an overlay is mounted they are objects and marks of plain directories, and hide nothing.\n\
\n\
t mkdir /layers\n\
t mkdir /layers/base\n\
t mkdir /layers/base/etc\n\
t write /layers/base/etc/motd welcome\n\
t mkdir /layers/base/cache\n\
t write /layers/base/cache/old x\n\
\n\
# The next layer deletes /etc/motd, and replaces /cache by a new directory.\n\
t mkdir /layers/next\n\
t mkdir /layers/next/etc\n\
t whiteout /layers/next/etc/motd\n\
t mkdir /layers/next/cache\n\
t opaque /layers/next/cache yes\n\
t write /layers/next/cache/new x\n\
t lstat /layers/next/etc/motd           => ok white 0000 0 0\n\
t stat /layers/next/cache               => ok dir 0755 0 0 opaque\n\
t ls /layers/next/etc                   => ok motd\n\
t read /layers/base/etc/motd            => ok welcome\n\
\n\
# A whiteout is a device that no driver has: nobody opens it, whatever its mode.\n\
t chmod /layers/next/etc/motd 666\n\
t read /layers/next/etc/motd            => deny 6 ENXIO E9\n\
t write /layers/next/etc/motd hello     => deny 6 ENXIO E9\n\
# A file takes its place by rename(2), as a builder writes a file that a former layer deleted.\n\
t write /layers/next/etc/.new hello\n\
t rename /layers/next/etc/.new /layers/next/etc/motd\n\
t read /layers/next/etc/motd            => ok hello\n\
\n\
# A whiteout counts as an entry: who removes a layer unlinks it first.\n\
t whiteout /layers/next/etc/passwd\n\
t unlink /layers/next/etc/motd\n\
t rmdir /layers/next/etc                => deny 39 ENOTEMPTY E4\n\
t unlink /layers/next/etc/passwd\n\
t rmdir /layers/next/etc\n\
\n\
# A user who unpacks an image in his own directory makes whiteouts, but marks no directory: that needs CAP_SYS_ADMIN.\n\
t mkdir /home\n\
t chown /home 1000 1000\n\
t fork 1000 1000 - -                    => ok t.1\n\
t.1 mkdir /home/layer\n\
t.1 whiteout /home/layer/motd\n\
t.1 opaque /home/layer yes              => deny 1 EPERM K1\n\
";
