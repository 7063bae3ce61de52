//! `examples/image-of-three-layers.vt`, by `checks/cookbook --write`.

/// The script.
pub static SCRIPT: &str = "\
# An image of three layers, what a container of it sees, and why no layer changes while one runs.\n\
#\n\
# Docker, podman and containerd unpack each layer of an image once, and mount an overlay of them for each use. Here it\n\
# has no upper layer, as `podman image mount` and the views of containerd have none. The highest layer comes first.\n\
\n\
t mkdir /layers\n\
# The base: a shell and its libraries.\n\
t mkdir /layers/base\n\
t mkdir /layers/base/bin\n\
t write /layers/base/bin/sh shell\n\
t chmod /layers/base/bin/sh 755\n\
t mkdir /layers/base/etc\n\
t write /layers/base/etc/passwd root\n\
t write /layers/base/etc/motd welcome\n\
t mkdir /layers/base/cache\n\
t write /layers/base/cache/old x\n\
# RUN install: a program, and the cache made anew.\n\
t mkdir /layers/install\n\
t mkdir /layers/install/bin\n\
t write /layers/install/bin/app one\n\
t chmod /layers/install/bin/app 755\n\
t mkdir /layers/install/cache\n\
t opaque /layers/install/cache yes\n\
t write /layers/install/cache/new x\n\
# COPY and RUN rm: a newer program, and /etc/motd deleted.\n\
t mkdir /layers/top\n\
t mkdir /layers/top/bin\n\
t write /layers/top/bin/app two\n\
t chmod /layers/top/bin/app 755\n\
t mkdir /layers/top/etc\n\
t whiteout /layers/top/etc/motd\n\
\n\
t mkdir /run\n\
t mkdir /run/web\n\
t mount overlay /run/web lowerdir=/layers/top:/layers/install:/layers/base\n\
\n\
# What the container sees. Directories merge, and of two files the higher one is there.\n\
t fork                                  => ok t.1\n\
t.1 unshare\n\
t.1 chroot /run/web\n\
t.1 chdir /\n\
t.1 ls /                                => ok bin cache etc\n\
t.1 ls /bin                             => ok app sh\n\
t.1 read /bin/app                       => ok two\n\
t.1 exec /bin/sh\n\
# A whiteout hides what lies below it, and is not seen itself.\n\
t.1 ls /etc                             => ok passwd\n\
t.1 read /etc/motd                      => deny 2 ENOENT W6\n\
# An opaque directory shows nothing of the layers below it.\n\
t.1 ls /cache                           => ok new\n\
# Without an upper layer nothing can be changed, by root neither.\n\
t.1 write /etc/passwd nobody            => deny 30 EROFS F2\n\
t.1 unlink /bin/app                     => deny 30 EROFS F2\n\
t.1 mkdir /tmp                          => deny 30 EROFS F2\n\
# A tmpfs over one of its directories can.\n\
t.1 mount plain /cache\n\
t.1 write /cache/x 1\n\
t.1 ls /cache                           => ok x\n\
\n\
# A second container of the same base shares it: nothing is copied.\n\
t mkdir /run/shell\n\
t mount overlay /run/shell lowerdir=/layers/install:/layers/base\n\
t read /run/shell/etc/motd              => ok welcome\n\
t read /run/shell/bin/app               => ok one\n\
\n\
# While a container uses a layer, nobody changes it: what a running program has read would change under it. Linux says\n\
# that the outcome is undefined; here it is refused, whoever asks and through whatever mount.\n\
t write /layers/base/etc/passwd nobody  => deny 16 EBUSY L1\n\
t unlink /layers/top/etc/motd           => deny 16 EBUSY L1\n\
t rename /layers/install /layers/old    => deny 16 EBUSY L1\n\
t mkdir /mnt\n\
t bind /layers/base /mnt\n\
t write /mnt/etc/motd hello             => deny 16 EBUSY L1\n\
t umount /mnt\n\
# Its files can be read, and the image can be used again.\n\
t read /layers/base/etc/passwd          => ok root\n\
# One layer under another is no image, nor is the same one twice.\n\
t mount overlay /mnt lowerdir=/layers/top:/layers/top => deny 40 ELOOP O5\n\
t mount overlay /mnt lowerdir=/layers:/layers/base => deny 40 ELOOP O5\n\
\n\
# The container ends, with its namespace, and its copies of the mounts go. The host's overlays still stand.\n\
t.1 exit\n\
t write /layers/top/bin/app three       => deny 16 EBUSY L1\n\
t umount /run/web\n\
t write /layers/top/bin/app three\n\
# The base is in use as long as the other one is.\n\
t write /layers/base/etc/motd hello     => deny 16 EBUSY L1\n\
t umount /run/shell\n\
t write /layers/base/etc/motd hello\n\
";
