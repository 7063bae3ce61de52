//! `examples/build-with-bind.vt`, by `checks/cookbook --write`.

/// The script.
pub static SCRIPT: &str = "\
# A build as with COPY --chown, RUN and USER: files are made by root, the context is bound read-only, and a user runs.\n\
\n\
t mkdir /ctx\n\
t mkdir /ctx/app\n\
t write /ctx/app/main code\n\
t mkdir /img\n\
t bind /img /img\n\
t fork                                  => ok t.1\n\
t.1 unshare\n\
t.1 rtype / private\n\
t.1 mkdir /img/app\n\
t.1 write /img/app/main code\n\
t.1 chown /img/app 1000 1000\n\
t.1 chown /img/app/main 1000 1000\n\
t.1 chmod /img/app/main 755\n\
t.1 bind /ctx /img/ctx                  => deny 2 ENOENT W6\n\
t.1 mkdir /img/ctx\n\
t.1 bind /ctx /img/ctx\n\
t.1 remount /img/ctx ro\n\
t.1 chroot /img\n\
t.1 fork 1000 1000 1000 -               => ok t.1.1\n\
t.1.1 exec /app/main\n\
t.1.1 write /app/cache x\n\
t.1.1 write /etc x                      => deny 13 EACCES C1\n\
t.1.1 write /ctx/x y                    => deny 30 EROFS F1\n\
t.1 umount /ctx\n\
t.1 rmdir /ctx\n\
t.1.1 ls /                              => ok app\n\
";
