//! `examples/sticky-tmp.vt`, by `checks/cookbook --write`.

/// The script.
pub static SCRIPT: &str = "\
# A directory like /tmp: all may write in it, and only owners remove or rename.\n\
\n\
t mkdir /tmp\n\
t chmod /tmp 1777\n\
t fork 1000 1000 - -                    => ok t.1\n\
t fork 1001 1001 - -                    => ok t.2\n\
t.1 write /tmp/a x\n\
t.2 unlink /tmp/a                       => deny 1 EPERM C3\n\
t.2 rename /tmp/a /tmp/b                => deny 1 EPERM C3\n\
t.2 write /tmp/a y                      => deny 13 EACCES C1\n\
t.2 link /tmp/a /tmp/l\n\
t.2 symlink a /tmp/s\n\
t.1 unlink /tmp/s                       => deny 1 EPERM C3\n\
t.1 chmod /tmp/a 666\n\
t.2 write /tmp/a y\n\
t.2 rename /tmp/s /tmp/a                => deny 1 EPERM C3\n\
t ls /tmp                               => ok a l s\n\
";
