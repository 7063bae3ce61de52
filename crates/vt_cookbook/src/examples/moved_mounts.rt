//! `examples/moved-mounts.vt`, by `checks/cookbook --write`.

/// The script.
pub static SCRIPT: &str = "\
# What `move` takes: roots of mounts, and neither onto shared mounts from shared parents nor under themselves.\n\
\n\
t mkdir /a\n\
t mkdir /b\n\
t mkdir /c\n\
t mount plain /a\n\
t mkdir /a/s\n\
t mount plain /a/s\n\
t move /a /b\n\
t mounts                                => ok 3\n\
=> 1 - - plain:1 / rw private\n\
=> 2 1 /b plain:2 / rw private\n\
=> 3 2 /s plain:3 / rw private\n\
t rtype / shared\n\
t move /b /c                            => deny 22 EINVAL M4\n\
t type / private\n\
t move /b /c\n\
t move /c /c/s                          => deny 40 ELOOP M6\n\
t move /c/s /a                          => deny 22 EINVAL M4\n\
t mounts                                => ok 3\n\
=> 1 - - plain:1 / rw private\n\
=> 2 1 /c plain:2 / rw shared:1\n\
=> 3 2 /s plain:3 / rw shared:2\n\
t move / /a                             => deny 40 ELOOP M6\n\
";
